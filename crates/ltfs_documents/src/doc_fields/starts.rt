//! Start tags and end tags.

ghost use Rattle.std.specs.Prelude.{◌≡◌, ◌≤◌, ◌<◌, ◌+◌, ℕ, length, drop, not, ◌==◌, IfOk, IfSome};
ghost use Rattle.ltfs_documents.specs.declared.doc_fields.errors.Why.TheVariants.{Syntax};
ghost use Rattle.ltfs_documents.specs.DocFields.EndTag.{end_at};
ghost use Rattle.ltfs_documents.specs.DocFields.Space.{run_end};
ghost use Rattle.ltfs_documents.specs.DocFields.StartTag.{attribute_at, begins_name, behind_at, closes_at, first_at};
ghost use Rattle.ltfs_documents.specs.DocFields.StartTag.{in_name};
ghost use Rattle.ltfs_documents.specs.DocFields.StartTag.{in_range, is_known, is_version, name_at, named_at};
ghost use Rattle.ltfs_documents.specs.DocFields.StartTag.{no_version, percent_of};
ghost use Rattle.ltfs_documents.specs.DocFields.StartTag.{attribute_of, type_of};
ghost use Rattle.ltfs_documents.specs.DocFields.StartTag.{quoted_at, rest_at, second_at, start_at, value_at};
ghost use Rattle.ltfs_documents.specs.DocFields.StartTag.{version_at, versioned};
ghost use Rattle.ltfs_documents.specs.DocFields.Tags.{is_escapable, is_root, is_typed};

use crate::doc_fields::bytes::{byte, literal, one, skip_space, syntax};
use crate::doc_fields::errors::{FieldErr, Why};
use crate::doc_fields::plain_tags::plain_end;
use crate::doc_fields::tags::{Tag, name_of, tag_of};

/// The attribute of a start tag. An element has at most one.
#[derive(Clone, Copy, Debug, PartialEq, Eq)]
pub enum Attribute {
    Absent,
    /// `version`, of a root: one that is read, 2.0 to 2.4. It is written as 2.4.0.
    Version,
    /// `percentencoded`, of a name, a key or the text of a symbolic link.
    Percent(bool),
    /// `type` of a value whose text stands for bytes in base64.
    Base64,
    /// `type` of a value that is its text.
    Plain,
}

/// A start tag.
#[derive(Clone, Copy, Debug, PartialEq, Eq)]
pub struct Start {
    pub tag: Tag,
    pub attribute: Attribute,
    /// Whether it ends with `/>`, so that the element is whole.
    pub empty: bool,
    /// The place behind it.
    pub next: usize,
}

fn in_range(least: u8, most: u8, byte: u8) -> bool
    ensures { result ≡ in_range least most byte }
{
    least <= byte && byte <= most
}

fn begins_name(byte: u8) -> bool
    ensures { result ≡ begins_name byte }
{
    in_range(b'a', b'z', byte)
        || in_range(b'A', b'Z', byte)
        || byte == b'_'
        || byte == b':'
        || 128 <= byte
}

pub fn in_name(byte: u8) -> bool
    ensures { result ≡ in_name byte }
{
    begins_name(byte) || in_range(b'0', b'9', byte) || byte == b'-' || byte == b'.'
}

#[tactic(auto, using(crate::proofs::DocFields::Runs::run_more, crate::proofs::DocFields::Runs::run_stops, crate::proofs::DocFields::Runs::run_ends))]
fn name_end(text: &[u8], at: usize) -> usize
    requires { at ≤ length text.now }
    ensures value { result ≡ run_end in_name at (drop at text.now) }
    ensures within { result ≤ length text.now }
    ensures after { at ≤ result }
{
    for i in at..text.len() {
        if !in_name(text[i]) {
            return i;
        }
    }
    text.len()
}

/// Where the name ends that must begin there.
#[tactic(auto, unfolding(crate::specs::DocFields::StartTag::name_at))]
fn name(text: &[u8], at: usize) -> Result<usize, FieldErr>
    requires { at ≤ length text.now }
    ensures value { result ≡ name_at text.now at }
    ensures within { IfOk result (λ end. (at ≤ end) × (end < length text.now)) }
{
    if !begins_name(byte(text, at)) {
        return Err(syntax(at));
    }
    let end = name_end(text, at);
    if end == text.len() {
        return Err(syntax(end));
    }
    Ok(end)
}

#[tactic(auto, using(crate::proofs::DocFields::Runs::run_more, crate::proofs::DocFields::Runs::run_stops, crate::proofs::DocFields::Runs::run_ends))]
fn quote_end(quote: u8, text: &[u8], at: usize) -> usize
    requires { at ≤ length text.now }
    ensures value { result ≡ run_end (λ b. not (b == quote)) at (drop at text.now) }
    ensures within { result ≤ length text.now }
    ensures after { at ≤ result }
{
    for i in at..text.len() {
        if text[i] == quote {
            return i;
        }
    }
    text.len()
}

/// Where the closing quote stands of the value in quotes that must begin there.
#[tactic(auto, unfolding(crate::specs::DocFields::StartTag::quoted_at))]
pub fn quoted(text: &[u8], at: usize) -> Result<usize, FieldErr>
    requires { at ≤ length text.now }
    ensures value { result ≡ quoted_at text.now at }
    ensures within { IfOk result (λ end. (at < end) × (end < length text.now)) }
{
    let quote = byte(text, at);
    if quote != b'"' && quote != b'\'' {
        return Err(syntax(at));
    }
    let end = quote_end(quote, text, at + 1);
    if end == text.len() {
        return Err(syntax(end));
    }
    Ok(end)
}

#[tactic(auto, unfolding(crate::specs::DocFields::StartTag::is_version))]
fn is_version(value: &[u8]) -> bool
    ensures { result ≡ is_version value.now }
{
    5 <= value.len()
        && value.len() <= 7
        && byte(value, 0) == b'2'
        && byte(value, 1) == b'.'
        && in_range(b'0', b'4', byte(value, 2))
        && byte(value, 3) == b'.'
        && in_range(b'0', b'9', byte(value, 4))
        && (value.len() <= 5 || in_range(b'0', b'9', byte(value, 5)))
        && (value.len() <= 6 || in_range(b'0', b'9', byte(value, 6)))
}

fn is_root(tag: Tag) -> bool
    ensures { result ≡ is_root tag }
{
    match tag {
        Tag::LtfsLabel | Tag::LtfsIndex => true,
        _ => false,
    }
}

fn is_escapable(tag: Tag) -> bool
    ensures { result ≡ is_escapable tag }
{
    match tag {
        Tag::Name | Tag::Symlink | Tag::Key => true,
        _ => false,
    }
}

fn is_typed(tag: Tag) -> bool
    ensures { result ≡ is_typed tag }
{
    match tag {
        Tag::Value => true,
        _ => false,
    }
}

/// Whether an element may have this attribute.
fn is_known(tag: Tag, name: &[u8]) -> bool
    ensures { result ≡ is_known tag name.now }
{
    is_root(tag) && name == b"version".as_slice()
        || is_escapable(tag) && name == b"percentencoded".as_slice()
        || is_typed(tag) && name == b"type".as_slice()
}

/// Finds the attribute that follows, if one does: the place of its name and the place
/// behind that.
#[tactic(auto, unfolding(crate::specs::DocFields::StartTag::attribute_at))]
fn find_attribute(
    tag: Tag,
    from: usize,
    text: &[u8],
    at: usize,
) -> Result<Option<(usize, usize)>, FieldErr>
    requires { at ≤ length text.now }
    ensures value { result ≡ attribute_at tag from text.now at }
    ensures within { IfOk result (λ o. IfSome o (λ n. (at ≤ n.1) × (n.1 ≤ length text.now))) }
{
    let start = skip_space(text, at);
    let next = byte(text, start);
    if next == b'>' || next == b'/' {
        return Ok(None);
    }
    if start == at {
        return Err(syntax(at));
    }
    let end = name(text, start)?;
    if is_known(tag, &text[start..end]) {
        return Ok(Some((start, end)));
    }
    Err(FieldErr {
        at: from,
        why: Why::Unknown,
    })
}

/// The value of an attribute: where it begins, and where its closing quote stands.
#[tactic(auto, unfolding(crate::specs::DocFields::StartTag::value_at))]
fn value(text: &[u8], at: usize) -> Result<(usize, usize), FieldErr>
    requires { at ≤ length text.now }
    ensures value { result ≡ value_at text.now at }
    ensures within { IfOk result (λ v. (at < v.0) × (v.0 ≤ v.1) × (v.1 < length text.now)) }
{
    let equals = one(b'=', text, skip_space(text, at))?;
    let quote = skip_space(text, equals);
    let end = quoted(text, quote)?;
    Ok((quote + 1, end))
}

/// Whether a name or a text is written with escapes of percent signs; its value begins at a
/// place.
fn percent_of(value: &[u8], at: usize) -> Result<Attribute, FieldErr>
    ensures { result ≡ percent_of value.now at }
{
    if value == b"true".as_slice() {
        return Ok(Attribute::Percent(true));
    }
    if value == b"false".as_slice() {
        return Ok(Attribute::Percent(false));
    }
    Err(syntax(at))
}

/// How the text of a value is to be read.
fn type_of(value: &[u8], at: usize) -> Result<Attribute, FieldErr>
    ensures { result ≡ type_of value.now at }
{
    if value == b"base64".as_slice() {
        return Ok(Attribute::Base64);
    }
    if value == b"text".as_slice() {
        return Ok(Attribute::Plain);
    }
    Err(syntax(at))
}

/// The attribute that an element may have, by its value.
fn attribute_of(tag: Tag, value: &[u8], at: usize) -> Result<Attribute, FieldErr>
    ensures { result ≡ attribute_of tag value.now at }
{
    if is_typed(tag) {
        type_of(value, at)
    } else {
        percent_of(value, at)
    }
}

#[tactic(auto, unfolding(crate::specs::DocFields::StartTag::closes_at))]
fn closes(tag: Tag, attribute: Attribute, text: &[u8], at: usize) -> Result<Start, FieldErr>
    requires { at ≤ length text.now }
    ensures value { result ≡ closes_at tag attribute text.now at }
    ensures within { IfOk result (λ s. (at < s.next) × (s.next ≤ length text.now)) }
{
    match byte(text, at) {
        b'>' => Ok(Start {
            tag,
            attribute,
            empty: false,
            next: at + 1,
        }),
        b'/' => {
            let next = one(b'>', text, at + 1)?;
            Ok(Start {
                tag,
                attribute,
                empty: true,
                next,
            })
        }
        _ => Err(syntax(at)),
    }
}

/// The rest of a start tag behind its one attribute.
#[tactic(auto, unfolding(crate::specs::DocFields::StartTag::behind_at))]
fn behind(tag: Tag, has: Attribute, from: usize, text: &[u8], at: usize) -> Result<Start, FieldErr>
    requires { at ≤ length text.now }
    ensures value { result ≡ behind_at tag has from text.now at }
    ensures within { IfOk result (λ s. (at < s.next) × (s.next ≤ length text.now)) }
{
    match find_attribute(tag, from, text, at)? {
        None => closes(tag, has, text, skip_space(text, at)),
        Some(twice) => Err(syntax(twice.0)),
    }
}

/// The rest of the start tag of an element that is no root.
fn read_other(
    tag: Tag,
    from: usize,
    text: &[u8],
    at: usize,
    first: Option<(usize, usize)>,
) -> Result<Start, FieldErr>
    requires at { at ≤ length text.now }
    requires first { IfSome first (λ n. (at ≤ n.1) × (n.1 ≤ length text.now)) }
    ensures value { result ≡ first_at tag from text.now at first }
    ensures within { IfOk result (λ s. (at < s.next) × (s.next ≤ length text.now)) }
{
    let Some(name) = first else {
        return closes(tag, Attribute::Absent, text, skip_space(text, at));
    };
    let (start, end) = value(text, name.1)?;
    let attribute = attribute_of(tag, &text[start..end], start)?;
    behind(tag, attribute, from, text, end + 1)
}

/// The refusal of a root whose version isn't read: an attribute that isn't known comes
/// before it, all else behind it.
fn no_version(from: usize, rest: Result<Start, FieldErr>) -> FieldErr
    ensures { result ≡ no_version from rest }
{
    let why = match rest {
        Err(
            FieldErr {
                why: Why::Unknown,
                ..
            },
        ) => Why::Unknown,
        _ => Why::Version,
    };
    FieldErr { at: from, why }
}

/// The rest of the start tag of a root.
fn read_root(
    tag: Tag,
    from: usize,
    text: &[u8],
    at: usize,
    first: Option<(usize, usize)>,
) -> Result<Start, FieldErr>
    requires at { at ≤ length text.now }
    requires first { IfSome first (λ n. (at ≤ n.1) × (n.1 ≤ length text.now)) }
    ensures value { result ≡ version_at tag from text.now at first }
    ensures within { IfOk result (λ s. (at < s.next) × (s.next ≤ length text.now)) }
{
    let Some(name) = first else {
        closes(tag, Attribute::Absent, text, skip_space(text, at))?;
        return Err(FieldErr {
            at: from,
            why: Why::Version,
        });
    };
    let (start, end) = value(text, name.1)?;
    let rest = behind(tag, Attribute::Version, from, text, end + 1);
    if is_version(&text[start..end]) {
        rest
    } else {
        Err(no_version(from, rest))
    }
}

/// Reads the rest of a start tag whose `<` stands at `from`, from the place behind its
/// element's name on.
///
/// # Errors
///
/// `Unknown` at `from` for an attribute that the element can't have. `Version` at `from` for
/// a root without a version of 2.0 to 2.4, unless such an attribute comes first. `Syntax` at
/// the first byte that doesn't fit: at the value of `percentencoded` where that is neither
/// `true` nor `false`, at the second name where an attribute is there twice.
#[tactic(auto, unfolding(crate::specs::DocFields::StartTag::rest_at))]
pub fn read_rest(tag: Tag, from: usize, text: &[u8], at: usize) -> Result<Start, FieldErr>
    requires { at ≤ length text.now }
    ensures value { result ≡ rest_at tag from text.now at }
    ensures within { IfOk result (λ s. (at < s.next) × (s.next ≤ length text.now)) }
{
    let first = find_attribute(tag, from, text, at)?;
    if is_root(tag) {
        read_root(tag, from, text, at, first)
    } else {
        read_other(tag, from, text, at, first)
    }
}

/// Reads the element of the start tag whose `<` must stand at `at`, and gives the place
/// behind its name.
///
/// # Errors
///
/// `Unknown` at `at` for a name that no element has, `Syntax` at the first byte that doesn't
/// fit.
#[tactic(auto, unfolding(crate::specs::DocFields::StartTag::named_at))]
pub fn read_name(text: &[u8], at: usize) -> Result<(Tag, usize), FieldErr>
    requires { at ≤ length text.now }
    ensures value { result ≡ named_at text.now at }
    ensures within { IfOk result (λ t. (at < t.1) × (t.1 ≤ length text.now)) }
{
    let start = one(b'<', text, at)?;
    let end = name(text, start)?;
    match tag_of(&text[start..end]) {
        Some(tag) => Ok((tag, end)),
        None => Err(FieldErr {
            at,
            why: Why::Unknown,
        }),
    }
}

/// Reads the start tag whose `<` must stand at `at`. The refusals are those of `read_name`
/// and then of `read_rest`.
#[tactic(auto, unfolding(crate::specs::DocFields::StartTag::start_at))]
pub fn read_start(text: &[u8], at: usize) -> Result<Start, FieldErr>
    requires { at ≤ length text.now }
    ensures value { result ≡ start_at text.now at }
    ensures within { IfOk result (λ s. (at < s.next) × (s.next ≤ length text.now)) }
{
    let (tag, end) = read_name(text, at)?;
    read_rest(tag, at, text, end)
}

/// Reads the end tag of an element, which must stand at `at`, and gives the place behind it.
/// The refusal is `Syntax` at the first byte that doesn't fit.
pub fn read_end(text: &[u8], at: usize, tag: Tag) -> Result<usize, FieldErr>
    requires { at ≤ length text.now }
    ensures value { result ≡ end_at text.now at tag }
    ensures within { IfOk result (λ next. (at < next) × (next ≤ length text.now)) }
{
    match plain_end(tag, text, at) {
        Some(next) => Ok(next),
        None => read_any_end(text, at, tag),
    }
}

/// The same of an end tag that may have white space, byte by byte.
#[tactic(auto, unfolding(crate::specs::DocFields::EndTag::end_at))]
fn read_any_end(text: &[u8], at: usize, tag: Tag) -> Result<usize, FieldErr>
    requires { at ≤ length text.now }
    ensures value { result ≡ end_at text.now at tag }
    ensures within { IfOk result (λ next. (at < next) × (next ≤ length text.now)) }
{
    let slash = one(b'<', text, at)?;
    let start = one(b'/', text, slash)?;
    let end = literal(name_of(tag), text, start)?;
    one(b'>', text, skip_space(text, end))
}
