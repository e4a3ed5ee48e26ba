//! The values of leaves.

ghost use Rattle.std.specs.Prelude.{◌≡◌, ◌≤◌, ◌<◌, ◌==◌, length, nat_lt, if◌then◌else◌, IfOk, MatchOption, true, false};
ghost use Rattle.std.specs.Prelude.{List, Ok, ℕ};
ghost use Rattle.std.specs.Str.{chars, encode_utf8_all, is_utf8};
ghost use Rattle.ltfs_documents.specs.DocFields.Characters.{characters};
ghost use Rattle.tape_types.specs.Names.{has_byte};
ghost use Rattle.ltfs_documents.specs.LtfsText.Names.{decoded};
ghost use Rattle.ltfs_documents.specs.declared.doc_elements.errors.PieceErr.TheVariants as errors;
ghost use Rattle.ltfs_documents.specs.DocElements.Pieces.{bytes_in, bytes_told, empty_value, from_base64, is_base64};
ghost use Rattle.ltfs_documents.specs.DocElements.Pieces.{is_encoded, is_name};
ghost use Rattle.ltfs_documents.specs.DocElements.Pieces.{is_too_great, is_volume_name, leaf_at, least, name_in, named};
ghost use Rattle.ltfs_documents.specs.DocElements.Pieces.{number_in};
ghost use Rattle.ltfs_documents.specs.DocElements.Pieces.{some_bytes, value_in};
ghost use Rattle.ltfs_documents.specs.DocElements.Answers.{Gives, val_of};

use crate::doc_elements::encodings::{bare_end, bytes_of_characters, bytes_told, lined_end};
use crate::doc_elements::errors::PieceErr;
use crate::doc_elements::schema::Form;
use crate::doc_fields::{
    Attribute, Characters, LockState, Start, Tag, read_bool, read_characters, read_end,
    read_letter, read_lock, read_text, read_time, read_u64, read_uuid, skip_space,
};
use crate::ltfs_text::{ReadNameErr, read_name};
use std::alloc::Global;
use tape_types::node_keys::is_key;
use tape_types::{Bytes, LONGEST_NAME, Moment, NoMemory, Text};

/// The value of a leaf.
#[derive(Drop)]
pub enum Value {
    Text(Text),
    Time(Moment),
    Uuid(u128),
    Letter(u8),
    Number(u64),
    Truth(bool),
    Lock(LockState),
    Bytes(Bytes),
}

fn is_too_great(form: Form, number: u64) -> bool
    ensures { result ≡ is_too_great form number }
{
    match form {
        Form::Generation | Form::Bounded => number > 1 << 62,
        Form::BlockSize => number > 1_048_576,
        _ => false,
    }
}

fn is_too_small(form: Form, number: u64) -> bool
    ensures { result ≡ nat_lt number (least form) }
{
    match form {
        Form::Generation => number < 1,
        Form::BlockSize => number < 4096,
        _ => false,
    }
}

/// A number of a form, whose first digit must stand at `from`.
#[tactic(auto, unfolding(crate::specs::DocElements::Pieces::number_in))]
fn number(form: Form, text: &[u8], from: usize) -> Result<(Value, usize), PieceErr>
    requires { from ≤ length text.now }
    ensures value { Gives (λ x. (val_of x.0, x.1)) result (number_in form text.now from) }
    ensures within { IfOk result (λ x. (from ≤ x.1) × (x.1 ≤ length text.now)) }
{
    let (number, next) = read_u64(text, from)?;
    if is_too_great(form, number) {
        return Err(PieceErr::Number(from));
    }
    if is_too_small(form, number) {
        return Err(too_small(text, from, next));
    }
    Ok((Value::Number(number), skip_space(text, next)))
}

/// The refusal of a number that is too small. Where the text ends behind it, it could go on.
fn too_small(text: &[u8], from: usize, next: usize) -> PieceErr
    ensures { result ≡ (if next == length text.now then errors.Syntax (length text.now) else errors.Number from) }
{
    if next == text.len() {
        PieceErr::Syntax(next)
    } else {
        PieceErr::Number(from)
    }
}

#[tactic(auto, using(std::proofs::lemmas::Str::chars_from_encodes))]
fn char_count(name: &str) -> usize
    ensures { result ≡ length (chars name.now) }
{
    name.chars().count()
}

fn contains_byte(name: &str, byte: u8) -> bool
    ensures { result ≡ has_byte byte name.now }
{
    name.bytes().any(|b| b == byte)
}

fn is_volume_name(name: &str) -> bool
    ensures { result ≡ is_volume_name name.now }
{
    char_count(name) <= LONGEST_NAME && !contains_byte(name, b'/') && !contains_byte(name, 0)
}

/// Whether a text may be a name of a form.
fn is_name(form: Form, name: &str) -> bool
    ensures { result ≡ is_name form name.now }
{
    match form {
        Form::VolumeName => is_volume_name(name),
        Form::NodeName => is_volume_name(name) && !name.is_empty() && name != "." && name != "..",
        Form::Key => is_key(name),
        _ => true,
    }
}

fn is_encoded(attribute: Attribute) -> bool
    ensures { result ≡ is_encoded attribute }
{
    match attribute {
        Attribute::Percent(is) => is,
        _ => false,
    }
}

/// The text that a text stands for, where it is percent-encoded or not; none where that isn't
/// UTF-8.
#[tactic(auto, using(crate::proofs::DocElements::Names::utf8_is, crate::proofs::DocElements::Names::utf8_none))]
fn decode(alloc: Global, text: Text, percent: bool) -> Result<Option<Text>, NoMemory>
    ensures { IfOk result (λ found. MatchOption found (is_utf8 (decoded percent text) ≡ false)
        (λ name. (name ≡ decoded percent text) × (is_utf8 (decoded percent text) ≡ true))) }
{
    if !percent {
        // A text is UTF-8.
        let _utf8 = text.as_str();
        return Ok(Some(text));
    }
    match read_name(alloc, text.as_str(), true) {
        Ok(name) => Ok(Some(name)),
        Err(ReadNameErr::Utf8) => Ok(None),
        Err(ReadNameErr::NoMemory) => Err(NoMemory),
    }
}

/// The name that a text stands for, whose element begins at `from`.
fn named(
    alloc: Global,
    form: Form,
    from: usize,
    text: Text,
    percent: bool,
) -> Result<Text, PieceErr>
    ensures { Gives (λ name. name) result (named form from (decoded percent text)) }
{
    match decode(alloc, text, percent)? {
        None => Err(PieceErr::Name(from)),
        Some(name) => {
            if is_name(form, name.as_str()) {
                Ok(name)
            } else {
                Err(PieceErr::Name(from))
            }
        }
    }
}

#[tactic(auto, unfolding(crate::specs::DocElements::Pieces::name_in))]
fn name(
    alloc: Global,
    form: Form,
    from: usize,
    start: Start,
    text: &[u8],
) -> Result<(Value, usize), PieceErr>
    requires { start.next ≤ length text.now }
    ensures value { Gives (λ x. (val_of x.0, x.1)) result (name_in form from start text.now) }
    ensures within { IfOk result (λ x. (start.next ≤ x.1) × (x.1 ≤ length text.now)) }
{
    let (words, next) = read_text(alloc, text, start.next)?;
    if next == text.len() {
        return Err(PieceErr::Syntax(next));
    }
    let name = named(alloc, form, from, words, is_encoded(start.attribute))?;
    Ok((Value::Text(name), next))
}

fn is_base64(attribute: Attribute) -> bool
    ensures { result ≡ is_base64 attribute }
{
    match attribute {
        Attribute::Base64 => true,
        _ => false,
    }
}

/// The bytes that a text stands for, whose first byte behind white space stands at a place.
#[tactic(auto, using(crate::proofs::DocElements::Base64Lemmas::bytes_found, crate::proofs::DocElements::Base64Lemmas::bytes_missed))]
fn found(alloc: Global, at: usize, text: &[u8], in_base64: bool) -> Result<Bytes, PieceErr>
    ensures { Gives (λ bs. bs) result (some_bytes at (bytes_told in_base64 text.now)) }
{
    match bytes_told(alloc, text, in_base64)? {
        None => Err(PieceErr::Syntax(at)),
        Some(bytes) => Ok(bytes),
    }
}

/// The bytes that the characters of a text stand for in base64, whose first byte behind white space stands at a place.
#[tactic(auto, using(crate::proofs::DocElements::Base64Lemmas::bytes_found, crate::proofs::DocElements::Base64Lemmas::bytes_missed))]
fn found_in(alloc: Global, at: usize, left: Characters) -> Result<Bytes, PieceErr>
    ensures { (cs : List ℕ) → characters left.entry ≡ Ok cs
        → Gives (λ bs. bs) result (some_bytes at (from_base64 (encode_utf8_all cs))) }
{
    match bytes_of_characters(alloc, left)? {
        None => Err(PieceErr::Syntax(at)),
        Some(bytes) => Ok(bytes),
    }
}

/// The bytes of a value in base64, and the place of its end tag. One with references is decoded character by character.
#[tactic(auto, unfolding(crate::specs::DocElements::Pieces::bytes_in), using(crate::proofs::DocElements::Base64Lemmas::same_symbols))]
fn decoded_bytes(alloc: Global, start: Start, text: &[u8]) -> Result<(Value, usize), PieceErr>
    requires within { start.next ≤ length text.now }
    requires base64 { is_base64 start.attribute ≡ true }
    ensures value { Gives (λ x. (val_of x.0, x.1)) result (bytes_in start text.now) }
    ensures within { IfOk result (λ x. (start.next ≤ x.1) × (x.1 ≤ length text.now)) }
{
    let at = skip_space(text, start.next);
    if let Some(end) = lined_end(text, start.next) {
        let bytes = found(alloc, at, &text[start.next..end], true)?;
        return Ok((Value::Bytes(bytes), end));
    }
    let (left, next) = read_characters(text, start.next)?;
    if next == text.len() {
        return Err(PieceErr::Syntax(next));
    }
    let bytes = found_in(alloc, at, left)?;
    Ok((Value::Bytes(bytes), next))
}

/// The bytes of a value, and the place of its end tag.
#[tactic(auto, unfolding(crate::specs::DocElements::Pieces::bytes_in))]
fn bytes(alloc: Global, start: Start, text: &[u8]) -> Result<(Value, usize), PieceErr>
    requires { start.next ≤ length text.now }
    ensures value { Gives (λ x. (val_of x.0, x.1)) result (bytes_in start text.now) }
    ensures within { IfOk result (λ x. (start.next ≤ x.1) × (x.1 ≤ length text.now)) }
{
    if is_base64(start.attribute) {
        return decoded_bytes(alloc, start, text);
    }
    let at = skip_space(text, start.next);
    if let Some(end) = bare_end(text, start.next) {
        let bytes = found(alloc, at, &text[start.next..end], false)?;
        return Ok((Value::Bytes(bytes), end));
    }
    let (words, next) = read_text(alloc, text, start.next)?;
    if next == text.len() {
        return Err(PieceErr::Syntax(next));
    }
    let bytes = found(alloc, at, words.as_str().as_bytes(), false)?;
    Ok((Value::Bytes(bytes), next))
}

/// The value of a leaf behind its start tag, and the place of its end tag.
fn value_in(
    alloc: Global,
    form: Form,
    from: usize,
    start: Start,
    text: &[u8],
) -> Result<(Value, usize), PieceErr>
    requires { start.next ≤ length text.now }
    ensures value { Gives (λ x. (val_of x.0, x.1)) result (value_in form from start text.now) }
    ensures within { IfOk result (λ x. (start.next ≤ x.1) × (x.1 ≤ length text.now)) }
{
    let at = skip_space(text, start.next);
    match form {
        Form::Text => {
            let (words, next) = read_text(alloc, text, start.next)?;
            Ok((Value::Text(words), next))
        }
        Form::VolumeName | Form::NodeName | Form::AnyName | Form::Key => {
            name(alloc, form, from, start, text)
        }
        Form::Value => bytes(alloc, start, text),
        Form::BlockSize | Form::Number | Form::Bounded | Form::Generation => {
            number(form, text, at)
        }
        Form::Time => {
            let (moment, next) = read_time(text, at)?;
            Ok((Value::Time(moment), skip_space(text, next)))
        }
        Form::Uuid => {
            let (uuid, next) = read_uuid(text, at)?;
            Ok((Value::Uuid(uuid), skip_space(text, next)))
        }
        Form::Letter => {
            let (letter, next) = read_letter(text, at)?;
            Ok((Value::Letter(letter), skip_space(text, next)))
        }
        Form::Truth => {
            let (truth, next) = read_bool(text, at)?;
            Ok((Value::Truth(truth), skip_space(text, next)))
        }
        Form::Lock => {
            let (state, next) = read_lock(text, at)?;
            Ok((Value::Lock(state), skip_space(text, next)))
        }
    }
}

/// The value of a leaf that is one empty tag.
fn empty_value(
    alloc: Global,
    form: Form,
    from: usize,
    at: usize,
) -> Result<(Value, usize), PieceErr>
    ensures value { Gives (λ x. (val_of x.0, x.1)) result (empty_value form from at) }
    ensures within { IfOk result (λ x. x.1 ≡ at) }
{
    let empty = Text::from_string(String::new(alloc));
    match form {
        Form::Text => Ok((Value::Text(empty), at)),
        Form::VolumeName | Form::NodeName | Form::AnyName | Form::Key => {
            let name = named(alloc, form, from, empty, false)?;
            Ok((Value::Text(name), at))
        }
        Form::Value => Ok((Value::Bytes(Bytes::new(alloc)), at)),
        _ => Err(PieceErr::Syntax(at)),
    }
}

/// The rest of a leaf, whose start tag begins at `from`.
#[tactic(auto, unfolding(crate::specs::DocElements::Pieces::leaf_at))]
pub fn leaf(
    alloc: Global,
    form: Form,
    tag: Tag,
    from: usize,
    start: Start,
    text: &[u8],
) -> Result<(Value, usize), PieceErr>
    requires { start.next ≤ length text.now }
    ensures value { Gives (λ x. (val_of x.0, x.1)) result (leaf_at form tag from start text.now) }
    ensures within { IfOk result (λ x. (start.next ≤ x.1) × (x.1 ≤ length text.now)) }
{
    if start.empty {
        return empty_value(alloc, form, from, start.next);
    }
    let (value, next) = value_in(alloc, form, from, start, text)?;
    let end = read_end(text, next, tag)?;
    Ok((value, end))
}
