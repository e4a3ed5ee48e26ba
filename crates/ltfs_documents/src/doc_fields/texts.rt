//! The text of an element.

ghost use Rattle.std.specs.Prelude.{◌≡◌, ◌≤◌, ◌<◌, ◌+◌, ◌^◌, ◌⊎◌, ◌==◌, not, length, drop, take, IfErr, IfOk};
ghost use Rattle.std.specs.Prelude.{IfSome, List, ℕ, Ok, Err};
ghost use Rattle.std.specs.Prelude.{string_bytes};
ghost use Rattle.std.specs.List.{list_all};
ghost use Rattle.std.specs.Str.{encode_utf8_all};
ghost use Rattle.ltfs_documents.specs.DocFields.Characters.{characters};
ghost use Rattle.ltfs_documents.specs.DocFields.Reading.{Gives, begins, between};
ghost use Rattle.ltfs_documents.specs.DocFields.Space.{run_end};
ghost use Rattle.ltfs_documents.specs.DocFields.Texts.{digit_of, finished, is_allowed, is_cut_number, is_cut_reference};
ghost use Rattle.ltfs_documents.specs.DocFields.Texts.{is_simple};
ghost use Rattle.ltfs_documents.specs.DocFields.Texts.{line_feeds, numbered, reference, resolved_text, run_text};
ghost use Rattle.ltfs_documents.specs.DocFields.Texts.{text_at, text_end};
ghost use Rattle.ltfs_documents.specs.DocFields.Texts.{unit_at};

use crate::doc_fields::bytes::{begins, syntax};
use crate::doc_fields::characters::Characters;
use crate::doc_fields::errors::FieldErr;
use crate::doc_fields::numbers::is_digit;
use std::alloc::Global;
use std::str;
use tape_types::Text;

/// The greatest number of a character.
const LAST: u32 = 0x10_ffff;

/// Whether a document may have this character.
fn is_allowed(c: u32) -> bool
    ensures { result ≡ is_allowed c }
{
    c == 9
        || c == 10
        || c == 13
        || 32 <= c && c <= 0xd7ff
        || 0xe000 <= c && c <= 0xfffd
        || 0x1_0000 <= c && c <= LAST
}

/// The value of a digit of base 10 or 16.
fn digit_of(base: u32, byte: u8) -> Option<u32>
    ensures value { result ≡ digit_of base byte }
    ensures small { IfSome result (λ d. d < 16) }
{
    if is_digit(byte) {
        return Some(u32::from(byte - b'0'));
    }
    if base == 16 && b'a' <= byte && byte <= b'f' {
        return Some(u32::from(byte - b'a' + 10));
    }
    if base == 16 && b'A' <= byte && byte <= b'F' {
        return Some(u32::from(byte - b'A' + 10));
    }
    None
}

/// The character of a number that was read with so many bytes.
fn finished(number: u32, taken: usize) -> Option<(char, usize)>
    ensures { result ≡ finished number taken }
{
    if !is_allowed(number) {
        return None;
    }
    match char::from_u32(number) {
        Some(c) => Some((c, taken)),
        None => unreachable!(),
    }
}

/// The character whose number is written in digits of base 10 or 16 up to a `;`, and how many
/// bytes that takes beside those that are taken.
#[tactic(auto, using(crate::proofs::DocFields::References::numbered_more, crate::proofs::DocFields::References::numbered_stops, crate::proofs::DocFields::References::numbered_ends, crate::proofs::DocFields::References::numbered_done, crate::proofs::DocFields::References::numbered_large))]
fn numbered(base: u32, digits: &[u8], taken: usize) -> Option<(char, usize)>
    requires base { (base ≡ 10) ⊎ (base ≡ 16) }
    requires fits { taken + length digits.now < 2 ^ 64 }
    ensures value { result ≡ numbered base 0 taken digits.now }
{
    let mut number: u32 = 0;
    for i in 0..digits.len() {
        let byte = digits[i];
        if byte == b';' {
            return finished(number, taken + i + 1);
        }
        let digit = digit_of(base, byte)?;
        if number > LAST {
            return None;
        }
        number = number * base + digit;
    }
    None
}

/// Whether the text may end within such a number.
#[tactic(auto, using(crate::proofs::DocFields::References::cut_more, crate::proofs::DocFields::References::cut_stops, crate::proofs::DocFields::References::cut_ends, crate::proofs::DocFields::References::cut_large))]
fn is_cut_number(base: u32, digits: &[u8]) -> bool
    requires { (base ≡ 10) ⊎ (base ≡ 16) }
    ensures { result ≡ is_cut_number base 0 digits.now }
{
    let mut number: u32 = 0;
    for i in 0..digits.len() {
        let Some(digit) = digit_of(base, digits[i]) else {
            return false;
        };
        if number > LAST {
            return false;
        }
        number = number * base + digit;
    }
    number <= LAST
}

/// The character that a reference stands for, read behind its `&`, and the bytes that it
/// takes.
#[tactic(auto, unfolding(crate::specs::DocFields::Texts::reference))]
fn reference(rest: &[u8]) -> Option<(char, usize)>
    ensures { result ≡ reference rest.now }
{
    if begins(b"#x", rest) {
        return numbered(16, &rest[2..], 2);
    }
    if begins(b"#", rest) {
        return numbered(10, &rest[1..], 1);
    }
    if begins(b"amp;", rest) {
        return Some(('&', 4));
    }
    if begins(b"lt;", rest) {
        return Some(('<', 3));
    }
    if begins(b"gt;", rest) {
        return Some(('>', 3));
    }
    if begins(b"quot;", rest) {
        return Some(('"', 5));
    }
    if begins(b"apos;", rest) {
        return Some(('\'', 5));
    }
    None
}

/// Whether the text may end within a reference.
#[tactic(auto, unfolding(crate::specs::DocFields::Texts::is_cut_reference))]
fn is_cut_reference(rest: &[u8]) -> bool
    ensures { result ≡ is_cut_reference rest.now }
{
    if begins(b"#x", rest) {
        return is_cut_number(16, &rest[2..]);
    }
    if begins(b"#", rest) {
        return is_cut_number(10, &rest[1..]);
    }
    begins(rest, b"amp;")
        || begins(rest, b"lt;")
        || begins(rest, b"gt;")
        || begins(rest, b"quot;")
        || begins(rest, b"apos;")
}

/// The character that one at a place stands for, with the bytes behind it, and how many
/// characters more that takes. `cut` says that the document ends behind these bytes.
pub(crate) fn unit(cut: bool, at: usize, c: char, rest: &[u8]) -> Result<(char, usize), FieldErr>
    requires { at + 1 + length rest.now < 2 ^ 64 }
    ensures { result ≡ unit_at cut at c rest.now }
{
    match c {
        '&' => match reference(rest) {
            Some(unit) => Ok(unit),
            None if cut && is_cut_reference(rest) => Err(syntax(at + 1 + rest.len())),
            None => Err(syntax(at)),
        },
        '\r' => Ok(('\n', line_feeds(rest))),
        _ => {
            if is_allowed(c as u32) {
                Ok((c, 0))
            } else {
                Err(syntax(at))
            }
        }
    }
}

/// How many characters behind a carriage return end the same line.
fn line_feeds(rest: &[u8]) -> usize
    ensures { result ≡ line_feeds rest.now }
{
    if begins(b"\n", rest) { 1 } else { 0 }
}

/// Whether a byte stands for itself, whatever stands beside it.
fn is_simple(byte: u8) -> bool
    ensures { result ≡ is_simple byte }
{
    byte == b'\t' || byte == b'\n' || b' ' <= byte && byte != b'&' && byte != 0xef
}

fn all_simple(text: &str) -> bool
    ensures { result ≡ list_all is_simple text.now }
{
    text.bytes().all(|byte| is_simple(byte))
}

/// What a text from a place on stands for.
fn resolve(alloc: Global, cut: bool, at: usize, text: &str) -> Result<Text, FieldErr>
    requires { at + length text.now < 2 ^ 64 }
    ensures { Gives (λ t. t) result (resolved_text cut at text.now) }
{
    if all_simple(text) {
        return Ok(Text::from_string(String::from_str(alloc, text)?));
    }
    resolve_each(alloc, cut, at, text)
}

/// The same, character by character.
fn resolve_each(alloc: Global, cut: bool, at: usize, text: &str) -> Result<Text, FieldErr>
    requires { at + length text.now < 2 ^ 64 }
    ensures { Gives (λ t. t) result (resolved_text cut at text.now) }
{
    let mut out = String::new(alloc);
    let mut left = Characters::of(cut, at, text);
    while let Some(taken) = left.next() {
        match taken {
            Ok(c) => out.push(c)?,
            Err(fault) => return Err(fault),
        }
    }
    Ok(Text::from_string(out))
}

/// Where the text of an element ends that begins at a place.
#[tactic(auto, using(crate::proofs::DocFields::Runs::run_more, crate::proofs::DocFields::Runs::run_stops, crate::proofs::DocFields::Runs::run_ends), unfolding(crate::specs::DocFields::Texts::text_end))]
fn text_end(text: &[u8], at: usize) -> usize
    requires { at ≤ length text.now }
    ensures value { result ≡ text_end text.now at }
    ensures within { result ≤ length text.now }
    ensures after { at ≤ result }
{
    for i in at..text.len() {
        if text[i] == b'<' {
            return i;
        }
    }
    text.len()
}

/// What a run of bytes from a place on stands for.
#[tactic(auto, unfolding(crate::specs::DocFields::Texts::run_text))]
fn run_text(alloc: Global, ended: bool, at: usize, run: &[u8]) -> Result<Text, FieldErr>
    requires { at + length run.now < 2 ^ 64 }
    ensures { Gives (λ t. t) result (run_text ended at run.now) }
{
    let fault = match str::from_utf8(run) {
        Ok(whole) => return resolve(alloc, ended, at, whole),
        Err(fault) => fault.valid_up_to(),
    };
    let Ok(front) = str::from_utf8(&run[..fault]) else {
        unreachable!()
    };
    // A reference before the fault is refused first.
    let _read = resolve(alloc, false, at, front)?;
    Err(syntax(at + fault))
}

/// Reads the text of an element from `at` up to the next `<` or the text's end, and gives the
/// place where that stands. References are resolved, and each end of a line is a line feed
/// (XML 1.0, 2.11 and 4.6).
///
/// # Errors
///
/// `Syntax` at the first character that may not stand there, at the `&` of what is no
/// reference, at the first byte that isn't UTF-8, and at the text's length where it ends
/// within a reference.
#[tactic(auto, unfolding(crate::specs::DocFields::Texts::text_at))]
pub fn read_text(alloc: Global, text: &[u8], at: usize) -> Result<(Text, usize), FieldErr>
    requires { at ≤ length text.now }
    ensures value { Gives (λ x. x) result (text_at text.now at) }
    ensures within { IfOk result (λ x. (at ≤ x.1) × (x.1 ≤ length text.now)) }
{
    let end = text_end(text, at);
    let value = run_text(alloc, end == text.len(), at, &text[at..end])?;
    Ok((value, end))
}

/// Whether each of these characters may stand there.
fn look_over(left: Characters) -> Result<(), FieldErr>
    ensures ok { IfOk result (λ _. (cs : List ℕ) × (characters left.entry ≡ Ok cs)) }
    ensures err { IfErr result (λ e. characters left.entry ≡ Err e) }
{
    let mut left = left;
    while let Some(taken) = left.next() {
        if let Err(fault) = taken {
            return Err(fault);
        }
    }
    Ok(())
}

/// The characters of a text from a place on, each of which may stand there.
#[tactic(auto, using(crate::proofs::DocFields::TextSteps::looked_over, crate::proofs::DocFields::TextSteps::looked_to), unfolding(crate::specs::DocFields::Texts::resolved_text))]
fn characters_of<'a>(cut: bool, at: usize, text: &'a str) -> Result<Characters<'a>, FieldErr>
    requires { at + length text.now < 2 ^ 64 }
    ensures ok { IfOk result (λ x. (cs : List ℕ) × (characters x ≡ Ok cs)
        × (resolved_text cut at text.now ≡ Ok (encode_utf8_all cs))) }
    ensures err { IfErr result (λ e. resolved_text cut at text.now ≡ Err e) }
{
    match look_over(Characters::of(cut, at, text)) {
        Ok(()) => Ok(Characters::of(cut, at, text)),
        Err(fault) => Err(fault),
    }
}

/// The characters of a run of bytes from a place on.
#[tactic(auto, unfolding(crate::specs::DocFields::Texts::run_text))]
fn run_characters<'a>(ended: bool, at: usize, run: &'a [u8]) -> Result<Characters<'a>, FieldErr>
    requires { at + length run.now < 2 ^ 64 }
    ensures ok { IfOk result (λ x. (cs : List ℕ) × (characters x ≡ Ok cs)
        × (run_text ended at run.now ≡ Ok (encode_utf8_all cs))) }
    ensures err { IfErr result (λ e. run_text ended at run.now ≡ Err e) }
{
    let valid = match str::from_utf8(run) {
        Ok(whole) => return characters_of(ended, at, whole),
        Err(fault) => fault.valid_up_to(),
    };
    let Ok(front) = str::from_utf8(&run[..valid]) else {
        unreachable!()
    };
    match characters_of(false, at, front) {
        Ok(_) => Err(syntax(at + valid)),
        Err(fault) => Err(fault),
    }
}

/// Looks over the text of an element as [`read_text`] reads it, and gives its characters and the place where it ends.
/// Takes no memory.
///
/// # Errors
///
/// Those of [`read_text`] but for want of memory.
#[tactic(auto, using(crate::proofs::DocFields::TextSteps::text_read, crate::proofs::DocFields::TextSteps::text_refused, crate::proofs::DocFields::Allowed::characters_are_bytes))]
pub fn read_characters<'a>(text: &'a [u8], at: usize) -> Result<(Characters<'a>, usize), FieldErr>
    requires { at ≤ length text.now }
    ensures ok { IfOk result (λ x. (cs : List ℕ) × (characters x.0 ≡ Ok cs)
        × (text_at text.now at ≡ Ok (encode_utf8_all cs, x.1))) }
    ensures err { IfErr result (λ e. text_at text.now at ≡ Err e) }
    ensures within { IfOk result (λ x. (at ≤ x.1) × (x.1 ≤ length text.now)) }
{
    let end = text_end(text, at);
    match run_characters(end == text.len(), at, &text[at..end]) {
        Ok(characters) => Ok((characters, end)),
        Err(fault) => Err(fault),
    }
}
