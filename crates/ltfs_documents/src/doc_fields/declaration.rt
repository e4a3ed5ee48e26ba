//! The declaration with which a document may begin.

ghost use Rattle.std.specs.Prelude.{◌≡◌, ◌≤◌, ◌<◌, ◌+◌, length, true, IfOk};
ghost use Rattle.ltfs_documents.specs.DocFields.Declaration.{close_at, encoding_at, follows, head_at, is_told, label};
ghost use Rattle.ltfs_documents.specs.DocFields.Declaration.{parts_at};
ghost use Rattle.ltfs_documents.specs.DocFields.Declaration.{standalone_at, told_at};
ghost use Rattle.ltfs_documents.specs.DocFields.Reading.{has_no_zero};

use crate::doc_fields::bytes::{begins, byte, literal, one, skip_space, syntax};
use crate::doc_fields::errors::FieldErr;
use crate::doc_fields::starts::{in_name, quoted};

/// A part of a declaration.
#[derive(Clone, Copy)]
enum Told {
    Version,
    Encoding,
    Standalone,
}

fn label_of(part: Told) -> &'static [u8]
    ensures name { result.now ≡ label part }
    ensures no_zero { has_no_zero (label part) ≡ true }
{
    match part {
        Told::Version => b"version=",
        Told::Encoding => b"encoding=",
        Told::Standalone => b"standalone=",
    }
}

/// Whether a part may have this value.
fn is_told(part: Told, value: &[u8]) -> bool
    ensures { result ≡ is_told part value.now }
{
    match part {
        Told::Version => value == b"1.0".as_slice(),
        Told::Encoding => value.eq_ignore_ascii_case(b"utf-8"),
        Told::Standalone => value == b"yes".as_slice() || value == b"no".as_slice(),
    }
}

/// A part with its value in quotes.
#[tactic(auto, unfolding(crate::specs::DocFields::Declaration::told_at))]
fn read_told(part: Told, text: &[u8], at: usize) -> Result<usize, FieldErr>
    requires { at ≤ length text.now }
    ensures value { result ≡ told_at part text.now at }
    ensures within { IfOk result (λ next. (at < next) × (next ≤ length text.now)) }
{
    let quote = literal(label_of(part), text, at)?;
    let end = quoted(text, quote)?;
    if is_told(part, &text[quote + 1..end]) {
        Ok(end + 1)
    } else {
        Err(syntax(quote + 1))
    }
}

/// White space or none, and the end.
fn close(text: &[u8], at: usize) -> Result<usize, FieldErr>
    requires { at ≤ length text.now }
    ensures value { result ≡ close_at text.now at }
    ensures within { IfOk result (λ next. (at < next) × (next ≤ length text.now)) }
{
    let mark = one(b'?', text, skip_space(text, at))?;
    one(b'>', text, mark)
}

/// Whether a part follows behind white space, by its first letter.
fn follows(letter: u8, text: &[u8], at: usize) -> bool
    requires { at ≤ length text.now }
    ensures { result ≡ follows letter text.now at }
{
    let start = skip_space(text, at);
    at < start && byte(text, start) == letter
}

#[tactic(auto, unfolding(crate::specs::DocFields::Declaration::standalone_at))]
fn standalone(text: &[u8], at: usize) -> Result<usize, FieldErr>
    requires { at ≤ length text.now }
    ensures value { result ≡ standalone_at text.now at }
    ensures within { IfOk result (λ next. (at < next) × (next ≤ length text.now)) }
{
    if follows(b's', text, at) {
        let next = read_told(Told::Standalone, text, skip_space(text, at))?;
        return close(text, next);
    }
    close(text, at)
}

#[tactic(auto, unfolding(crate::specs::DocFields::Declaration::encoding_at))]
fn encoding(text: &[u8], at: usize) -> Result<usize, FieldErr>
    requires { at ≤ length text.now }
    ensures value { result ≡ encoding_at text.now at }
    ensures within { IfOk result (λ next. (at < next) × (next ≤ length text.now)) }
{
    if follows(b'e', text, at) {
        let next = read_told(Told::Encoding, text, skip_space(text, at))?;
        return standalone(text, next);
    }
    standalone(text, at)
}

/// What stands behind `<?xml`.
#[tactic(auto, unfolding(crate::specs::DocFields::Declaration::parts_at))]
fn parts(text: &[u8], at: usize) -> Result<usize, FieldErr>
    requires { at ≤ length text.now }
    ensures value { result ≡ parts_at text.now at }
    ensures within { IfOk result (λ next. (at < next) × (next ≤ length text.now)) }
{
    let start = skip_space(text, at);
    if start == at {
        return Err(syntax(at));
    }
    let next = read_told(Told::Version, text, start)?;
    encoding(text, next)
}

/// Reads the declaration that stands at `at`, with version 1.0, the encoding UTF-8 and
/// `standalone` where they are told, and gives the place behind it; that place itself where
/// no declaration stands there. The refusal is `Syntax` at the first byte that doesn't fit,
/// or at a value that may not stand there.
#[tactic(auto, unfolding(crate::specs::DocFields::Declaration::head_at))]
pub fn read_head(text: &[u8], at: usize) -> Result<usize, FieldErr>
    requires { at ≤ length text.now }
    ensures value { result ≡ head_at text.now at }
    ensures within { IfOk result (λ next. (at ≤ next) × (next ≤ length text.now)) }
{
    let rest = &text[at..];
    if begins(b"<?xml", rest) {
        if in_name(byte(text, at + 5)) {
            return Ok(at);
        }
        return parts(text, at + 5);
    }
    if 1 < rest.len() && begins(rest, b"<?xml") {
        return Err(syntax(text.len()));
    }
    Ok(at)
}
