//! Bytes of a text, one after the other.

ghost use Rattle.std.specs.Prelude.{◌≡◌, ◌≤◌, ◌<◌, ◌+◌, ℕ, length, true, IfOk};
ghost use Rattle.ltfs_documents.specs.declared.doc_fields.errors.Why.TheVariants.{Syntax};
ghost use Rattle.ltfs_documents.specs.DocFields.Reading.{begins, byte, has_no_zero, literal_at, one_at};
ghost use Rattle.ltfs_documents.specs.DocFields.Space.{is_space, space_end};

use crate::doc_fields::errors::{FieldErr, Why};

/// The byte at a place, or 0 behind the end.
pub fn byte(text: &[u8], at: usize) -> u8
    ensures { result ≡ byte text.now at }
{
    if at < text.len() { text[at] } else { 0 }
}

pub fn syntax(at: usize) -> FieldErr
    ensures { result ≡ record { at = at; why = Syntax } }
{
    FieldErr {
        at,
        why: Why::Syntax,
    }
}

/// A byte that must stand there.
pub fn one(expected: u8, text: &[u8], at: usize) -> Result<usize, FieldErr>
    requires { 0 < expected }
    ensures value { result ≡ one_at expected text.now at }
    ensures within { IfOk result (λ next. (at < next) × (next ≤ length text.now)) }
{
    if byte(text, at) != expected {
        return Err(syntax(at));
    }
    Ok(at + 1)
}

/// Bytes that must stand there.
#[tactic(auto, using(crate::proofs::DocFields::Runs::no_zero, crate::proofs::DocFields::Runs::literal_more, crate::proofs::DocFields::Runs::literal_stops, crate::proofs::DocFields::Runs::literal_done))]
pub fn literal(word: &[u8], text: &[u8], at: usize) -> Result<usize, FieldErr>
    requires at { at ≤ length text.now }
    requires no_zero { has_no_zero word.now ≡ true }
    ensures value { result ≡ literal_at word.now text.now at }
    ensures within { IfOk result (λ next. (next ≡ at + length word.now) × (next ≤ length text.now)) }
{
    for k in 0..word.len() {
        if byte(text, at + k) != word[k] {
            return Err(syntax(at + k));
        }
    }
    Ok(at + word.len())
}

/// Whether bytes begin with a word.
pub fn begins(word: &[u8], bytes: &[u8]) -> bool
    ensures { result ≡ begins word.now bytes.now }
{
    bytes.starts_with(word)
}

/// Space, tab, line feed and carriage return are white space.
pub fn is_space(byte: u8) -> bool
    ensures { result ≡ is_space byte }
{
    byte == b' ' || byte == b'\t' || byte == b'\n' || byte == b'\r'
}

/// Where the white space ends that begins at a place: the place itself where none does.
#[tactic(auto, using(crate::proofs::DocFields::Runs::run_more, crate::proofs::DocFields::Runs::run_stops, crate::proofs::DocFields::Runs::run_ends), unfolding(crate::specs::DocFields::Space::space_end))]
pub fn skip_space(text: &[u8], at: usize) -> usize
    requires { at ≤ length text.now }
    ensures value { result ≡ space_end text.now at }
    ensures within { result ≤ length text.now }
    ensures after { at ≤ result }
{
    for i in at..text.len() {
        if !is_space(text[i]) {
            return i;
        }
    }
    text.len()
}
