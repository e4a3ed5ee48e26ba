//! The other forms of a leaf's value. Each is read from the place of its first byte.

ghost use Rattle.std.specs.Prelude.{◌≡◌, ◌≤◌, ◌<◌, ◌+◌, length, IfOk, IfSome, option_map};
ghost use Rattle.ltfs_documents.specs.DocFields.Values.{IsTimeRead, bool_at, fits, fits_place, is_cut_shape};
ghost use Rattle.ltfs_documents.specs.DocFields.Values.{is_hex_digit, letter_at};
ghost use Rattle.ltfs_documents.specs.DocFields.Values.{lock_at, shown, time_at, uuid_at, value_fault};
ghost use Rattle.tape_types.specs.Times.{civil_in, civil_of};
ghost use Rattle.tape_types.specs.Uuids.{uuid_in};

use crate::doc_fields::bytes::{begins, byte, syntax};
use crate::doc_fields::errors::FieldErr;
use crate::doc_fields::numbers::is_digit;
use tape_types::{Moment, parse_time, parse_uuid};

/// Whether a volume may be changed (LTFS 2.4 on volume locking).
#[derive(Clone, Copy, Debug, PartialEq, Eq)]
pub enum LockState {
    Unlocked,
    Locked,
    /// Locked for good.
    PermLocked,
}

/// The refusal of a value that doesn't stand at a place; `cut` says that the text ends within
/// it.
fn value_fault(cut: bool, text: &[u8], at: usize) -> FieldErr
    ensures { result ≡ value_fault cut text.now at }
{
    if cut { syntax(text.len()) } else { syntax(at) }
}

/// Reads `true`, `false`, `1` or `0`, and gives the place behind it. The refusal is `Syntax` at
/// `at`, or at the text's length where it ends within such a word.
#[tactic(auto, unfolding(crate::specs::DocFields::Values::bool_at))]
pub fn read_bool(text: &[u8], at: usize) -> Result<(bool, usize), FieldErr>
    requires { at ≤ length text.now }
    ensures value { result ≡ bool_at text.now at }
    ensures within { IfOk result (λ x. (at < x.1) × (x.1 ≤ length text.now)) }
{
    let rest = &text[at..];
    if begins(b"true", rest) {
        return Ok((true, at + 4));
    }
    if begins(b"false", rest) {
        return Ok((false, at + 5));
    }
    if begins(b"1", rest) {
        return Ok((true, at + 1));
    }
    if begins(b"0", rest) {
        return Ok((false, at + 1));
    }
    let cut = begins(rest, b"true")
        || begins(rest, b"false")
        || begins(rest, b"1")
        || begins(rest, b"0");
    Err(value_fault(cut, text, at))
}

/// Reads `unlocked`, `locked` or `permlocked`, and gives the place behind it. The refusal is
/// `Syntax` at `at`, or at the text's length where it ends within such a word.
#[tactic(auto, unfolding(crate::specs::DocFields::Values::lock_at))]
pub fn read_lock(text: &[u8], at: usize) -> Result<(LockState, usize), FieldErr>
    requires { at ≤ length text.now }
    ensures value { result ≡ lock_at text.now at }
    ensures within { IfOk result (λ x. (at < x.1) × (x.1 ≤ length text.now)) }
{
    let rest = &text[at..];
    if begins(b"unlocked", rest) {
        return Ok((LockState::Unlocked, at + 8));
    }
    if begins(b"locked", rest) {
        return Ok((LockState::Locked, at + 6));
    }
    if begins(b"permlocked", rest) {
        return Ok((LockState::PermLocked, at + 10));
    }
    let cut = begins(rest, b"unlocked") || begins(rest, b"locked") || begins(rest, b"permlocked");
    Err(value_fault(cut, text, at))
}

/// Reads a partition's letter, `a` to `z`, and gives the place behind it. The refusal is
/// `Syntax` at `at`.
#[tactic(auto, unfolding(crate::specs::DocFields::Values::letter_at))]
pub fn read_letter(text: &[u8], at: usize) -> Result<(u8, usize), FieldErr>
    requires { at ≤ length text.now }
    ensures value { result ≡ letter_at text.now at }
    ensures within { IfOk result (λ x. (at < x.1) × (x.1 ≤ length text.now)) }
{
    let letter = byte(text, at);
    if b'a' <= letter && letter <= b'z' {
        return Ok((letter, at + 1));
    }
    Err(syntax(at))
}

pub fn is_hex_digit(byte: u8) -> bool
    ensures { result ≡ is_hex_digit byte }
{
    is_digit(byte) || b'a' <= byte && byte <= b'f' || b'A' <= byte && byte <= b'F'
}

/// Whether a byte fits a place of a shape.
fn fits_place(place: u8, byte: u8) -> bool
    ensures { result ≡ fits_place place byte }
{
    match place {
        b'0' => is_digit(byte),
        b'h' => is_hex_digit(byte),
        _ => byte == place,
    }
}

/// Whether the text ends within a value of a shape, whose first bytes these are. In a shape
/// `0` is a place for a decimal digit and `h` one for a hexadecimal digit.
#[tactic(auto, using(crate::proofs::DocFields::Shapes::fits_more, crate::proofs::DocFields::Shapes::fits_stops, crate::proofs::DocFields::Shapes::fits_ends))]
fn is_cut_shape(shape: &[u8], rest: &[u8]) -> bool
    ensures { result ≡ is_cut_shape shape.now rest.now }
{
    if shape.len() <= rest.len() {
        return false;
    }
    for i in 0..rest.len() {
        if !fits_place(shape[i], rest[i]) {
            return false;
        }
    }
    true
}

/// The moment whose text stands at a place.
fn shown_time(text: &[u8], at: usize) -> Option<Moment>
    requires { at ≤ length text.now }
    ensures value { shown 30 civil_in text.now at ≡ option_map civil_of result }
    ensures within { IfSome result (λ _. at + 30 ≤ length text.now) }
{
    if text.len() - at < 30 {
        return None;
    }
    parse_time(&text[at..at + 30])
}

/// The UUID whose text stands at a place.
fn shown_uuid(text: &[u8], at: usize) -> Option<u128>
    requires { at ≤ length text.now }
    ensures value { result ≡ shown 36 uuid_in text.now at }
    ensures within { IfSome result (λ _. at + 36 ≤ length text.now) }
{
    if text.len() - at < 36 {
        return None;
    }
    parse_uuid(&text[at..at + 36])
}

/// Reads the 30 bytes of a moment's text, and gives the place behind them. The refusal is
/// `Syntax` at `at`, or at the text's length where it ends within the shape of such a text.
#[tactic(auto, unfolding(crate::specs::DocFields::Values::time_at))]
pub fn read_time(text: &[u8], at: usize) -> Result<(Moment, usize), FieldErr>
    requires { at ≤ length text.now }
    ensures value { IsTimeRead result (time_at text.now at) }
    ensures within { IfOk result (λ x. (at < x.1) × (x.1 ≤ length text.now)) }
{
    match shown_time(text, at) {
        Some(moment) => Ok((moment, at + 30)),
        None => {
            let cut = is_cut_shape(b"0000-00-00T00:00:00.000000000Z", &text[at..]);
            Err(value_fault(cut, text, at))
        }
    }
}

/// Reads the 36 characters of a UUID with hyphens, in either case, and gives the place behind
/// them. The refusal is `Syntax` at `at`, or at the text's length where it ends within the
/// shape of such a text.
#[tactic(auto, unfolding(crate::specs::DocFields::Values::uuid_at))]
pub fn read_uuid(text: &[u8], at: usize) -> Result<(u128, usize), FieldErr>
    requires { at ≤ length text.now }
    ensures value { result ≡ uuid_at text.now at }
    ensures within { IfOk result (λ x. (at < x.1) × (x.1 ≤ length text.now)) }
{
    match shown_uuid(text, at) {
        Some(uuid) => Ok((uuid, at + 36)),
        None => {
            let cut = is_cut_shape(b"hhhhhhhh-hhhh-hhhh-hhhh-hhhhhhhhhhhh", &text[at..]);
            Err(value_fault(cut, text, at))
        }
    }
}
