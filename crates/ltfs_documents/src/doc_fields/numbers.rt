//! Numbers in decimal digits.

ghost use Rattle.std.specs.Prelude.{◌≡◌, ◌≤◌, ◌<◌, ◌+◌, ◌*◌, ◌^◌, length, IfOk, drop, slice_index, true};
ghost use Rattle.ltfs_documents.specs.DocFields.Numbers.{digits, is_digit, number_at, number_of};

use crate::doc_fields::bytes::syntax;
use crate::doc_fields::errors::{FieldErr, Why};

pub fn is_digit(byte: u8) -> bool
    ensures { result ≡ is_digit byte }
{
    b'0' <= byte && byte <= b'9'
}

/// The number whose digits end at `end`.
fn short_number(text: &[u8], at: usize, end: usize, number: u64) -> Result<(u64, usize), FieldErr>
    requires near { end ≤ at + 19 }
    requires after { at ≤ end }
    requires room { end ≤ length text.now }
    requires is { digits 0 at (drop at text.now) ≡ (number, end) }
    ensures value { result ≡ number_at text.now at }
    ensures within { IfOk result (λ x. (at < x.1) × (x.1 ≤ length text.now)) }
{
    if end == at {
        return Err(syntax(at));
    }
    Ok((number, end))
}

/// The number whose twentieth digit stands at `last`, behind others that show `number`.
fn long_number(text: &[u8], at: usize, last: usize, number: u64) -> Result<(u64, usize), FieldErr>
    requires place { last ≡ at + 19 }
    requires room { last < length text.now }
    requires digit { is_digit (slice_index text.now last) ≡ true }
    requires small { number < 10 ^ 19 }
    requires so_far { digits number last (drop last text.now) ≡ digits 0 at (drop at text.now) }
    ensures value { result ≡ number_at text.now at }
    ensures within { IfOk result (λ x. (at < x.1) × (x.1 ≤ length text.now)) }
{
    let wide = number as u128 * 10 + (text[last] - b'0') as u128;
    let refused = FieldErr {
        at,
        why: Why::Number,
    };
    if last + 1 < text.len() && is_digit(text[last + 1]) {
        return Err(refused);
    }
    if wide > u64::MAX as u128 {
        return Err(refused);
    }
    Ok((wide as u64, last + 1))
}

/// Reads the number of 1 to 20 decimal digits whose first digit must stand at `at`, and gives
/// the place behind it.
///
/// # Errors
///
/// `Syntax` at `at` where no digit stands there; `Number` at `at` for more than 20 digits and
/// for 2^64 and more.
pub fn read_u64(text: &[u8], at: usize) -> Result<(u64, usize), FieldErr>
    requires { at ≤ length text.now }
    ensures value { result ≡ number_at text.now at }
    ensures within { IfOk result (λ x. (at < x.1) × (x.1 ≤ length text.now)) }
{
    let mut number: u64 = 0;
    for i in at..text.len() {
        let byte = text[i];
        if !is_digit(byte) {
            return short_number(text, at, i, number);
        }
        if i - at >= 19 {
            return long_number(text, at, i, number);
        }
        number = number * 10 + (byte - b'0') as u64;
    }
    short_number(text, at, text.len(), number)
}
