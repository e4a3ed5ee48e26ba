ghost use Rattle.std.specs.Prelude.{◌≡◌, length, IfOk, if◌then◌else◌};
ghost use Rattle.std.specs.Option.{option_map};
ghost use Rattle.std.specs.Char.{digit_value, is_digit};
ghost use Rattle.session_script.specs.Words.{bytes_of, hex_bytes, text_bytes, fill_bytes, hex_value};
ghost use Rattle.session_script.specs.Readings.{bytes_given, IsReadBytes};

use crate::faults::LineFault;
use crate::scripts::ScriptWhy;
use crate::words::read_number;
use std::alloc::Global;
use tape_types::{Bytes, NoMemory};

/// Bytes that are to be written, before a row of one value is made.
#[derive(Drop)]
pub enum Content {
    Given(Bytes),
    Fill { value: u8, count: u64 },
}

impl Content {
    /// How many bytes there are.
    pub fn len(&self) -> u64
        ensures { result ≡ length (bytes_given self.now) }
    {
        match self {
            Content::Given(bytes) => bytes.len() as u64,
            Content::Fill { count, .. } => *count,
        }
    }

    /// The bytes in memory.
    pub fn into_bytes(self, alloc: Global) -> Result<Bytes, NoMemory>
        ensures { IfOk result (λ bytes. bytes ≡ bytes_given self) }
    {
        match self {
            Content::Given(bytes) => Ok(bytes),
            Content::Fill { value, count } => {
                Ok(Bytes::from_vec(vec![in alloc; value; count as usize]?))
            }
        }
    }
}

/// The bytes that a word spells.
pub fn read_bytes(alloc: Global, word: &[u8]) -> Result<Content, LineFault>
    ensures { IsReadBytes result (bytes_of word.now) }
{
    if let Some(digits) = word.strip_prefix(b"hex:") {
        read_hex(alloc, digits)
    } else if let Some(text) = word.strip_prefix(b"text:") {
        read_text(alloc, text)
    } else if let Some(fill) = word.strip_prefix(b"fill:") {
        read_fill(fill)
    } else {
        Err(LineFault::Bad(ScriptWhy::Bytes))
    }
}

fn read_hex(alloc: Global, digits: &[u8]) -> Result<Content, LineFault>
    ensures { IsReadBytes result (hex_bytes digits.now) }
{
    match hex_bytes(alloc, digits)? {
        Some(bytes) => Ok(Content::Given(Bytes::from_vec(bytes))),
        None => Err(LineFault::Bad(ScriptWhy::Bytes)),
    }
}

/// The bytes that pairs of hexadecimal digits spell.
fn hex_bytes(alloc: Global, digits: &[u8]) -> Result<Option<Vec<u8>>, NoMemory>
    ensures { IfOk result (λ bytes. option_map (λ v. v.items) bytes ≡ hex_bytes digits.now) }
{
    if digits.len() % 2 != 0 {
        return Ok(None);
    }
    let mut bytes = vec![in alloc; 0u8; digits.len() / 2]?;
    for k in 0..digits.len() / 2 {
        let Some(byte) = byte_of(digits[2 * k], digits[2 * k + 1]) else {
            return Ok(None);
        };
        bytes[k] = byte;
    }
    Ok(Some(bytes))
}

/// The value of a hexadecimal digit of either case, or 16. A digit's low half is its value, and a letter's is nine
/// less; letters begin at 64. Random digits make a test of each range slow.
fn digit_of(byte: u8) -> u8
    ensures { result ≡ (if is_digit byte 16 then digit_value byte else 16) }
{
    if byte.is_ascii_hexdigit() {
        byte % 16 + 9 * (byte / 64)
    } else {
        16
    }
}

fn read_text(alloc: Global, text: &[u8]) -> Result<Content, LineFault>
    ensures { IsReadBytes result (text_bytes text.now) }
{
    if text.is_empty() {
        return Err(LineFault::Bad(ScriptWhy::Bytes));
    }
    Ok(Content::Given(copy_of(alloc, text)?))
}

fn copy_of(alloc: Global, text: &[u8]) -> Result<Bytes, NoMemory>
    ensures { IfOk result (λ bytes. bytes ≡ text.now) }
{
    Ok(Bytes::from_vec(Vec::from_slice(alloc, text)?))
}

fn read_fill(fill: &[u8]) -> Result<Content, LineFault>
    ensures { IsReadBytes result (fill_bytes fill.now) }
{
    let [high, low, b':', count @ ..] = fill else {
        return Err(LineFault::Bad(ScriptWhy::Bytes));
    };
    let (Some(value), Some(count)) = (byte_of(*high, *low), read_number(count)) else {
        return Err(LineFault::Bad(ScriptWhy::Bytes));
    };
    Ok(Content::Fill { value, count })
}

/// The byte that two hexadecimal digits spell.
fn byte_of(high: u8, low: u8) -> Option<u8>
    ensures { result ≡ hex_value high low }
{
    let high = digit_of(high);
    let low = digit_of(low);
    if high > 15 || low > 15 {
        return None;
    }
    Some(16 * high + low)
}
