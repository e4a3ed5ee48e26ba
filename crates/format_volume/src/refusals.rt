//! What a volume may not have.

ghost use Rattle.std.specs.Prelude.{◌≡◌, ◌<◌, ◌^◌, length};
ghost use Rattle.std.specs.List.{AllByRecursion, list_all};
ghost use Rattle.std.specs.Str.{IsUtf8, chars};
ghost use Rattle.ltfs_documents.specs.DocFields.Texts.{is_allowed};
ghost use Rattle.tape_types.specs.Names.{has_byte};
ghost use Rattle.format_volume.specs.Refusals.{HasTexts, IsSpec, is_capital};
ghost use Rattle.format_volume.specs.Refusals.{is_pattern, is_policy, is_volume_name, spec_fault};

use crate::requests::{Field, FormatSpec};
use index_model::{Policy, TextList};
use tape_types::{LONGEST_FILE, LONGEST_NAME};

/// The first field with a value that it may not have.
pub fn spec_fault(spec: &FormatSpec) -> Option<Field>
    ensures { result ≡ spec_fault spec.now }
{
    if !are_capitals(&spec.volume) {
        return Some(Field::Vol);
    }
    if !(4096..=1_048_576).contains(&spec.block) {
        return Some(Field::Block);
    }
    if !is_volume_name(spec.name.as_str()) {
        return Some(Field::Name);
    }
    if !is_policy(&spec.policy) {
        return Some(Field::Policy);
    }
    None
}

fn are_capitals(bytes: &[u8]) -> bool
    ensures { result ≡ list_all is_capital bytes.now }
{
    bytes.iter().all(|byte| is_capital(*byte))
}

fn is_capital(byte: u8) -> bool
    ensures { result ≡ is_capital byte }
{
    byte.is_ascii_uppercase() || byte.is_ascii_digit()
}

fn is_volume_name(name: &str) -> bool
    ensures { result ≡ is_volume_name name.now }
{
    char_count(name) <= LONGEST_NAME && !has_byte(name, b'/') && !has_byte(name, 0)
}

fn char_count(text: &str) -> usize
    ensures { result ≡ length (chars text.now) }
{
    text.chars().count()
}

fn has_byte(text: &str, byte: u8) -> bool
    ensures { result ≡ has_byte byte text.now }
{
    text.bytes().any(|b| b == byte)
}

fn is_policy(policy: &Option<Policy>) -> bool
    ensures { result ≡ is_policy policy.now }
{
    match policy {
        Some(policy) => {
            policy.size <= LONGEST_FILE && policy.names.len() <= 64 && are_patterns(&policy.names)
        }
        None => true,
    }
}

fn are_patterns(names: &TextList) -> bool
    ensures { result ≡ list_all is_pattern names.now }
{
    for at in 0..names.len() {
        if !is_pattern(names.get(at)) {
            return false;
        }
    }
    true
}

fn is_pattern(text: &str) -> bool
    ensures { result ≡ is_pattern text.now }
{
    !text.is_empty() && char_count(text) <= LONGEST_NAME && are_allowed(text)
}

/// Whether a document may have each character of a text.
fn are_allowed(text: &str) -> bool
    ensures { result ≡ list_all is_allowed (chars text.now) }
{
    text.chars().all(|c| is_allowed(u32::from(c)))
}

fn is_allowed(c: u32) -> bool
    ensures { result ≡ is_allowed c }
{
    matches!(c, 9 | 10 | 13 | 0x20..=0xD7FF | 0xE000..=0xFFFD | 0x1_0000..=0x10_FFFF)
}
