ghost use Rattle.std.specs.List.{list_all};
ghost use Rattle.std.specs.Prelude.{◌≡◌, length, IfOk, IsTrue, None};
ghost use Rattle.std.specs.Str.{chars};
ghost use Rattle.unicode_normalization.specs.Forms.{is_nfc};
ghost use Rattle.tape_types.specs.Names.{IsNameAnswer, has_byte, is_dot, is_plain, name_fault};

use crate::bounds::LONGEST_NAME;
use std::alloc::{AllocError, Global};

/// Why a text is no name of a node.
#[derive(Clone, Copy, Debug, PartialEq, Eq)]
pub enum NameErr {
    /// It has no character.
    Empty,
    /// It has more than 255 characters.
    Long,
    /// It has a `/`.
    Slash,
    /// It has a NUL.
    Nul,
    /// It is `.` or `..`.
    Dot,
    /// It isn't in Unicode's normal form C.
    NotNfc,
    /// Memory was refused while the form was tested.
    NoMemory,
}

/// Tests whether a node may have this name: the first fault, in the order of the variants.
pub fn check_name(alloc: Global, name: &str) -> Result<(), NameErr>
    ensures { IsNameAnswer name.now result }
{
    if is_common(name) {
        return Ok(());
    }
    if name.is_empty() {
        return Err(NameErr::Empty);
    }
    if char_count(name) > LONGEST_NAME {
        return Err(NameErr::Long);
    }
    if contains_byte(name, b'/') {
        return Err(NameErr::Slash);
    }
    if contains_byte(name, 0) {
        return Err(NameErr::Nul);
    }
    if is_dot_name(name) {
        return Err(NameErr::Dot);
    }
    match is_normal(alloc, name) {
        Ok(true) => Ok(()),
        Ok(false) => Err(NameErr::NotNfc),
        Err(AllocError) => Err(NameErr::NoMemory),
    }
}

/// Whether a name is of at most 255 plain characters, the first of them no dot. Most names are, and have no fault.
#[tactic(auto, using(crate::proofs::NameLemmas::common))]
fn is_common(name: &str) -> bool
    ensures { IsTrue result → name_fault name.now ≡ None }
{
    let Some(first) = name.as_bytes().first() else {
        return false;
    };
    *first != b'.' && name.len() <= LONGEST_NAME && are_plain(name)
}

fn are_plain(name: &str) -> bool
    ensures { result ≡ list_all is_plain name.now }
{
    name.bytes().all(|b| b < 128 && b != b'/' && b != 0)
}

fn char_count(name: &str) -> usize
    ensures { result ≡ length (chars name.now) }
{
    name.chars().count()
}

fn contains_byte(name: &str, byte: u8) -> bool
    ensures { result ≡ has_byte byte name.now }
{
    name.bytes().any(|b| b == byte)
}

fn is_dot_name(name: &str) -> bool
    ensures { result ≡ is_dot name.now }
{
    name == "." || name == ".."
}

/// Whether the name is in normal form C. A name of ASCII bytes always is.
fn is_normal(alloc: Global, name: &str) -> Result<bool, AllocError>
    ensures { IfOk result (λ yes. yes ≡ is_nfc (chars name.now)) }
{
    unicode_normalization::is_nfc(alloc, name)
}
