//! One extended attribute (LTFS 2.4 on extended attributes).

ghost use Rattle.std.specs.Prelude.{◌≡◌, length, IfOk};
ghost use Rattle.std.specs.Str.{chars};
ghost use Rattle.tape_types.specs.Names.{has_byte};
ghost use Rattle.tape_types.specs.NodeKeys.Keys.{is_key};

use crate::{Bytes, LONGEST_NAME, NoMemory, Text};
use std::alloc::Global;

/// An extended attribute of a node.
#[derive(Drop)]
pub struct Xattr {
    pub key: Text,
    pub value: Bytes,
}

impl Xattr {
    pub fn try_clone(&self, alloc: Global) -> Result<Xattr, NoMemory>
        ensures { IfOk result (λ copy. copy ≡ self.now) }
    {
        Ok(Xattr {
            key: self.key.try_clone(alloc)?,
            value: self.value.try_clone(alloc)?,
        })
    }
}

#[tactic(auto, using(std::proofs::lemmas::Str::chars_from_encodes))]
fn char_count(key: &str) -> usize
    ensures { result ≡ length (chars key.now) }
{
    key.chars().count()
}

fn contains_byte(key: &str, byte: u8) -> bool
    ensures { result ≡ has_byte byte key.now }
{
    key.bytes().any(|b| b == byte)
}

/// Whether a text may be a key: 1 to 255 characters, none of them NUL.
pub fn is_key(key: &str) -> bool
    ensures { result ≡ is_key key.now }
{
    !key.is_empty() && char_count(key) <= LONGEST_NAME && !contains_byte(key, 0)
}
