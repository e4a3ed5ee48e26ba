//! The attributes of a node, kept by their keys.

ghost use Rattle.std.specs.Prelude.{◌≡◌, IfOk, IfErr};
ghost use Rattle.std.specs.List.Sorted.{IsPermutation};
ghost use Rattle.tape_types.specs.NodeKeys.Keys.{IsAscending, AreKeysApart};
ghost use Rattle.tape_types.specs.NodeKeys.Places.{IsKeyAt, IsGapFor};

use crate::node_keys::xattrs::Xattr;
use crate::{Bytes, NoMemory, Text};
use std::alloc::Global;
use std::marker::Model;

/// The extended attributes of a node: under each key one value. There may be room for more of them.
#[derive(Drop)]
pub struct Keys {
    /// By the bytes of their keys.
    items: Vec<Xattr>,
}

impl Model for Keys {
    ghost use Rattle.std.specs.Prelude.{◌-◌, ℕ, List, refl, vec_len, vec_capacity};
    ghost use Rattle.std.specs.Coded.{coded_list, coded_ℕ, coded×, code_by};
    ghost use Rattle.std.specs.FinMap as fin;
    ghost use Rattle.tape_types.specs.NodeKeys.Keys.{KeyMap, KeyRoom, map_of, IsAscending};

    ghost Value = { KeyRoom };

    ghost coded = { code_by (KeyMap × ℕ) (coded× (fin.code (coded_list coded_ℕ) (coded_list coded_ℕ)) coded_ℕ)
        (λ k. (k.map, k.spare)) (λ p. record { map = p.0; spare = p.1 }) (λ _. refl) };

    ghost view = { λ a. record {
      map = map_of a.items.items;
      spare = vec_capacity a.items - vec_len a.items;
    } };

    ghost invariant = { λ a. IsAscending a.items.items };
}

impl Keys {
    ghost use Rattle.std.specs.Prelude.{◌≡◌, ◌+◌, ◌≤◌, Option, OnOk, OnErr, IfOk, IsOk};
    ghost use Rattle.std.specs.Option.{option_map};
    ghost use Rattle.std.specs.FinMap as fin;
    ghost use Rattle.tape_types.specs.NodeKeys.Keys.{entries_of, map_of, AreKeysApart};

    /// No attributes, and room for none. Takes no memory.
    pub fn new(alloc: Global) -> Keys
        ensures map { result.map ≡ fin.empty }
        ensures spare { result.spare ≡ 0 }
    {
        Keys {
            items: Vec::new(alloc),
        }
    }

    /// The attributes of a list in any order, in which no key stands twice.
    pub fn from_list(alloc: Global, xattrs: &[Xattr]) -> Result<Keys, NoMemory>
        requires { AreKeysApart xattrs.now }
        ensures { IfOk result (λ keys. keys.map ≡ map_of xattrs.now) }
    {
        let mut items = copies(alloc, xattrs)?;
        sort(&mut items);
        Ok(Keys { items })
    }

    pub fn try_clone(&self, alloc: Global) -> Result<Keys, NoMemory>
        ensures { IfOk result (λ copy. copy.map ≡ self.now.map) }
    {
        Ok(Keys {
            items: copies(alloc, self.items.as_slice())?,
        })
    }

    /// How many attributes there are.
    pub fn len(&self) -> usize
        ensures { result ≡ fin.len self.now.map }
    {
        self.items.len()
    }

    /// The attributes in ascending order of their keys.
    pub fn as_slice(&self) -> &[Xattr]
        ensures { entries_of result.now ≡ fin.entries self.now.map }
    {
        self.items.as_slice()
    }

    /// The value of a key.
    pub fn get(&self, key: &str) -> Option<&Bytes>
        ensures { option_map (λ value. value.now) result ≡ fin.get self.now.map key.now }
    {
        match place_of(&self.items, key) {
            Ok(at) => Some(&self.items[at].value),
            Err(_) => None,
        }
    }

    /// Makes room for so many more attributes, or changes nothing.
    pub fn reserve(&mut self, more: usize) -> Result<(), NoMemory>
        ensures map { self.new.map ≡ self.old.map }
        ensures room { OnOk result (more ≤ self.new.spare) }
        ensures kept { self.old.spare ≤ self.new.spare }
        ensures err { OnErr result (self.new ≡ self.old) }
        ensures succeeds { more ≤ self.old.spare → IsOk result }
    {
        Ok(self.items.reserve(more)?)
    }

    /// Gives a key its value, in place of the one that it had. Takes no memory.
    pub fn set(&mut self, key: Text, value: Bytes)
        requires { 1 ≤ self.old.spare }
        ensures map { self.new.map ≡ fin.insert self.old.map key value }
        ensures room { self.new.spare + fin.len self.new.map ≡ self.old.spare + fin.len self.old.map }
    {
        match place_of(&self.items, key.as_str()) {
            Ok(at) => self.items[at].value = value,
            Err(at) => {
                if self.items.insert(at, Xattr { key, value }).is_err() {
                    unreachable!();
                }
            }
        }
    }

    /// Takes out a key with its value, where it stands. Takes no memory.
    pub fn drop_key(&mut self, key: &str)
        ensures map { self.new.map ≡ fin.remove self.old.map key.now }
        ensures room { self.new.spare + fin.len self.new.map ≡ self.old.spare + fin.len self.old.map }
    {
        if let Ok(at) = place_of(&self.items, key) {
            let _gone = self.items.remove(at);
        }
    }
}

/// Where a key stands, or where it would stand.
fn place_of(xattrs: &[Xattr], key: &str) -> Result<usize, usize>
    requires { IsAscending xattrs.now }
    ensures there { IfOk result (IsKeyAt xattrs.now key.now) }
    ensures absent { IfErr result (IsGapFor xattrs.now key.now) }
{
    xattrs.binary_search_by(|xattr| xattr.key.as_str().cmp(key))
}

fn copies(alloc: Global, xattrs: &[Xattr]) -> Result<Vec<Xattr>, NoMemory>
    ensures { IfOk result (λ copies. copies.items ≡ xattrs.now) }
{
    let mut copies = Vec::with_capacity(alloc, xattrs.len())?;
    for xattr in xattrs {
        copies.push(xattr.try_clone(alloc)?)?;
    }
    Ok(copies)
}

fn sort(xattrs: &mut Vec<Xattr>)
    requires { AreKeysApart xattrs.old.items }
    ensures moved { IsPermutation xattrs.old.items xattrs.new.items }
    ensures ascend { IsAscending xattrs.new.items }
{
    xattrs.sort_unstable_by(|one, other| one.key.cmp(&other.key));
}
