use std::alloc::Global;
use std::marker::Model;
use tape_types::node_keys::Keys;
use tape_types::{Bytes, NoMemory, Text};

/// So many keys a node may be given; a volume from elsewhere may have more.
pub const MOST_KEYS: usize = 256;

/// The extended attributes of a node: under each key one value.
#[derive(Drop)]
pub struct NodeKeys {
    keys: Keys,
}

impl Model for NodeKeys {
    ghost use Rattle.std.specs.Coded.{coded_list, coded_ℕ};
    ghost use Rattle.std.specs.FinMap as fin;
    ghost use Rattle.tape_types.specs.NodeKeys.Keys.{KeyMap};

    ghost Value = { KeyMap };

    ghost coded = { fin.code (coded_list coded_ℕ) (coded_list coded_ℕ) };

    ghost view = { λ a. a.keys.map };
}

impl NodeKeys {
    ghost use Rattle.std.specs.Prelude.{◌≡◌, OnOk, OnErr};
    ghost use Rattle.std.specs.FinMap as fin;
    ghost use Rattle.std.specs.Option.{option_map};

    /// No attributes.
    pub fn new(alloc: Global) -> NodeKeys
        ensures { result ≡ fin.empty }
    {
        NodeKeys {
            keys: Keys::new(alloc),
        }
    }

    /// How many there are.
    pub fn len(&self) -> usize
        ensures { result ≡ fin.len self.now }
    {
        self.keys.len()
    }

    /// The bytes of a key.
    pub fn get(&self, key: &str) -> Option<&Bytes>
        ensures { option_map (λ value. value.now) result ≡ fin.get self.now key.now }
    {
        self.keys.get(key)
    }

    /// Gives a key its bytes, in place of those that it had, or changes nothing.
    pub fn set(&mut self, alloc: Global, key: &Text, bytes: &Bytes) -> Result<(), NoMemory>
        ensures ok { OnOk result (self.new ≡ fin.insert self.old key.now bytes.now) }
        ensures err { OnErr result (self.new ≡ self.old) }
    {
        let key = key.try_clone(alloc)?;
        let bytes = bytes.try_clone(alloc)?;
        self.keys.reserve(1)?;
        self.keys.set(key, bytes);
        Ok(())
    }

    /// Takes out a key, where it stands. Takes no memory.
    pub fn drop_key(&mut self, key: &str)
        ensures { self.new ≡ fin.remove self.old key.now }
    {
        self.keys.drop_key(key);
    }
}
