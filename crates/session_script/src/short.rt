use itoa::Buffer;
use std::marker::Model;

/// A few bytes, which take no memory. Contracts see them as the list of these.
#[derive(Drop)]
pub struct Short {
    bytes: [u8; 256],
    len: usize,
}

impl Model for Short {
    ghost use Rattle.std.specs.Prelude.{ℕ, ◌≤◌, List, take};

    ghost Value = { List ℕ };

    ghost view = { λ s. take s.len s.bytes };

    ghost invariant = { λ s. s.len ≤ 256 };
}

impl Short {
    ghost use Rattle.std.specs.Prelude.{◌≡◌, ◌+◌, ◌*◌, ◌≤◌, ◌<◌, [], ◌∷◌, ◌++◌, length, decimal};
    ghost use Rattle.std.specs.List.{flat_map};
    ghost use Rattle.session_script.specs.LogText.{hex_byte};

    pub fn new() -> Short
        ensures { result ≡ [] }
    {
        Short {
            bytes: [0; 256],
            len: 0,
        }
    }

    pub fn len(&self) -> usize
        ensures value { result ≡ length self.now }
        ensures most { result ≤ 256 }
    {
        self.len
    }

    pub fn as_slice(&self) -> &[u8]
        ensures { result.now ≡ self.now }
    {
        &self.bytes[..self.len]
    }

    pub fn clear(&mut self)
        ensures { self.new ≡ [] }
    {
        self.len = 0;
    }

    pub fn push(&mut self, byte: u8)
        requires { length self.old < 256 }
        ensures { self.new ≡ self.old ++ byte ∷ [] }
    {
        self.bytes[self.len] = byte;
        self.len += 1;
    }

    pub fn put(&mut self, word: &[u8])
        requires { length self.old + length word.now ≤ 256 }
        ensures { self.new ≡ self.old ++ word.now }
    {
        let end = self.len + word.len();
        self.bytes[self.len..end].copy_from_slice(word);
        self.len = end;
    }

    /// Puts bytes in hexadecimal.
    pub fn put_hex(&mut self, bytes: &[u8])
        requires { length self.old + 2 * length bytes.now ≤ 256 }
        ensures { self.new ≡ self.old ++ flat_map hex_byte bytes.now }
    {
        let end = self.len + 2 * bytes.len();
        let _ = hex::encode_to_slice(bytes, &mut self.bytes[self.len..end]);
        self.len = end;
    }

    pub fn put_number(&mut self, number: u64)
        requires { length self.old ≤ 216 }
        ensures text { self.new ≡ self.old ++ decimal number }
        ensures short { length self.new ≤ length self.old + 40 }
    {
        let mut buffer = Buffer::new();
        self.put(buffer.format(number).as_bytes());
    }
}
