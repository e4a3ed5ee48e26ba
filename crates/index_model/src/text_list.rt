ghost use Rattle.std.specs.Prelude.{◌≡◌, ◌<◌, ◌≤◌, ◌-◌, [], ◌∷◌, ◌++◌, length, get_or, take, drop, OnOk, OnErr};
ghost use Rattle.std.specs.Str.{IsUtf8};
ghost use Rattle.index_model.specs.Cuts.{start};

use std::alloc::Global;
use std::marker::Model;
use std::str;
use tape_types::NoMemory;

/// TextList that take two allocations, however many they are. Contracts see the list of them, each by
/// its bytes in UTF-8.
#[derive(Drop)]
pub struct TextList {
    bytes: Vec<u8>,
    /// Where each text ends.
    ends: Vec<usize>,
}

impl Model for TextList {
    ghost use Rattle.std.specs.Prelude.{List as Items, ℕ};
    ghost use Rattle.index_model.specs.Cuts.{AreTexts, cut};

    ghost Value = { Items (Items ℕ) };

    ghost view = { λ t. cut 0 t.ends.items t.bytes.items };

    ghost invariant = { λ t. AreTexts 0 t.ends.items t.bytes.items };
}

/// Where the text at a place begins.
fn start(ends: &[usize], at: usize) -> usize
    requires { at ≤ length ends.now }
    ensures { result ≡ start 0 ends.now at }
{
    if at == 0 {
        return 0;
    }
    ends[at - 1]
}

fn text_between(bytes: &[u8], from: usize, end: usize) -> &str
    requires ordered { from ≤ end }
    requires inside { end ≤ length bytes.now }
    requires text { IsUtf8 (take (end - from) (drop from bytes.now)) }
    ensures { result.now ≡ take (end - from) (drop from bytes.now) }
{
    match str::from_utf8(&bytes[from..end]) {
        Ok(text) => text,
        Err(_) => unreachable!(),
    }
}

impl TextList {
    pub fn new(alloc: Global) -> TextList
        ensures { result ≡ [] }
    {
        TextList {
            bytes: Vec::new(alloc),
            ends: Vec::new(alloc),
        }
    }

    #[tactic(auto, using(crate::proofs::Cuts::cut_length))]
    pub fn len(&self) -> usize
        ensures { result ≡ length self.now }
    {
        self.ends.len()
    }

    /// The text at a place.
    #[tactic(auto, using(crate::proofs::Cuts::cut_length))]
    pub fn get(&self, at: usize) -> &str
        requires { at < length self.now }
        ensures { result.now ≡ get_or self.now at [] }
    {
        let from = start(self.ends.as_slice(), at);
        text_between(self.bytes.as_slice(), from, self.ends[at])
    }

    /// Appends a text, or nothing.
    #[tactic(auto, using(crate::proofs::Cuts::cut_more, crate::proofs::Cuts::texts_more))]
    pub fn push(&mut self, text: &str) -> Result<(), NoMemory>
        ensures ok { OnOk result (self.new ≡ self.old ++ text.now ∷ []) }
        ensures err { OnErr result (self.new ≡ self.old) }
    {
        let before = self.bytes.len();
        self.bytes.extend_from_slice(text.as_bytes())?;
        if self.ends.push(self.bytes.len()).is_err() {
            self.bytes.truncate(before);
            return Err(NoMemory);
        }
        Ok(())
    }
}
