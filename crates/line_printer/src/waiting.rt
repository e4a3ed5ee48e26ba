//! Bytes that wait to be written.

ghost use Rattle.std.specs.Prelude.{◌≡◌, ◌⊎◌, ◌≤◌, ◌++◌, [], true, length, take, IfOk};
ghost use Rattle.line_printer.specs.Printing.{piece, IsMoved};

use session_script::LogLine;
use std::alloc::{AllocError, Global};
use std::marker::Model;

/// So many bytes wait at most, and are written at once.
const PIECE: usize = 32_768;

/// Bytes that wait, in a room of fixed size. Contracts see them.
#[derive(Drop)]
pub struct Waiting {
    room: Vec<u8>,
    used: usize,
}

impl Model for Waiting {
    ghost use Rattle.std.specs.Prelude.{◌≡◌, ◌≤◌, ℕ, List, length, take};
    ghost use Rattle.line_printer.specs.Printing.{piece};

    ghost Value = { List ℕ };

    ghost view = { λ w. take w.used w.room.items };

    ghost invariant = { λ w. (w.used ≤ length w.room.items) × (length w.room.items ≡ piece) };
}

impl Waiting {
    /// None wait.
    pub fn new(alloc: Global) -> Result<Waiting, AllocError>
        ensures { IfOk result (λ w. w ≡ []) }
    {
        let mut room = Vec::with_capacity(alloc, PIECE)?;
        room.resize(PIECE, 0)?;
        Ok(Waiting { room, used: 0 })
    }

    pub fn as_slice(&self) -> &[u8]
        ensures { result.now ≡ self.now }
    {
        &self.room.as_slice()[..self.used]
    }

    /// None wait any more.
    pub fn clear(&mut self)
        ensures { self.new ≡ [] }
    {
        self.used = 0;
    }

    /// Takes the next bytes of a line in, as many as have room, and tells whether the line is done. Where it isn't, the
    /// room is full.
    pub fn take_in(&mut self, line: &mut LogLine<'_>) -> bool
        ensures moved { IsMoved self.old self.new line.old line.new }
        ensures full { (result ≡ true) ⊎ (length self.new ≡ piece) }
        ensures end { result ≡ true → line.new ≡ [] }
    {
        let count = line.fill(&mut self.room.as_mut_slice()[self.used..]);
        self.used += count;
        self.used < self.room.len()
    }

    /// Takes as many bytes in as have room, and tells how many.
    pub fn put(&mut self, bytes: &[u8]) -> usize
        ensures bytes { self.new ≡ self.old ++ take result bytes.now }
        ensures within { result ≤ length bytes.now }
        ensures full { (result ≡ length bytes.now) ⊎ (length self.new ≡ piece) }
    {
        let count = bytes.len().min(self.room.len() - self.used);
        let end = self.used + count;
        self.room.as_mut_slice()[self.used..end].copy_from_slice(&bytes[..count]);
        self.used = end;
        count
    }
}
