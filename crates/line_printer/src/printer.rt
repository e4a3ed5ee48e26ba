//! What prints lines.

ghost use Rattle.std.specs.Prelude.{◌≡◌, ◌⊎◌, ◌<◌, ◌≤◌, ◌+◌, ◌-◌, ◌^◌, ◌++◌, ℕ, Bool, true, false, not, ◌&&◌};
ghost use Rattle.std.specs.Prelude.{[], List, length, drop, decimal, IfOk, IfErr};
ghost use Rattle.session_script.specs.LogText.{line_text};
ghost use Rattle.line_printer.specs.Printing.{piece, HasTaken, IsOver, TakesFirst, blank};

use crate::waiting::Waiting;
use itoa::Buffer;
use plain_tree::Placed;
use session_script::{LogLine, Reply};
use std::alloc::Global;
use std::marker::Model;
use std::snapshot::Snapshot;
use tape_edge::Sink;

/// Prints the lines of a log to a sink, in order, unless the sink is to be left alone. Once a write has failed nothing
/// more is written. It takes no memory once it is there.
pub struct Printer<K: Sink> {
    out: K,
    quiet: bool,
    waiting: Waiting,
    lines: u64,
    broken: bool,
    first: Snapshot<K>,
}

impl<K: Sink> Model for Printer<K> {
    ghost use Rattle.line_printer.specs.Printing.{PrinterView};

    ghost Value = { PrinterView K };

    ghost view = { λ p. record {
      first = p.first.value;
      quiet = p.quiet;
      out = p.out;
      lines = p.lines;
      waits = p.waiting;
      broken = p.broken;
    } };
}

impl<K: Sink> Printer<K> {
    /// Nothing was printed. A quiet printer leaves the sink alone. Where memory is refused, the sink comes back.
    pub fn new(alloc: Global, out: K, quiet: bool) -> Result<Printer<K>, K>
        ensures ok { IfOk result (λ p. p ≡ blank out quiet) }
        ensures err { IfErr result (λ k. k ≡ out) }
    {
        match Waiting::new(alloc) {
            Ok(waiting) => {
                let first = Snapshot::of(&out);
                Ok(Printer {
                    out,
                    quiet,
                    waiting,
                    lines: 0,
                    broken: false,
                    first,
                })
            }
            Err(_) => Err(out),
        }
    }

    /// Whether what is handed in is written.
    pub fn is_open(&self) -> bool
        ensures { result ≡ not self.now.quiet && not self.now.broken }
    {
        !self.quiet && !self.broken
    }

    /// Whether a write has failed.
    pub fn is_broken(&self) -> bool
        ensures { result ≡ self.now.broken }
    {
        self.broken
    }

    /// How many lines were handed in.
    pub fn lines(&self) -> u64
        ensures { result ≡ self.now.lines }
    {
        self.lines
    }

    /// Takes the line of the next placement, whose place is the number of lines so far.
    pub fn print(&mut self, placed: &Placed, reply: &Reply)
        requires few { self.old.lines < 2 ^ 64 - 1 }
        ensures over { IsOver self.old self.new }
        ensures lines { self.new.lines ≡ self.old.lines + 1 }
        ensures text { (text : List ℕ) → HasTaken K.Sink self.old text
            → HasTaken K.Sink self.new (text ++ line_text self.old.lines placed.now reply.now) }
    {
        let line = LogLine::new(self.lines, placed, reply);
        self.take_in(line);
        self.lines += 1;
    }

    /// Takes a line in, piece by piece.
    fn take_in(&mut self, line: LogLine<'_>)
        ensures { TakesFirst K.Sink self.old self.new line.entry [] }
    {
        let mut line = line;
        while !self.take_next(&mut line) {
            self.send();
        }
    }

    /// Takes the next bytes of a line in, as many as have room, and tells whether the line is done. Where it isn't, the
    /// room is full.
    fn take_next(&mut self, line: &mut LogLine<'_>) -> bool
        ensures taken { TakesFirst K.Sink self.old self.new line.old line.new }
        ensures all { length self.new.waits + length line.new ≡ length self.old.waits + length line.old }
        ensures full { (result ≡ true) ⊎ (length self.new.waits ≡ piece) }
        ensures end { result ≡ true → line.new ≡ [] }
    {
        self.waiting.take_in(line)
    }

    /// Takes bytes behind all lines.
    pub fn put(&mut self, bytes: &[u8])
        ensures over { IsOver self.old self.new }
        ensures lines { self.new.lines ≡ self.old.lines }
        ensures text { (text : List ℕ) → HasTaken K.Sink self.old text → HasTaken K.Sink self.new (text ++ bytes.now) }
    {
        let mut rest = bytes;
        loop {
            let count = self.put_next(rest);
            if count == rest.len() {
                return;
            }
            rest = &rest[count..];
            self.send();
        }
    }

    /// Takes as many bytes in as have room, and tells how many.
    fn put_next(&mut self, bytes: &[u8]) -> usize
        ensures taken { TakesFirst K.Sink self.old self.new bytes.now (drop result bytes.now) }
        ensures all { length self.new.waits ≡ length self.old.waits + result }
        ensures within { result ≤ length bytes.now }
        ensures full { (result ≡ length bytes.now) ⊎ (length self.new.waits ≡ piece) }
    {
        self.waiting.put(bytes)
    }

    /// Takes a number behind all lines.
    pub fn put_number(&mut self, number: u64)
        ensures over { IsOver self.old self.new }
        ensures lines { self.new.lines ≡ self.old.lines }
        ensures text { (text : List ℕ) → HasTaken K.Sink self.old text
            → HasTaken K.Sink self.new (text ++ decimal number) }
    {
        let mut buffer = Buffer::new();
        self.put(buffer.format(number).as_bytes());
    }

    /// Writes what waits.
    pub fn send(&mut self)
        ensures over { IsOver self.old self.new }
        ensures lines { self.new.lines ≡ self.old.lines }
        ensures none { self.new.waits ≡ [] }
        ensures broken { self.old.broken ≡ true → self.new.broken ≡ true }
        ensures text { (text : List ℕ) → HasTaken K.Sink self.old text → HasTaken K.Sink self.new text }
    {
        if !self.is_open() {
            self.waiting.clear();
            return;
        }
        if self.waiting.as_slice().is_empty() {
            return;
        }
        self.write();
    }

    /// Writes what waits to a sink that has not failed.
    fn write(&mut self)
        requires aloud { self.old.quiet ≡ false }
        requires whole { self.old.broken ≡ false }
        ensures over { IsOver self.old self.new }
        ensures lines { self.new.lines ≡ self.old.lines }
        ensures none { self.new.waits ≡ [] }
        ensures text { (text : List ℕ) → HasTaken K.Sink self.old text → HasTaken K.Sink self.new text }
    {
        self.broken = self.out.write(self.waiting.as_slice()).is_err();
        self.waiting.clear();
    }

    /// The sink.
    pub fn into_sink(self) -> K
        ensures { result ≡ self.out }
    {
        let Printer {
            out,
            quiet: _,
            waiting: _,
            lines: _,
            broken: _,
            first: _,
        } = self;
        out
    }
}
