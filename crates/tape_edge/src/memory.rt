ghost use Rattle.std.specs.Prelude.{◌≡◌, ◌<◌, Some, length, [], OnOk, OnErr};
ghost use Rattle.std.specs.Io.{ReadsAtMost};
ghost use Rattle.std.specs.Io.KnownBytes.{ReadConsumes, Appends};
ghost use Rattle.tape_types.specs.Counts.{HasCause};
ghost use Rattle.tape_edge.specs.Streams.{AppendsFront};
ghost use Rattle.tape_edge.specs.Devices.{ReadsFrom, WritesTo};

use crate::traits::{ReadFault, Sink, Source, WriteFault};
use std::alloc::Global;
use std::marker::Model;
use tape_types::{Bytes, List};

/// A source over bytes in memory. The calls of `read` whose numbers are listed fail, counted from 1.
#[derive(Drop)]
pub struct MemSource {
    bytes: Bytes,
    at: usize,
    fails: List<u64>,
    calls: u64,
    faults: u64,
}

impl Model for MemSource {
    ghost use Rattle.std.specs.Prelude.{◌≤◌, length, drop};
    ghost use Rattle.tape_edge.specs.Devices.{SourceView};

    ghost Value = { SourceView };

    ghost view = { λ s. record { left = drop s.at s.bytes; fails = s.fails; calls = s.calls; faults = s.faults } };

    ghost invariant = { λ s. s.at ≤ length s.bytes };
}

impl MemSource {
    pub fn new(bytes: Bytes, fails: List<u64>) -> MemSource
        ensures { result ≡ record { left = bytes; fails = fails; calls = 0; faults = 0 } }
    {
        MemSource {
            bytes,
            at: 0,
            fails,
            calls: 0,
            faults: 0,
        }
    }
}

impl Source for MemSource {
    ghost left = { λ s. Some s.left };

    ghost faults = { λ s. s.faults };

    fn faults(&self) -> u64 {
        self.faults
    }

    fn read(&mut self, buf: &mut [u8]) -> Result<usize, ReadFault>
        requires { 0 < length buf.old }
        ensures bound { ReadsAtMost result buf.new }
        ensures bytes { ReadConsumes (Some self.old.left) (Some self.new.left) result buf.new }
        ensures cause { HasCause self.old.faults self.new.faults result }
        ensures exact { ReadsFrom self.old self.new result buf.old buf.new }
    {
        self.calls = self.calls.saturating_add(1);
        if self.fails.as_slice().contains(&self.calls) {
            self.faults = self.faults.saturating_add(1);
            return Err(ReadFault);
        }
        let rest = &self.bytes.as_slice()[self.at..];
        let count = rest.len().min(buf.len());
        buf[..count].copy_from_slice(&rest[..count]);
        self.at += count;
        Ok(count)
    }
}

/// A sink in memory. The calls of `write` whose numbers are listed fail, counted from 1, and append nothing.
#[derive(Drop)]
pub struct MemSink {
    bytes: Bytes,
    fails: List<u64>,
    calls: u64,
    faults: u64,
    starved: u64,
}

impl Model for MemSink {
    ghost use Rattle.tape_edge.specs.Devices.{SinkView};

    ghost Value = { SinkView };

    ghost view = { λ s. record {
      written = s.bytes;
      fails = s.fails;
      calls = s.calls;
      faults = s.faults;
      starved = s.starved;
    } };
}

impl MemSink {
    pub fn new(alloc: Global, fails: List<u64>) -> MemSink
        ensures { result ≡ record { written = []; fails = fails; calls = 0; faults = 0; starved = 0 } }
    {
        MemSink {
            bytes: Bytes::new(alloc),
            fails,
            calls: 0,
            faults: 0,
            starved: 0,
        }
    }

    /// What was written.
    pub fn bytes(&self) -> &Bytes
        ensures { result.now ≡ self.now.written }
    {
        &self.bytes
    }

    /// How many writes found no memory.
    pub fn starved(&self) -> u64
        ensures { result ≡ self.now.starved }
    {
        self.starved
    }
}

impl Sink for MemSink {
    ghost written = { λ s. Some s.written };

    ghost faults = { λ s. s.faults };

    fn faults(&self) -> u64 {
        self.faults
    }

    fn write(&mut self, bytes: &[u8]) -> Result<(), WriteFault>
        ensures ok { OnOk result (Appends (Some self.old.written) (Some self.new.written) bytes.now) }
        ensures err { OnErr result (AppendsFront (Some self.old.written) (Some self.new.written) bytes.now) }
        ensures cause { HasCause self.old.faults self.new.faults result }
        ensures exact { WritesTo self.old self.new result bytes.now }
    {
        self.calls = self.calls.saturating_add(1);
        if self.fails.as_slice().contains(&self.calls) {
            self.faults = self.faults.saturating_add(1);
            return Err(WriteFault);
        }
        match self.bytes.extend(bytes) {
            Ok(()) => Ok(()),
            Err(_) => {
                self.faults = self.faults.saturating_add(1);
                self.starved = self.starved.saturating_add(1);
                Err(WriteFault)
            }
        }
    }
}
