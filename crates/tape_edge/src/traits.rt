ghost use Rattle.std.specs.Prelude.{◌≡◌, ℕ, ◌+◌, ◌<◌, List, length, OnOk, OnErr, IfSome, Option};
ghost use Rattle.std.specs.Io.{ReadsAtMost};
ghost use Rattle.std.specs.Io.KnownBytes.{ReadConsumes, Appends};
ghost use Rattle.tape_types.specs.Counts.{HasCause};
ghost use Rattle.tape_types.specs.declared.moments.Moment.{Moment as Instant};
ghost use Rattle.tape_edge.specs.Streams.{AppendsFront};
ghost use Rattle.tape_edge.specs.Clocks.{IsSince1970};

use tape_types::Moment;

/// A read failed.
#[derive(Clone, Copy, Debug, PartialEq, Eq)]
pub struct ReadFault;

/// A write failed.
#[derive(Clone, Copy, Debug, PartialEq, Eq)]
pub struct WriteFault;

/// Where bytes come from.
pub trait Source {
    /// The bytes that are left, where the source tells them.
    ghost left: { Self → Option (List ℕ) };
    /// How often it has failed. The count stands still at 2^64 - 1.
    ghost faults: { Self → ℕ };

    /// How often it has failed.
    fn faults(&self) -> u64
        ensures { result ≡ faults self.now };

    /// Takes one byte or more to the front of the buffer and answers how many, or answers 0 at the end.
    fn read(&mut self, buf: &mut [u8]) -> Result<usize, ReadFault>
        requires { 0 < length buf.old }
        ensures bound { ReadsAtMost result buf.new }
        ensures bytes { ReadConsumes (left self.old) (left self.new) result buf.new }
        ensures cause { HasCause (faults self.old) (faults self.new) result };
}

/// Where bytes go to.
pub trait Sink {
    /// What was written, where the sink tells it.
    ghost written: { Self → Option (List ℕ) };
    /// How often it has failed. The count stands still at 2^64 - 1.
    ghost faults: { Self → ℕ };

    /// How often it has failed.
    fn faults(&self) -> u64
        ensures { result ≡ faults self.now };

    /// Appends all the bytes, or a front of them where it fails.
    fn write(&mut self, bytes: &[u8]) -> Result<(), WriteFault>
        ensures ok { OnOk result (Appends (written self.old) (written self.new) bytes.now) }
        ensures err { OnErr result (AppendsFront (written self.old) (written self.new) bytes.now) }
        ensures cause { HasCause (faults self.old) (faults self.new) result };
}

/// Where moments come from. It never fails, and gives moments of the years 1970 to 9999.
pub trait Clock: Drop {
    /// What its next call gives, where the clock tells it.
    ghost next: { Self → Option Instant };
    /// What each of its calls gives, where that is one moment.
    ghost one: { Self → Option Instant };
    /// What the nth of its calls from now on may give, counted from 0.
    ghost gives: { Self → ℕ → Instant → Type 0 };

    /// The present moment.
    fn now(&mut self) -> Moment
        ensures given { gives self.old 0 result }
        ensures later { (n : ℕ) (m : Instant) → gives self.new n m → gives self.old (n + 1) m }
        ensures told { IfSome (next self.old) (λ m. result ≡ m) }
        ensures single { IfSome (one self.old) (λ m. (result ≡ m) × (self.new ≡ self.old)) }
        ensures range { IsSince1970 result };
}
