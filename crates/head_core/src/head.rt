//! The head over a drive.

ghost use Rattle.std.specs.Prelude.{◌≡◌, IfOk, IfErr, Some, []};
ghost use Rattle.tape_types.specs.declared.cartridges.Cartridge.{Cartridge};
ghost use Rattle.tape_types.specs.declared.cartridges.Note.TheVariants as kind;
ghost use Rattle.tape_drive.specs.Commands.{AfterNote};
ghost use Rattle.tape_drive.specs.Crashes.{Crashes, LeavesAllowed, NothingNew, WithinNote};
ghost use Rattle.head_core.specs.Attributes.{IsAttributeCommand};
ghost use Rattle.head_core.specs.Steps.{CanStep, IsBlockAfter, IsFound, IsStep, MayStep};

use crate::transfers::{counts, do_op, read_at};
use crate::work::{StepDone, Work};
use std::alloc::Global;
use std::marker::Model;
use tape_drive::Drive;
use tape_types::{Part, Twin};

/// The most bytes that a block has.
const LONGEST_BLOCK: usize = 1_048_576;

/// A drive with its head and one buffer for the block that was read last. Contracts see the drive and that block's
/// bytes.
#[derive(Drop)]
pub struct Head<D: Drive> {
    drive: D,
    buffer: Vec<u8>,
}

impl<D: Drive> Model for Head<D> {
    ghost use Rattle.std.specs.Prelude.{◌≤◌, vec_capacity};
    ghost use Rattle.head_core.specs.Views.{HeadView};

    ghost Value = { HeadView D };

    ghost view = { λ h. record { drive = h.drive; block = h.buffer.items } };

    ghost invariant = { λ h. 1048576 ≤ vec_capacity h.buffer };
}

impl<D: Drive> Head<D> {
    /// A head over a drive, with a buffer of 1,048,576 bytes, and all the memory that it ever takes. A refusal, which
    /// is for want of memory alone, hands the drive back.
    pub fn new(alloc: Global, drive: D) -> Result<Head<D>, D>
        ensures made { IfOk result (λ h. h ≡ record { drive = drive; block = [] }) }
        ensures back { IfErr result (λ d. d ≡ drive) }
    {
        match Vec::with_capacity(alloc, LONGEST_BLOCK) {
            Ok(buffer) => Ok(Head { drive, buffer }),
            Err(_) => Err(drive),
        }
    }

    /// Does one step: a locate and a transfer at the place of the work, or a flush alone. Takes no memory.
    ///
    /// A failure tells the drive's count of faults before the step and after it. The head has to be located again
    /// then, which the next step does anyway.
    #[tactic(auto, using(crate::proofs::Reach::can_do_again, crate::proofs::Reach::can_read_again))]
    pub fn step(&mut self, work: Work<'_>) -> StepDone
        requires can { CanStep work (D.limits self.old.drive) (D.held self.old.drive) }
        requires may { MayStep D.Drive work self.old.drive }
        ensures step { IsStep D.Drive work.entry result self.old.drive self.new.drive }
        ensures block { IsBlockAfter work.entry result self.old.block self.new.block }
        ensures found { (c : Cartridge) → D.held self.old.drive ≡ Some c
            → IsFound work.entry result self.new.block c }
        // The same work can be asked again, however it ended.
        ensures again { CanStep work.entry (D.limits self.new.drive) (D.held self.new.drive) }
    {
        match work {
            Work::Read(place) => read_at(&mut self.drive, place, &mut self.buffer),
            Work::Do(op) => do_op(&mut self.drive, op),
        }
    }

    /// The bytes of the block that the last read found: none where it found no block, where it failed, and before
    /// the first read.
    pub fn block(&self) -> &[u8]
        ensures { result.now ≡ self.now.block }
    {
        self.buffer.as_slice()
    }

    /// How many commands the drive has had. It stands still at 2^64 - 1.
    pub fn commands(&self) -> u64
        ensures { result ≡ D.commands self.now.drive }
    {
        self.drive.commands()
    }

    /// Reads the volume change reference (LTFS 2.4 on medium auxiliary memory). A failure tells the drive's count of
    /// faults before and after.
    pub fn vcr(&mut self) -> Result<u64, Twin>
        ensures value { IfOk result (λ n. (c : Cartridge) → D.held self.old.drive ≡ Some c → n ≡ c.vcr) }
        ensures command { IsAttributeCommand D.Drive result self.old.drive self.new.drive }
        ensures held { D.held self.new.drive ≡ D.held self.old.drive }
        ensures block { self.new.block ≡ self.old.block }
        ensures crash { Crashes NothingNew (D.commands self.old.drive) (D.leaves self.old.drive)
            (D.leaves self.new.drive) (D.left_since self.old.drive) (D.left_since self.new.drive) }
    {
        let before = self.drive.faults();
        match self.drive.vcr() {
            Ok(value) => Ok(value),
            Err(_) => Err(counts(before, &self.drive)),
        }
    }

    /// Writes the coherency attribute of a partition (LTFS 2.4 on volume coherency information). A failure tells the
    /// drive's count of faults before and after, and leaves the old attribute or the new one.
    pub fn write_note(&mut self, part: Part, note: &[u8; 70]) -> Result<(), Twin>
        requires may { (c : Cartridge) → D.held self.old.drive ≡ Some c
            → LeavesAllowed (WithinNote part (kind.Kept note.now)) (D.leaves self.old.drive) D.allows }
        ensures told { (c : Cartridge) → D.held self.old.drive ≡ Some c → (d : Cartridge)
            × (D.held self.new.drive ≡ Some d) × AfterNote result part (kind.Kept note.now) c d }
        ensures command { IsAttributeCommand D.Drive result self.old.drive self.new.drive }
        ensures block { self.new.block ≡ self.old.block }
        ensures crash { (c : Cartridge) → D.held self.old.drive ≡ Some c
            → Crashes (WithinNote part (kind.Kept note.now)) (D.commands self.old.drive) (D.leaves self.old.drive)
            (D.leaves self.new.drive) (D.left_since self.old.drive) (D.left_since self.new.drive) }
    {
        let before = self.drive.faults();
        match self.drive.write_note(part, note) {
            Ok(()) => Ok(()),
            Err(_) => Err(counts(before, &self.drive)),
        }
    }

    /// Gives the drive back.
    pub fn into_drive(self) -> D
        ensures { result ≡ self.drive }
    {
        let Head { drive, buffer: _ } = self;
        drive
    }
}
