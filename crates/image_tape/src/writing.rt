// Items are written.
ghost use Rattle.std.specs.Prelude.{◌≡◌, ◌≤◌, ◌<◌, ◌+◌, ◌^◌, ◌++◌, length, IfSome, IfNone, IsErr, OnOk, Some, None};
ghost use Rattle.tape_types.specs.Cartridges.{IsItem, capacity};
ghost use Rattle.tape_types.specs.declared.cartridges.Item.{Item};
ghost use Rattle.byte_disk.specs.Files.{Files, bytes_of};
ghost use Rattle.image_slots.specs.State.{file_of};
ghost use Rattle.image_format.specs.Records.{IsHead, head_bytes, record_bytes};
ghost use Rattle.image_format.specs.Values.{flag};
ghost use Rattle.image_tape.specs.Blames.{AreSpent, IsBlamed, Never};
ghost use Rattle.image_tape.specs.declared.doubt.Doubt.TheVariants.{Settled};
ghost use Rattle.image_tape.specs.Halves.{half_of};
ghost use Rattle.image_tape.specs.Steps.{IsAlike};
ghost use Rattle.image_tape.specs.Tape.{IsWithin, held_of};
ghost use Rattle.image_tape.specs.Writes.{Appends, Cuts, Fills, FollowsIn, Hides, IsCounted, IsPlace, IsUncounted};
ghost use Rattle.image_tape.specs.Writes.{Puts, Replaces, Rises, StandBehind, Writes};

use crate::commits::Commits;
use crate::halves::{ended, half_of, with_vcr};
use crate::tape::ImageTape;
use byte_disk::{ByteDisk, DiskFault};
use image_format::{Half, Head, encode_head};
use tape_drive::DriveErr;
use tape_types::{Part, Place};

impl<B: ByteDisk> ImageTape<B> {
    // Cuts a partition at a place, and appends an item. It fails where positions in front of the place have none.
    pub(crate) fn write_at(&mut self, at: Place, head: Head, bytes: &[u8]) -> Result<(), DriveErr>
        requires settled { self.old.doubt ≡ Settled }
        requires within { IsWithin (held_of B.ByteDisk self.old) (Some at) }
        requires room { at.pos < capacity at.part self.old.room.limits }
        requires head { IsHead head }
        requires size { length bytes.now ≤ 1048576 }
        requires sound { (x : Item) × IsItem x × (record_bytes x ≡ head_bytes head ++ bytes.now) }
        ensures gap { (half_of at.part self.old.reads).count + flag (half_of at.part self.old.reads).torn < at.pos
            → IsErr result }
        ensures writes { (x : Item) → IsItem x → record_bytes x ≡ head_bytes head ++ bytes.now
            → Writes B.ByteDisk 10 at x result self.old self.new }
        ensures blamed { IsBlamed B.ByteDisk AreSpent result self.old self.new }
    {
        // What is kept of the files tells what they hold.
        let _kept = self.doubt;
        if self.count(at.part) < at.pos {
            return Err(DriveErr::Failed);
        }
        match self.rise(at) {
            Ok(()) => self.replace(at, head, bytes),
            Err(why) => Err(why),
        }
    }

    // The same once the reference went up.
    fn replace(&mut self, at: Place, head: Head, bytes: &[u8]) -> Result<(), DriveErr>
        requires settled { self.old.doubt ≡ Settled }
        requires uncounted { (d : Files) → B.held self.old.slots.disk ≡ Some d
            → (half_of at.part self.old.base).count ≤ at.pos }
        requires room { at.pos < capacity at.part self.old.room.limits }
        requires head { IsHead head }
        requires size { length bytes.now ≤ 1048576 }
        requires sound { (x : Item) × IsItem x × (record_bytes x ≡ head_bytes head ++ bytes.now) }
        ensures replaces { (x : Item) → IsItem x → record_bytes x ≡ head_bytes head ++ bytes.now
            → Replaces B.ByteDisk at x result self.old self.new }
        ensures blamed { IsBlamed B.ByteDisk Never result self.old self.new }
    {
        self.cut(at);
        self.append(at.part, head, bytes)
    }

    // Lets the reference go up. Where the header counts an item at the place, it no longer counts it, nor what is
    // behind.
    fn rise(&mut self, at: Place) -> Result<(), DriveErr>
        requires { self.old.doubt ≡ Settled }
        ensures rises { Rises B.ByteDisk at result self.old self.new }
        ensures blamed { IsBlamed B.ByteDisk AreSpent result self.old self.new }
    {
        let Some(vcr) = self.reads.vcr.checked_add(1) else {
            return Err(DriveErr::Failed);
        };
        let base = with_vcr(vcr, &self.base);
        let reads = with_vcr(vcr, &self.reads);
        match self.counted_end(at) {
            Some(end) => {
                let shorter = ended(at.part, at.pos, end, false, &base);
                let left = ended(at.part, at.pos, end, false, &reads);
                self.commit(shorter, left)
            }
            None => match self.commits {
                Commits::Each => self.commit(base, reads),
                Commits::AtFlush => {
                    self.reads = reads;
                    self.head = None;
                    Ok(())
                }
            },
        }
    }

    // Where the record at a place begins, if the header counts it.
    fn counted_end(&self, at: Place) -> Option<u64>
        ensures some { IfSome result (λ end. IsCounted at end self.now) }
        ensures none { IfNone result (IsUncounted at self.now) }
    {
        let most = half_of(at.part, &self.base).count;
        if at.pos < most && at.pos < half_of(at.part, &self.reads).count {
            return Some(self.room.offsets(at.part)[at.pos as usize]);
        }
        None
    }

    // Cuts a partition at a place, at which the header counts nothing.
    fn cut(&mut self, at: Place)
        requires settled { self.old.doubt ≡ Settled }
        requires uncounted { (d : Files) → B.held self.old.slots.disk ≡ Some d
            → (half_of at.part self.old.base).count ≤ at.pos }
        ensures cut { Cuts B.ByteDisk at self.old self.new }
        ensures room { (half_of at.part self.new.reads).count + flag (half_of at.part self.new.reads).torn ≤ at.pos }
    {
        if let Some(end) = self.end_at(at) {
            self.room.cut(at.part, at.pos);
            self.reads = ended(at.part, at.pos, end, false, &self.reads);
            self.head = None;
        }
    }

    // Where the record at a place begins, or would begin behind the others.
    fn end_at(&self, at: Place) -> Option<u64>
        ensures some { IfSome result (λ end. IsPlace at end self.now) }
        ensures none { IfNone result ((half_of at.part self.now.reads).count < at.pos) }
    {
        let half = half_of(at.part, &self.reads);
        if at.pos < half.count {
            return Some(self.room.offsets(at.part)[at.pos as usize]);
        }
        if at.pos == half.count {
            return Some(half.end);
        }
        None
    }

    // Appends an item to a partition. Where it fails the partition may end with a Torn.
    fn append(&mut self, part: Part, head: Head, bytes: &[u8]) -> Result<(), DriveErr>
        requires settled { self.old.doubt ≡ Settled }
        requires room { (half_of part self.old.reads).count + flag (half_of part self.old.reads).torn
            < capacity part self.old.room.limits }
        requires head { IsHead head }
        requires size { length bytes.now ≤ 1048576 }
        requires sound { (x : Item) × IsItem x × (record_bytes x ≡ head_bytes head ++ bytes.now) }
        ensures appends { (x : Item) → IsItem x → record_bytes x ≡ head_bytes head ++ bytes.now
            → Appends B.ByteDisk 4 part x result self.old self.new }
        ensures blamed { IsBlamed B.ByteDisk Never result self.old self.new }
    {
        match self.fill(part) {
            Ok(()) => self.put(part, head, bytes),
            Err(why) => Err(why),
        }
    }

    // Makes a Torn behind the records of a partition a record, so that others may follow.
    fn fill(&mut self, part: Part) -> Result<(), DriveErr>
        requires settled { self.old.doubt ≡ Settled }
        requires room { (half_of part self.old.reads).count + flag (half_of part self.old.reads).torn
            < capacity part self.old.room.limits }
        ensures fills { Fills B.ByteDisk part result self.old self.new }
        ensures blamed { IsBlamed B.ByteDisk Never result self.old self.new }
    {
        if !half_of(part, &self.reads).torn {
            return Ok(());
        }
        self.put(part, Head::Torn, &[])
    }

    // Puts an item behind the records of a partition. Where it fails the partition ends with a Torn.
    fn put(&mut self, part: Part, head: Head, bytes: &[u8]) -> Result<(), DriveErr>
        requires settled { self.old.doubt ≡ Settled }
        requires room { (half_of part self.old.reads).count < capacity part self.old.room.limits }
        requires head { IsHead head }
        requires size { length bytes.now ≤ 1048576 }
        requires sound { (x : Item) × IsItem x × (record_bytes x ≡ head_bytes head ++ bytes.now) }
        ensures puts { (x : Item) → IsItem x → record_bytes x ≡ head_bytes head ++ bytes.now
            → Puts B.ByteDisk part x result self.old self.new }
        ensures blamed { IsBlamed B.ByteDisk Never result self.old self.new }
    {
        match self.write_record(part, head, bytes) {
            Ok(()) => {
                let Half { count, end, .. } = half_of(part, &self.reads);
                let more = end.saturating_add(5 + bytes.len() as u64);
                self.room.push(part, end);
                self.reads = ended(part, count.saturating_add(1), more, false, &self.reads);
                self.head = None;
                Ok(())
            }
            Err(why) => {
                let Half { count, end, .. } = half_of(part, &self.reads);
                self.reads = ended(part, count, end, true, &self.reads);
                self.head = None;
                Err(why)
            }
        }
    }

    // Writes a record behind those of a partition.
    fn write_record(&mut self, part: Part, head: Head, bytes: &[u8]) -> Result<(), DriveErr>
        requires settled { self.old.doubt ≡ Settled }
        requires head { IsHead head }
        requires size { length bytes.now ≤ 1048576 }
        ensures hides { Hides B.ByteDisk 2 self.old self.new }
        ensures alike { IsAlike self.old self.new }
        ensures behind { OnOk result ((e : Files) → B.held self.new.slots.disk ≡ Some e
            → StandBehind (half_of part self.old.reads).end (head_bytes head ++ bytes.now)
            (bytes_of (file_of part) e)) }
        ensures blamed { IsBlamed B.ByteDisk Never result self.old self.new }
    {
        let end = half_of(part, &self.reads).end;
        if end >= 1 << 61 {
            return Err(DriveErr::Failed);
        }
        if let Err(why) = self.write_behind(part, end, &encode_head(head)) {
            return Err(why);
        }
        self.write_behind(part, end + 5, bytes)
    }

    // Writes bytes from there on, behind the records of a partition.
    fn write_behind(&mut self, part: Part, at: u64, bytes: &[u8]) -> Result<(), DriveErr>
        requires settled { self.old.doubt ≡ Settled }
        requires place { (half_of part self.old.reads).end ≤ at }
        requires within { IfSome (B.held self.old.slots.disk) (λ d. at ≤ length (bytes_of (file_of part) d)) }
        requires end { at + length bytes.now < 2 ^ 62 }
        ensures hides { Hides B.ByteDisk 1 self.old self.new }
        ensures alike { IsAlike self.old self.new }
        ensures told { (d : Files) → B.held self.old.slots.disk ≡ Some d → (e : Files)
            × (B.held self.new.slots.disk ≡ Some e)
            × OnOk result (FollowsIn at bytes.now (bytes_of (file_of part) d) (bytes_of (file_of part) e)) }
        ensures untold { B.held self.old.slots.disk ≡ None → B.held self.new.slots.disk ≡ None }
        ensures blamed { IsBlamed B.ByteDisk Never result self.old self.new }
    {
        if let Err(DiskFault) = self.slots.write(part, at, bytes) {
            return Err(DriveErr::Failed);
        }
        Ok(())
    }
}
