// A tape is opened.
ghost use Rattle.std.specs.Prelude.{◌≡◌, ◌≤◌, Some, None, IfOk, IfErr, OnOk, IsTrue, [], length};
ghost use Rattle.tape_types.specs.Cartridges.{IsLimits};
ghost use Rattle.tape_types.specs.Counts.{HasCause};
ghost use Rattle.byte_disk.specs.Files.{Files};
ghost use Rattle.image_slots.specs.State.{IsOver};
ghost use Rattle.image_slots.specs.declared.known.Known.TheVariants.{Steady};
ghost use Rattle.image_format.specs.Reading.{IsRead};
ghost use Rattle.image_tape.specs.declared.doubt.Doubt.TheVariants.{Settled};
ghost use Rattle.image_tape.specs.Opens.{AreSynced, HasLooked, HasOpened, IsReason, IsRefused, IsTellable};
ghost use Rattle.image_tape.specs.Opens.{header_reason, reason_of};

use crate::commits::Commits;
use crate::doubt::Doubt;
use crate::errors::OpenErr;
use crate::tape::ImageTape;
use byte_disk::{ByteDisk, DiskFault};
use http_server::Log;
use image_format::{ReadErr, Refusal, Room, SlotValue};
use image_slots::{OpenErr as HeaderErr, Slots, known_values_are_left};
use tape_types::{Part, Twin};

/// A disk whose files are no image, or one that failed, with the room for a tape.
#[derive(Drop)]
pub struct OpenFail<B: ByteDisk> {
    pub disk: B,
    pub room: Room,
    pub why: OpenErr,
}

impl<B: ByteDisk> ImageTape<B> {
    /// Opens the tape of a disk: it makes the files durable as they read, and finds the records that count. On a blank
    /// disk, whose header is short and whose partitions are empty, it makes a header first. The room has from 4 to 2^40
    /// positions for each partition.
    pub fn open(disk: B, room: Room, commits: Commits) -> Result<ImageTape<B>, OpenFail<B>>
        requires { IsLimits room.limits }
        ensures opened { IfOk result (λ t. HasOpened B.ByteDisk room.limits disk t) }
        ensures refused { IfErr result (λ f. IsRefused B.ByteDisk room.limits f.why disk f.disk) }
        ensures room { IfErr result (λ f. f.room.limits ≡ room.limits) }
    {
        let before = disk.faults();
        match Slots::open(disk) {
            Ok(slots) => ImageTape::read_all(slots, room, commits),
            Err(fail) => {
                let image_slots::OpenFail { disk, why } = fail;
                let after = disk.faults();
                Err(OpenFail {
                    disk,
                    room,
                    why: header_fault(why, before, after),
                })
            }
        }
    }

    // Makes the partitions' files durable, and reads them.
    fn read_all(slots: Slots<B>, room: Room, commits: Commits) -> Result<ImageTape<B>, OpenFail<B>>
        requires limits { IsLimits room.limits }
        requires steady { slots.known ≡ Steady }
        ensures opened { IfOk result (λ t. HasOpened B.ByteDisk room.limits slots.disk t) }
        ensures refused { IfErr result (λ f. IsRefused B.ByteDisk room.limits f.why slots.disk f.disk) }
        ensures room { IfErr result (λ f. f.room.limits ≡ room.limits) }
    {
        let mut slots = slots;
        let mut room = room;
        let before = slots.faults();
        match read_synced(&mut slots, &mut room) {
            Ok(value) => {
                let tape = ImageTape::over(slots, room, value, commits);
                // What is kept of the files tells what they hold.
                let _kept = tape.doubt;
                Ok(tape)
            }
            Err(why) => {
                let after = slots.faults();
                Err(OpenFail {
                    disk: slots.into_disk(),
                    room,
                    why: read_fault(why, before, after),
                })
            }
        }
    }

    // The tape of a disk whose files are durable, and were read.
    fn over(slots: Slots<B>, room: Room, value: SlotValue, commits: Commits) -> ImageTape<B>
        requires limits { IsLimits room.limits }
        requires steady { slots.known ≡ Steady }
        requires tellable { IsTellable B.ByteDisk room.limits slots room value }
        ensures { result ≡ record {
          slots = slots;
          room = room;
          base = value;
          reads = value;
          doubt = Settled;
          head = None;
          faults = 0;
          opened = B.commands slots.disk;
          past = [];
        } }
    {
        let opened = slots.commands();
        let past = Log::new();
        known_values_are_left::<B>();
        // The value that counts is the one that was opened.
        let _value = slots.get();
        ImageTape {
            slots,
            room,
            base: value,
            reads: value,
            doubt: Doubt::Settled,
            head: None,
            faults: 0,
            opened,
            past,
            commits,
        }
    }
}

// Makes the partitions' files of a disk durable, and reads what lies in them.
fn read_synced<B: ByteDisk>(slots: &mut Slots<B>, room: &mut Room) -> Result<SlotValue, ReadErr>
    requires { slots.old.known ≡ Steady }
    ensures found { IfOk result (λ s. IsTellable B.ByteDisk room.old.limits slots.new room.new s) }
    ensures told { (d : Files) → B.held slots.old.disk ≡ Some d → IsRead room.old.limits d result room.new }
    ensures held { B.held slots.new.disk ≡ B.held slots.old.disk }
    ensures steady { slots.new.known ≡ Steady }
    ensures limits { room.new.limits ≡ room.old.limits }
    ensures looked { HasLooked B.ByteDisk slots.old.disk slots.new.disk }
    ensures faults { B.faults slots.old.disk ≤ B.faults slots.new.disk }
    ensures cause { IfErr result (IsReason (B.faults slots.old.disk) (B.faults slots.new.disk)) }
{
    match sync_both(slots) {
        Ok(()) => match room.read(slots) {
            Ok(value) => {
                if !is_counted(room, &value) {
                    return Err(ReadErr::Refused(Refusal::Record(Part::Ip, value.ip.count)));
                }
                Ok(value)
            }
            Err(why) => Err(why),
        },
        Err(DiskFault) => Err(ReadErr::Disk),
    }
}

// Whether there is an offset for each record that a value counts.
fn is_counted(room: &Room, value: &SlotValue) -> bool
    ensures ip { IsTrue result → length room.now.ip ≡ value.now.ip.count }
    ensures dp { IsTrue result → length room.now.dp ≡ value.now.dp.count }
    ensures both { length room.now.ip ≡ value.now.ip.count → length room.now.dp ≡ value.now.dp.count → IsTrue result }
{
    if room.offsets(Part::Ip).len() as u64 != value.ip.count {
        return false;
    }
    room.offsets(Part::Dp).len() as u64 == value.dp.count
}

// Makes the files of both partitions durable.
fn sync_both<B: ByteDisk>(slots: &mut Slots<B>) -> Result<(), DiskFault>
    ensures synced { OnOk result (AreSynced B.ByteDisk slots.new) }
    ensures over { IsOver slots.old slots.new }
    ensures held { B.held slots.new.disk ≡ B.held slots.old.disk }
    ensures looked { HasLooked B.ByteDisk slots.old.disk slots.new.disk }
    ensures cause { HasCause (B.faults slots.old.disk) (B.faults slots.new.disk) result }
{
    if let Err(fault) = slots.sync(Part::Ip) {
        return Err(fault);
    }
    slots.sync(Part::Dp)
}

// Why no tape was opened, where no header was found.
fn header_fault(why: HeaderErr, before: u64, after: u64) -> OpenErr
    ensures { result ≡ header_reason why before after }
{
    match why {
        HeaderErr::Header => OpenErr::Header,
        HeaderErr::Disk => OpenErr::Disk(Twin { before, after }),
    }
}

// Why no tape was opened, where the records were not read.
fn read_fault(why: ReadErr, before: u64, after: u64) -> OpenErr
    ensures { result ≡ reason_of why before after }
{
    match why {
        ReadErr::Refused(Refusal::Header) => OpenErr::Header,
        ReadErr::Refused(Refusal::Record(part, n)) => OpenErr::Record(part, n),
        ReadErr::Disk => OpenErr::Disk(Twin { before, after }),
    }
}
