//! The notes of a close.

ghost use Rattle.std.specs.Prelude.{◌≡◌};
ghost use Rattle.volume_core.specs.Commands.{IsDpNoteWritten, IsNoteWritten, WritesNotes, WritesNotesIf, values_of};
ghost use Rattle.volume_core.specs.Doing.{lasts_in};
ghost use Rattle.volume_core.specs.May.{MayWriteDpNote, MayWriteNote, MayWriteNotes};

use coherency::{Coherency, encode_note};
use head_core::Head;
use tape_drive::Drive;
use tape_types::{Part, Twin};

/// The volume, its newest generation, and the first blocks of the last indexes of both partitions, where the data
/// partition has one.
#[derive(Clone, Copy)]
pub struct LastIndexes {
    pub uuid: u128,
    pub generation: u64,
    pub on_ip: u64,
    pub on_dp: Option<u64>,
}

/// Writes the notes where they are due.
pub fn write_notes_if<D: Drive>(
    head: &mut Head<D>,
    last: LastIndexes,
    due: bool,
) -> Result<(), Twin>
    requires may { MayWriteNotes D.Drive (lasts_in last) head.old.drive }
    ensures { WritesNotesIf D.Drive (lasts_in last) due head.old.drive head.new.drive result }
{
    if !due {
        return Ok(());
    }
    write_notes(head, last)
}

/// Reads the volume change reference, and writes the note of the index partition and that of the data partition.
fn write_notes<D: Drive>(head: &mut Head<D>, last: LastIndexes) -> Result<(), Twin>
    requires may { MayWriteNotes D.Drive (lasts_in last) head.old.drive }
    ensures { WritesNotes D.Drive (lasts_in last) head.old.drive head.new.drive result }
{
    let vcr = match head.vcr() {
        Ok(vcr) => vcr,
        Err(counts) => return Err(counts),
    };
    match write_note(head, Part::Ip, values(last, vcr, last.on_ip)) {
        Ok(()) => write_dp_note(head, last, vcr),
        Err(counts) => Err(counts),
    }
}

/// Writes the note of the data partition, where that has an index.
fn write_dp_note<D: Drive>(head: &mut Head<D>, last: LastIndexes, vcr: u64) -> Result<(), Twin>
    requires may { MayWriteDpNote D.Drive (lasts_in last) vcr head.old.drive }
    ensures { IsDpNoteWritten D.Drive (lasts_in last) vcr head.old.drive head.new.drive result }
{
    match last.on_dp {
        Some(block) => write_note(head, Part::Dp, values(last, vcr, block)),
        None => Ok(()),
    }
}

/// What a note tells of the last index of a partition, with the first block of that.
fn values(last: LastIndexes, vcr: u64, block: u64) -> Coherency
    ensures { result ≡ values_of (lasts_in last) vcr block }
{
    Coherency {
        vcr,
        generation: last.generation,
        block,
        uuid: last.uuid,
    }
}

/// Writes a note with these values on a partition.
fn write_note<D: Drive>(head: &mut Head<D>, part: Part, values: Coherency) -> Result<(), Twin>
    requires may { MayWriteNote D.Drive part values head.old.drive }
    ensures { IsNoteWritten D.Drive part values head.old.drive head.new.drive result }
{
    let note = encode_note(&values);
    head.write_note(part, &note)
}
