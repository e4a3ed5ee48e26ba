//! The volume change reference of a cartridge, and the notes on its partitions.

ghost use Rattle.std.specs.Prelude.{◌≡◌, ◌≤◌, ◌<◌, ◌↔◌, ◌+◌, Some, IfSome, IsTrue};
ghost use Rattle.coherency.specs.declared.Coherency.{Coherency as Values};
ghost use Rattle.mount_recover.specs.Noted.{AreNamed, AreNotes, CanBegin, IsCurrentAs};
ghost use Rattle.mount_recover.specs.Steps.{IsFree, IsSince, IsStep};
ghost use Rattle.mount_recover.specs.declared.notes.Named.{Named as NamedOf};

use crate::labels::failed;
use crate::starts::Start;
use cartridge_meaning::MountErr;
use coherency::{Coherency, decode_note};
use tape_drive::Drive;
use tape_types::{Limits, Note, Part};

/// The volume change reference of a cartridge, and the note on each of its partitions.
#[derive(Clone, Copy)]
pub struct Notes {
    pub vcr: u64,
    pub ip: Note,
    pub dp: Note,
}

/// What coherent notes say of each partition.
#[derive(Clone, Copy)]
pub struct Named {
    pub ip: Coherency,
    pub dp: Coherency,
}

/// Reads the volume change reference and both notes (LTFS 2.4 on volume coherency information).
pub fn read_notes<D: Drive>(drive: &mut D, start: Start) -> Result<Notes, MountErr>
    requires since { IsSince D.Drive start drive.old }
    ensures { IsStep D.Drive start 3 drive.old drive.new AreNotes (λ notes. Unit {0}) IsFree result }
{
    let vcr = match drive.vcr() {
        Ok(vcr) => vcr,
        Err(_) => return Err(failed(drive, start.faults)),
    };
    let ip = match drive.read_note(Part::Ip) {
        Ok(note) => note,
        Err(_) => return Err(failed(drive, start.faults)),
    };
    match drive.read_note(Part::Dp) {
        Ok(dp) => Ok(Notes { vcr, ip, dp }),
        Err(_) => Err(failed(drive, start.faults)),
    }
}

/// What the notes say, where both are coherent and name places at which an index may begin.
pub fn what_is_named(notes: &Notes, uuid: u128, limits: Limits) -> Option<Named>
    ensures some { IfSome result (AreNamed notes.now uuid limits) }
    ensures all { (n : NamedOf) → AreNamed notes.now uuid limits n → result ≡ Some n }
{
    let Some(ip) = values_of(&notes.ip, notes.vcr, uuid) else {
        return None;
    };
    let Some(dp) = values_of(&notes.dp, notes.vcr, uuid) else {
        return None;
    };
    if can_begin(ip.block, limits.cap_ip) && can_begin(dp.block, limits.cap_dp) {
        Some(Named { ip, dp })
    } else {
        None
    }
}

/// The values of a note that has this reference and this UUID.
fn values_of(note: &Note, vcr: u64, uuid: u128) -> Option<Coherency>
    ensures some { IfSome result (IsCurrentAs note.now vcr uuid) }
    ensures all { (values : Values) → IsCurrentAs note.now vcr uuid values → result ≡ Some values }
{
    match note {
        Note::Absent => None,
        Note::Kept(bytes) => match decode_note(bytes) {
            Some(values) => {
                if values.vcr == vcr && values.uuid == uuid {
                    Some(values)
                } else {
                    None
                }
            }
            None => None,
        },
    }
}

/// Whether an index may have its first block there, in a partition of this capacity: behind the labels and a mark.
fn can_begin(block: u64, capacity: u64) -> bool
    ensures { IsTrue result ↔ CanBegin capacity block }
{
    5 <= block && block < capacity
}
