//! Whether the partitions end with their last indexes, and what the notes tell.

ghost use Rattle.std.specs.Prelude.{◌≡◌, ◌≤◌, ◌↔◌, ◌+◌, true, length, Some, IfSome, IsTrue};
ghost use Rattle.content_laws.specs.Readings.{front};
ghost use Rattle.tape_drive.specs.declared.drive.Got.TheVariants as found;
ghost use Rattle.tape_types.specs.Cartridges.{capacity, items_of};
ghost use Rattle.mount_recover.specs.Lasts.{EndsAs, IsFront, TellsBoth, TellsStanding};
ghost use Rattle.mount_recover.specs.Noted.{AreNotes};
ghost use Rattle.mount_recover.specs.Steps.{IsFree, IsSince, IsStep};

use crate::choices::{Choice, Standing};
use crate::items::buffer;
use crate::labels::failed;
use crate::notes::Notes;
use crate::scans::Scans;
use crate::starts::Start;
use cartridge_meaning::MountErr;
use coherency::decode_note;
use std::alloc::Global;
use tape_drive::{Drive, Got};
use tape_types::{Limits, Note, Part, Place};

/// Whether each partition ends with its last index, and both notes tell of these.
#[derive(Clone, Copy)]
pub struct Flags {
    pub ip_ends: bool,
    pub dp_ends: bool,
    pub noted: bool,
}

/// Reads what stands behind the fronts, and tells what the notes say of the volume with this UUID.
pub fn read_flags<D: Drive>(
    alloc: Global,
    drive: &mut D,
    start: Start,
    uuid: u128,
    notes: &Notes,
    scans: &Scans,
    choice: &Choice,
) -> Result<Flags, MountErr>
    requires since { IsSince D.Drive start drive.old }
    requires notes { IfSome (D.held drive.old) (AreNotes notes.now) }
    requires ip { IfSome (D.held drive.old) (λ c. IsFront c.ip scans.now.ip.front choice.now.ip) }
    requires dp { IfSome (D.held drive.old) (λ c. IsFront c.dp scans.now.dp.front choice.now.dp) }
    ensures { IsStep D.Drive start (2 + 2) drive.old drive.new
        (λ flags c. ((flags.ip_ends ≡ true) ↔ EndsAs c.ip choice.now.ip)
        × ((flags.dp_ends ≡ true) ↔ EndsAs c.dp choice.now.dp)
        × ((flags.noted ≡ true) ↔ TellsBoth c uuid choice.now.ip choice.now.dp))
        (λ flags. Unit {0}) IsFree result }
{
    let ip_ends = ends_with(alloc, drive, start, Part::Ip, scans.ip.front, choice.ip)?;
    let dp_ends = ends_with(alloc, drive, start, Part::Dp, scans.dp.front, choice.dp)?;
    Ok(Flags {
        ip_ends,
        dp_ends,
        noted: are_noted(notes, uuid, choice),
    })
}

/// Whether a partition with a front of so many items ends with its last index.
fn ends_with<D: Drive>(
    alloc: Global,
    drive: &mut D,
    start: Start,
    part: Part,
    count: u64,
    last: Option<Standing>,
) -> Result<bool, MountErr>
    requires since { IsSince D.Drive start drive.old }
    requires front { IfSome (D.held drive.old) (λ c. IsFront (items_of part c) count last) }
    ensures { IsStep D.Drive start 2 drive.old drive.new
        (λ yes c. (yes ≡ true) ↔ EndsAs (items_of part c) last) (λ yes. Unit {0}) IsFree result }
{
    match last {
        None => Ok(false),
        Some(last) => {
            if last.place.after == count {
                ends_at(alloc, drive, start, part, count)
            } else {
                Ok(false)
            }
        }
    }
}

/// Whether nothing stands behind a front of so many items.
fn ends_at<D: Drive>(
    alloc: Global,
    drive: &mut D,
    start: Start,
    part: Part,
    count: u64,
) -> Result<bool, MountErr>
    requires since { IsSince D.Drive start drive.old }
    requires front { IfSome (D.held drive.old) (λ c. count ≡ length (front (items_of part c))) }
    ensures { IsStep D.Drive start 2 drive.old drive.new
        (λ yes c. (yes ≡ true) ↔ (length (items_of part c) ≡ count)) (λ yes. Unit {0}) IsFree result }
{
    if capacity_of(start.limits, part) <= count {
        return Ok(true);
    }
    let mut buffer = buffer(alloc)?;
    match drive.locate(Place { part, pos: count }) {
        Ok(()) => {}
        Err(_) => return Err(failed(drive, start.faults)),
    }
    match drive.read(&mut buffer) {
        Ok(got) => Ok(is_end(got)),
        Err(_) => Err(failed(drive, start.faults)),
    }
}

fn is_end(got: Got) -> bool
    ensures { IsTrue result ↔ (got ≡ found.End) }
{
    match got {
        Got::End => true,
        _ => false,
    }
}

pub fn capacity_of(limits: Limits, part: Part) -> u64
    ensures { result ≡ capacity part limits }
{
    match part {
        Part::Ip => limits.cap_ip,
        Part::Dp => limits.cap_dp,
    }
}

/// Whether the notes tell of both last indexes.
fn are_noted(notes: &Notes, uuid: u128, choice: &Choice) -> bool
    ensures { IsTrue result ↔ (TellsStanding notes.now.ip notes.now.vcr uuid choice.now.ip
        × TellsStanding notes.now.dp notes.now.vcr uuid choice.now.dp) }
{
    tells(&notes.ip, notes.vcr, uuid, choice.ip) && tells(&notes.dp, notes.vcr, uuid, choice.dp)
}

/// Whether a note tells of the last index of its partition.
fn tells(note: &Note, vcr: u64, uuid: u128, last: Option<Standing>) -> bool
    ensures { IsTrue result ↔ TellsStanding note.now vcr uuid last }
{
    match (note, last) {
        (Note::Kept(bytes), Some(last)) => match decode_note(bytes) {
            Some(values) => {
                values.vcr == vcr
                    && values.uuid == uuid
                    && values.generation == last.generation
                    && values.block == last.place.first
            }
            None => false,
        },
        _ => false,
    }
}
