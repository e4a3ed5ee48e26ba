//! What stands on both partitions.

ghost use Rattle.std.specs.Prelude.{◌≤◌, ◌+◌, length, IfSome};
ghost use Rattle.content_laws.specs.Readings.{front};
ghost use Rattle.tape_types.specs.Cartridges.{capacity, items_of};
ghost use Rattle.volume_scan.specs.Scans.{IsContent, IsInPlaces};
ghost use Rattle.mount_recover.specs.Lasts.{AreInPlaces, AreScanned, HasSomeLabels, LacksLayout};
ghost use Rattle.mount_recover.specs.Steps.{Blames, IsSince, IsStep};

use crate::labels::failed;
use crate::starts::Start;
use cartridge_meaning::MountErr;
use std::alloc::Global;
use tape_drive::Drive;
use tape_types::{Part, Place};
use volume_scan::{Content, ScanErr, scan};

/// What stands on both partitions of a cartridge.
#[derive(Drop)]
pub struct Scans {
    pub ip: Content,
    pub dp: Content,
}

/// Reads both partitions of a cartridge with labels, the index partition first.
pub fn scan_both<D: Drive>(alloc: Global, drive: &mut D, start: Start) -> Result<Scans, MountErr>
    requires since { IsSince D.Drive start drive.old }
    requires labels { IfSome (D.held drive.old) HasSomeLabels }
    ensures { IsStep D.Drive start ((1 + start.limits.cap_ip) + (1 + start.limits.cap_dp)) drive.old drive.new
        AreScanned (AreInPlaces start.limits) Blames result }
{
    let ip = scan_one(alloc, drive, start, Part::Ip)?;
    let dp = scan_one(alloc, drive, start, Part::Dp)?;
    Ok(Scans { ip, dp })
}

/// Reads a partition with labels.
fn scan_one<D: Drive>(
    alloc: Global,
    drive: &mut D,
    start: Start,
    part: Part,
) -> Result<Content, MountErr>
    requires since { IsSince D.Drive start drive.old }
    requires labels { IfSome (D.held drive.old) (λ c. 4 ≤ length (front (items_of part c))) }
    ensures { IsStep D.Drive start (1 + capacity part start.limits) drive.old drive.new
        (λ found c. IsContent (items_of part c) found) (IsInPlaces (capacity part start.limits)) (LacksLayout part)
        result }
{
    match scan(alloc, drive, part) {
        Ok(found) => Ok(found),
        Err(ScanErr::Layout(pos)) => Err(MountErr::Layout(Place { part, pos })),
        Err(ScanErr::Drive(_)) => Err(failed(drive, start.faults)),
        Err(ScanErr::NoMemory) => Err(MountErr::NoMemory),
    }
}
