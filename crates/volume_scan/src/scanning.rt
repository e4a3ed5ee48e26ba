//! Reading a partition to its end.

ghost use Rattle.std.specs.Prelude.{◌≡◌, ◌≤◌, ◌+◌, ◌-◌, ◌*◌, ◌^◌, length, Some, vec_capacity, IfOk, IfSome};
ghost use Rattle.content_laws.specs.Readings.{front};
ghost use Rattle.tape_drive.specs.Looks.{Looks};
ghost use Rattle.tape_types.specs.Bounds.{most_positions};
ghost use Rattle.tape_types.specs.Cartridges.{capacity, items_of};
ghost use Rattle.tape_types.specs.declared.cartridges.Cartridge.{Cartridge};
ghost use Rattle.volume_scan.specs.Scans.{HasCounts, IsInPlaces, IsScanned};
ghost use Rattle.volume_scan.specs.Steps.{IsInOrder, IsReadTo};
ghost use Rattle.volume_scan.specs.declared.errors.ScanErr.TheVariants as errors;

use crate::content::Content;
use crate::errors::ScanErr;
use crate::reading::{BEHIND_LABELS, Reading, begin, content_of, ends, go};
use std::alloc::{AllocError, Global};
use tape_drive::Drive;
use tape_types::{Limits, Part, Place, Twin};

/// The most bytes that a block has.
const LONGEST_BLOCK: usize = 1_048_576;

/// Reads what stands on a partition behind its labels, and writes nothing (LTFS 2.4 on partitions).
///
/// # Errors
///
/// `Layout` at the first mark that directly follows one that opens an index, `Drive` where the drive failed, and
/// `NoMemory` where memory was refused.
pub fn scan<D: Drive>(alloc: Global, drive: &mut D, part: Part) -> Result<Content, ScanErr>
    requires labels { IfSome (D.held drive.old) (λ c. 4 ≤ length (front (items_of part c))) }
    ensures told { (c : Cartridge) → D.held drive.old ≡ Some c → IsScanned (items_of part c) result }
    ensures places { IfOk result (IsInPlaces (capacity part (D.limits drive.old))) }
    ensures counts { HasCounts (D.faults drive.old) (D.faults drive.new) result }
    ensures looks { Looks D.Drive ((capacity part (D.limits drive.old) - 3) * D.MOST) drive.old drive.new }
{
    // The number of commands is in its range.
    let _count_is_in_range = drive.commands();
    let before = drive.faults();
    let positions = capacity_of(drive.limits(), part);
    let mut buffer = make_buffer(alloc)?;
    let reading = begin(alloc);
    if positions == BEHIND_LABELS {
        return Ok(content_of(reading));
    }
    match drive.locate(Place {
        part,
        pos: BEHIND_LABELS,
    }) {
        Ok(()) => read_to_end(drive, part, positions, before, &mut buffer, reading),
        Err(_) => Err(failed(before, drive)),
    }
}

/// Reads from the head on, as far as items can be read. `before` is an earlier count of the drive's faults.
fn read_to_end<D: Drive>(
    drive: &mut D,
    part: Part,
    positions: u64,
    before: u64,
    buffer: &mut Vec<u8>,
    mut reading: Reading,
) -> Result<Content, ScanErr>
    requires head { D.head drive.old ≡ Some (record { part = part; pos = reading.pos }) }
    requires positions { positions ≡ capacity part (D.limits drive.old) }
    requires most { positions ≤ most_positions }
    requires before { before ≤ D.faults drive.old }
    requires commands { D.commands drive.old ≤ 2 ^ 64 - 1 }
    requires buffer { 1048576 ≤ vec_capacity buffer.old }
    requires begun { reading.pos ≡ 4 }
    requires order { IsInOrder positions reading }
    requires read { (c : Cartridge) → D.held drive.old ≡ Some c
        → (length (items_of part c) ≤ positions) × IsReadTo (items_of part c) reading }
    ensures told { (c : Cartridge) → D.held drive.old ≡ Some c → IsScanned (items_of part c) result }
    ensures places { IfOk result (IsInPlaces positions) }
    ensures counts { HasCounts before (D.faults drive.new) result }
    ensures looks { Looks D.Drive ((positions - 4) * D.MOST) drive.old drive.new }
{
    while reading.pos < positions {
        let answer = match drive.read(buffer) {
            Ok(answer) => answer,
            Err(_) => return Err(failed(before, drive)),
        };
        if ends(answer) {
            return Ok(content_of(reading));
        }
        match go(answer, &mut reading) {
            Ok(()) => {}
            Err(fault) => return Err(fault),
        }
    }
    Ok(content_of(reading))
}

/// The drive failed since it had this count of faults.
fn failed<D: Drive>(before: u64, drive: &D) -> ScanErr
    ensures { result ≡ errors.Drive (record { before = before; after = D.faults drive.now }) }
{
    ScanErr::Drive(Twin {
        before,
        after: drive.faults(),
    })
}

fn make_buffer(alloc: Global) -> Result<Vec<u8>, AllocError>
    ensures { IfOk result (λ v. 1048576 ≤ vec_capacity v) }
{
    let mut bytes = Vec::new(alloc);
    bytes.reserve(LONGEST_BLOCK)?;
    Ok(bytes)
}

fn capacity_of(limits: Limits, part: Part) -> u64
    ensures { result ≡ capacity part limits }
{
    match part {
        Part::Ip => limits.cap_ip,
        Part::Dp => limits.cap_dp,
    }
}
