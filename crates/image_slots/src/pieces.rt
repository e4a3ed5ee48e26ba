//! The commands of a set, two at a time: each ends with the header durable.
ghost use Rattle.std.specs.Prelude.{◌≡◌, ◌≢◌, ◌≤◌, ◌<◌, ◌+◌, ◌^◌, ◌==◌, ℕ, List, Bool, true, length, IfSome};
ghost use Rattle.image_slots.specs.Calls.{IsClosedBeside, IsPrepared};
ghost use Rattle.image_slots.specs.Pieces.{Any, HasOne, IsPiece, IsPut, IsReady};
ghost use Rattle.image_slots.specs.Sides.{IsRead, other_of};
ghost use Rattle.image_slots.specs.Slots.{serial_of};

use crate::sides::Side;
use byte_disk::{ByteDisk, DiskFault, File};

/// Puts a value into the slot that doesn't count, beside the one on this side that does, and lets it count.
pub(crate) fn commit<B: ByteDisk>(
    disk: &mut B,
    side: Side,
    beside: bool,
    value: &[u8; 255],
) -> Result<(), DiskFault>
    requires size { IfSome (B.held disk.old) (λ d. length d.cm ≡ 512) }
    ensures { (old : List ℕ) → serial_of old < serial_of value.now
        → IsReady B.ByteDisk Any (IsRead side beside old) disk.old
        → IsPiece B.ByteDisk (HasOne old value.now) Any (IsRead (other_of side) true value.now) 6 result
        disk.old disk.new }
{
    match close_gate(disk, side, beside) {
        Ok(()) => match write_value(disk, side, value) {
            Ok(()) => open_gate(disk, side),
            Err(fault) => Err(fault),
        },
        Err(fault) => Err(fault),
    }
}

/// Closes the gate of the slot that doesn't count, where it is open. One that is closed isn't written: a crash within
/// that write could open it.
fn close_gate<B: ByteDisk>(disk: &mut B, side: Side, beside: bool) -> Result<(), DiskFault>
    requires size { IfSome (B.held disk.old) (λ d. length d.cm ≡ 512) }
    ensures size { IfSome (B.held disk.new) (λ d. length d.cm ≡ 512) }
    ensures piece { (old new : List ℕ) → IsReady B.ByteDisk Any (IsRead side beside old) disk.old
        → IsPiece B.ByteDisk (HasOne old new) Any (IsClosedBeside side old) 2 result disk.old disk.new }
{
    if beside {
        return put(disk, side.other().gate(), &[0]);
    }
    Ok(())
}

/// Writes the value behind that gate, which is durably closed.
fn write_value<B: ByteDisk>(disk: &mut B, side: Side, value: &[u8; 255]) -> Result<(), DiskFault>
    requires size { IfSome (B.held disk.old) (λ d. length d.cm ≡ 512) }
    ensures size { IfSome (B.held disk.new) (λ d. length d.cm ≡ 512) }
    ensures piece { (old : List ℕ) → IsReady B.ByteDisk Any (IsClosedBeside side old) disk.old
        → IsPiece B.ByteDisk (HasOne old value.now) Any (IsPrepared side old value.now) 2 result disk.old disk.new }
{
    put(disk, side.other().gate() + 1, value)
}

/// Opens that gate, behind which the value is durable.
fn open_gate<B: ByteDisk>(disk: &mut B, side: Side) -> Result<(), DiskFault>
    requires size { IfSome (B.held disk.old) (λ d. length d.cm ≡ 512) }
    ensures { (old new : List ℕ) → serial_of old < serial_of new
        → IsReady B.ByteDisk Any (IsPrepared side old new) disk.old
        → IsPiece B.ByteDisk (HasOne old new) Any (IsRead (other_of side) true new) 2 result disk.old disk.new }
{
    put(disk, side.other().gate(), &[1])
}

/// Writes bytes to the header and makes it durable.
pub(crate) fn put<B: ByteDisk>(disk: &mut B, at: u64, bytes: &[u8]) -> Result<(), DiskFault>
    requires within { IfSome (B.held disk.old) (λ d. at ≤ length d.cm) }
    requires end { at + length bytes.now ≤ 512 }
    ensures { IsPut B.ByteDisk at bytes.now result disk.old disk.new }
{
    match disk.write(File::Cm, at, bytes) {
        Ok(()) => disk.sync(File::Cm),
        Err(fault) => Err(fault),
    }
}
