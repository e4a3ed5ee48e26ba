//! The first header of a disk.
ghost use Rattle.std.specs.Prelude.{◌≡◌, ◌<◌, length};
ghost use Rattle.image_slots.specs.Blank.{IsBegun, IsBodied, IsGated, IsMade, IsShort};
ghost use Rattle.image_slots.specs.Pieces.{AreEmpty, HasFirst, IsPiece, IsReady};

use crate::pieces::put;
use crate::sides::value_of;
use byte_disk::{ByteDisk, DiskFault};

/// Makes the header of a blank disk, over whatever a making that was cut off has left there. Until the last step the
/// header is too short to be one, and then its first slot is durable.
pub(crate) fn make<B: ByteDisk>(disk: &mut B) -> Result<(), DiskFault>
    requires { IsReady B.ByteDisk AreEmpty IsShort disk.old }
    ensures { IsPiece B.ByteDisk HasFirst AreEmpty IsMade 8 result disk.old disk.new }
{
    match write_first(disk) {
        Ok(()) => fill_up(disk),
        Err(fault) => Err(fault),
    }
}

// Zeros up to the second gate, and the first value behind the first gate.
fn write_first<B: ByteDisk>(disk: &mut B) -> Result<(), DiskFault>
    requires { IsReady B.ByteDisk AreEmpty IsShort disk.old }
    ensures { IsPiece B.ByteDisk HasFirst AreEmpty IsBodied 4 result disk.old disk.new }
{
    match clear(disk) {
        Ok(()) => write_body(disk),
        Err(fault) => Err(fault),
    }
}

// The first gate, and zeros to the end.
fn fill_up<B: ByteDisk>(disk: &mut B) -> Result<(), DiskFault>
    requires { IsReady B.ByteDisk AreEmpty IsBodied disk.old }
    ensures { IsPiece B.ByteDisk HasFirst AreEmpty IsMade 4 result disk.old disk.new }
{
    match open_first(disk) {
        Ok(()) => write_rest(disk),
        Err(fault) => Err(fault),
    }
}

fn clear<B: ByteDisk>(disk: &mut B) -> Result<(), DiskFault>
    requires { IsReady B.ByteDisk AreEmpty IsShort disk.old }
    ensures { IsPiece B.ByteDisk HasFirst AreEmpty IsBegun 2 result disk.old disk.new }
{
    put(disk, 0, &[0; 257])
}

fn write_body<B: ByteDisk>(disk: &mut B) -> Result<(), DiskFault>
    requires { IsReady B.ByteDisk AreEmpty IsBegun disk.old }
    ensures { IsPiece B.ByteDisk HasFirst AreEmpty IsBodied 2 result disk.old disk.new }
{
    put(disk, 1, &value_of(1, &[0; 247]))
}

fn open_first<B: ByteDisk>(disk: &mut B) -> Result<(), DiskFault>
    requires { IsReady B.ByteDisk AreEmpty IsBodied disk.old }
    ensures { IsPiece B.ByteDisk HasFirst AreEmpty IsGated 2 result disk.old disk.new }
{
    put(disk, 0, &[1])
}

fn write_rest<B: ByteDisk>(disk: &mut B) -> Result<(), DiskFault>
    requires { IsReady B.ByteDisk AreEmpty IsGated disk.old }
    ensures { IsPiece B.ByteDisk HasFirst AreEmpty IsMade 2 result disk.old disk.new }
{
    put(disk, 257, &[0; 255])
}
