//! How the value of a disk is found, or made on a blank one.
ghost use Rattle.std.specs.Prelude.{◌≡◌, ◌==◌, ◌&&◌, ◌<◌, false, length, IfSome, OnOk};
ghost use Rattle.image_slots.specs.Blank.{IsShort};
ghost use Rattle.image_slots.specs.Calls.{AreMeasured, IsLook, IsMeasured, IsOpening};
ghost use Rattle.image_slots.specs.Pieces.{Any, AreEmpty, IsHeaderSure, IsReady};
ghost use Rattle.image_slots.specs.Slots.{first_value};
ghost use Rattle.image_slots.specs.declared.sides.Side.TheVariants.{First};

use crate::errors::OpenErr;
use crate::making::make;
use crate::sides::{Found, Side, found_in, value_of};
use byte_disk::{ByteDisk, DiskFault, File};

/// Finds the value of a disk, or makes the first one on a blank disk.
pub(crate) fn find<B: ByteDisk>(disk: &mut B) -> Result<Found, OpenErr>
    ensures { IsOpening B.ByteDisk 14 result disk.old disk.new }
{
    match measure(disk, File::Cm) {
        Ok(count) => find_in(disk, count),
        Err(DiskFault) => Err(OpenErr::Disk),
    }
}

// The header is durable as it reads, and has so many bytes.
fn find_in<B: ByteDisk>(disk: &mut B, count: u64) -> Result<Found, OpenErr>
    requires size { IfSome (B.held disk.old) (λ d. length d.cm ≡ count) }
    requires sure { IsHeaderSure B.ByteDisk disk.old }
    ensures { IsOpening B.ByteDisk 12 result disk.old disk.new }
{
    if count > 512 {
        return Err(OpenErr::Header);
    }
    if count < 512 {
        return make_if_blank(disk);
    }
    look(disk)
}

// The header is too short to be one.
fn make_if_blank<B: ByteDisk>(disk: &mut B) -> Result<Found, OpenErr>
    requires size { IfSome (B.held disk.old) (λ d. IsShort d.cm) }
    requires sure { IsHeaderSure B.ByteDisk disk.old }
    ensures { IsOpening B.ByteDisk 12 result disk.old disk.new }
{
    match are_empty(disk) {
        Ok(true) => match make(disk) {
            Ok(()) => Ok(first_found()),
            Err(DiskFault) => Err(OpenErr::Disk),
        },
        Ok(false) => Err(OpenErr::Header),
        Err(DiskFault) => Err(OpenErr::Disk),
    }
}

// What the header says that was just made.
fn first_found() -> Found
    ensures side { result.side ≡ First }
    ensures value { result.value ≡ first_value }
    ensures beside { result.beside ≡ false }
{
    Found {
        side: Side::First,
        value: value_of(1, &[0; 247]),
        beside: false,
    }
}

// Whether both partitions' files are empty.
fn are_empty<B: ByteDisk>(disk: &mut B) -> Result<bool, DiskFault>
    ensures { AreMeasured B.ByteDisk result disk.old disk.new }
{
    match measure(disk, File::Ip) {
        Ok(ip) => match measure(disk, File::Dp) {
            Ok(dp) => Ok(are_zero(ip, dp)),
            Err(fault) => Err(fault),
        },
        Err(fault) => Err(fault),
    }
}

fn are_zero(a: u64, b: u64) -> bool
    ensures { result ≡ ((a == 0) && (b == 0)) }
{
    a == 0 && b == 0
}

// Makes a file durable as it reads, and answers how many bytes it has.
fn measure<B: ByteDisk>(disk: &mut B, file: File) -> Result<u64, DiskFault>
    ensures { IsMeasured B.ByteDisk file result disk.old disk.new }
{
    match disk.sync(file) {
        Ok(()) => disk.length(file),
        Err(fault) => Err(fault),
    }
}

/// Makes the header durable as it reads, and finds its value.
pub(crate) fn settle<B: ByteDisk>(disk: &mut B) -> Result<Found, OpenErr>
    requires { IfSome (B.held disk.old) (λ d. length d.cm ≡ 512) }
    ensures look { IsLook B.ByteDisk 2 result disk.old disk.new }
    ensures sure { OnOk result (IsHeaderSure B.ByteDisk disk.new) }
{
    match disk.sync(File::Cm) {
        Ok(()) => look(disk),
        Err(DiskFault) => Err(OpenErr::Disk),
    }
}

// Finds the value of a header of 512 bytes.
fn look<B: ByteDisk>(disk: &mut B) -> Result<Found, OpenErr>
    requires { IfSome (B.held disk.old) (λ d. length d.cm ≡ 512) }
    ensures { IsLook B.ByteDisk 1 result disk.old disk.new }
{
    let mut header = [0; 512];
    match disk.read(File::Cm, 0, &mut header) {
        Ok(()) => match found_in(&header) {
            Some(found) => Ok(found),
            None => Err(OpenErr::Header),
        },
        Err(DiskFault) => Err(OpenErr::Disk),
    }
}
