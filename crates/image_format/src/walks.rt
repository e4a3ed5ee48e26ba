// A walk over the heads of a partition's records.
ghost use Rattle.std.specs.Prelude.{◌≡◌, ◌≤◌, ◌+◌, ◌-◌, ◌^◌, ◌/◌, [], min, length, vec_len, vec_capacity, Some, IfErr};
ghost use Rattle.std.specs.Prelude.{OnOk, ◌≢◌};
ghost use Rattle.byte_disk.specs.Files.{Files, bytes_of};
ghost use Rattle.image_slots.specs.State.{file_of};
ghost use Rattle.image_format.specs.Looks.{Looks};
ghost use Rattle.image_format.specs.declared.refusal.WalkErr.TheVariants as errors;
ghost use Rattle.image_format.specs.Walks.{HasReason, HasWalked, IsPiece, IsWalked, Shows};

use crate::refusal::WalkErr;
use crate::values::Half;
use crate::window::{Window, fill, width_at};
use byte_disk::{ByteDisk, DiskFault};
use image_slots::Slots;
use tape_types::Part;

/// Reads the heads of the records that count, and keeps where each begins.
pub(crate) fn walk<B: ByteDisk>(
    offsets: &mut Vec<u64>,
    window: &mut Window,
    slots: &mut Slots<B>,
    part: Part,
    half: &Half,
) -> Result<(), WalkErr>
    requires room { half.now.count ≤ vec_capacity offsets.old }
    requires size { length window.old.bytes.items ≡ 65536 }
    ensures room { vec_capacity offsets.new ≡ vec_capacity offsets.old }
    ensures size { length window.new.bytes.items ≡ 65536 }
    ensures told { (d : Files) → B.held slots.old.disk ≡ Some d
        → IsWalked half.now (bytes_of (file_of part) d) result offsets.new.items }
    ensures looks { Looks B.ByteDisk (min half.now.count (half.now.end / 65532) + 2) slots.old slots.new }
    ensures commands { (d : Files) → B.held slots.old.disk ≡ Some d
        → B.commands slots.new.disk ≤ B.commands slots.old.disk + length (bytes_of (file_of part) d) / 65532 + 2 }
    ensures cause { IfErr result (HasReason (B.faults slots.old.disk) (B.faults slots.new.disk)) }
{
    let Half { count, end, .. } = *half;
    offsets.clear();
    match slots.length(part) {
        Ok(length) => match walk_within(offsets, window, slots, part, count, end.min(length)) {
            Ok(at) => ended(at, count, end),
            Err(fault) => Err(fault),
        },
        Err(DiskFault) => Err(WalkErr::Disk),
    }
}

// The records fill the bytes up to the end, or the one behind them is at fault.
fn ended(at: u64, count: u64, end: u64) -> Result<(), WalkErr>
    ensures ok { OnOk result (at ≡ end) }
    ensures err { IfErr result (λ fault. (fault ≡ errors.Record count) × (at ≢ end)) }
{
    if at == end {
        return Ok(());
    }
    Err(WalkErr::Record(count))
}

// The same up to an end that lies within the file. Answers where the records end.
fn walk_within<B: ByteDisk>(
    offsets: &mut Vec<u64>,
    window: &mut Window,
    slots: &mut Slots<B>,
    part: Part,
    count: u64,
    end: u64,
) -> Result<u64, WalkErr>
    requires none { offsets.old.items ≡ [] }
    requires len { vec_len offsets.old ≡ 0 }
    requires room { count ≤ vec_capacity offsets.old }
    requires size { length window.old.bytes.items ≡ 65536 }
    requires within { (d : Files) → B.held slots.old.disk ≡ Some d → end ≤ length (bytes_of (file_of part) d) }
    ensures room { vec_capacity offsets.new ≡ vec_capacity offsets.old }
    ensures size { length window.new.bytes.items ≡ 65536 }
    ensures told { (d : Files) → B.held slots.old.disk ≡ Some d
        → HasWalked count end (bytes_of (file_of part) d) result offsets.new.items }
    ensures looks { Looks B.ByteDisk (min count (end / 65532) + 1) slots.old slots.new }
    ensures cause { IfErr result (HasReason (B.faults slots.old.disk) (B.faults slots.new.disk)) }
{
    match fill(window, slots, part, 0, end) {
        Ok(()) => walk_on(offsets, window, slots, part, count, end),
        Err(DiskFault) => Err(WalkErr::Disk),
    }
}

// The same with the first piece in memory.
fn walk_on<B: ByteDisk>(
    offsets: &mut Vec<u64>,
    window: &mut Window,
    slots: &mut Slots<B>,
    part: Part,
    count: u64,
    end: u64,
) -> Result<u64, WalkErr>
    requires none { offsets.old.items ≡ [] }
    requires len { vec_len offsets.old ≡ 0 }
    requires room { count ≤ vec_capacity offsets.old }
    requires piece { IsPiece end window.old }
    requires from { window.old.from ≡ 0 }
    requires commands { B.commands slots.old.disk ≤ 2 ^ 64 - 1 }
    requires within { (d : Files) → B.held slots.old.disk ≡ Some d → end ≤ length (bytes_of (file_of part) d) }
    requires shows { (d : Files) → B.held slots.old.disk ≡ Some d → Shows (bytes_of (file_of part) d) window.old }
    ensures room { vec_capacity offsets.new ≡ vec_capacity offsets.old }
    ensures size { length window.new.bytes.items ≡ 65536 }
    ensures told { (d : Files) → B.held slots.old.disk ≡ Some d
        → HasWalked count end (bytes_of (file_of part) d) result offsets.new.items }
    ensures looks { Looks B.ByteDisk (min count (end / 65532)) slots.old slots.new }
    ensures cause { IfErr result (HasReason (B.faults slots.old.disk) (B.faults slots.new.disk)) }
{
    let mut at = 0;
    for number in 0..count {
        let found = match width_at(window, slots, part, at, end) {
            Ok(found) => found,
            Err(DiskFault) => return Err(WalkErr::Disk),
        };
        let Some(width) = found else {
            return Err(WalkErr::Record(number));
        };
        offsets.push_reserved(at);
        at += width;
    }
    Ok(at)
}
