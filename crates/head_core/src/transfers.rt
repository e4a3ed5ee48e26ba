//! One locate and one transfer, over any drive.

ghost use Rattle.std.specs.Prelude.{◌≡◌, ◌≤◌, length, vec_capacity, IfSome, Some};
ghost use Rattle.tape_types.specs.declared.cartridges.Cartridge.{Cartridge};
ghost use Rattle.tape_layout.specs.declared.ops.Op.TheVariants as kind;
ghost use Rattle.head_core.specs.Steps.{CanDo, IsBlockRead, IsFoundAt, IsInReach, IsOpStep, IsReadStep, MayDo};

use crate::work::StepDone;
use tape_drive::Drive;
use tape_layout::Op;
use tape_types::{Place, Twin};

/// Reads what stands at a place, and puts a block's bytes in the place of what the buffer had.
pub(crate) fn read_at<D: Drive>(drive: &mut D, place: Place, buffer: &mut Vec<u8>) -> StepDone
    requires place { IsInReach place (D.limits drive.old) (D.held drive.old) }
    requires room { 1048576 ≤ vec_capacity buffer.old }
    ensures room { 1048576 ≤ vec_capacity buffer.new }
    ensures step { IsReadStep D.Drive place result drive.old drive.new }
    ensures block { IsBlockRead result buffer.new.items }
    ensures found { (c : Cartridge) → D.held drive.old ≡ Some c → IsFoundAt place result buffer.new.items c }
{
    let before = drive.faults();
    match drive.locate(place) {
        Ok(()) => match drive.read(buffer) {
            Ok(answer) => StepDone::Read(answer),
            Err(_) => {
                buffer.clear();
                StepDone::Failed(counts(before, drive))
            }
        },
        Err(_) => {
            buffer.clear();
            StepDone::Failed(counts(before, drive))
        }
    }
}

/// Does an op.
pub(crate) fn do_op<D: Drive>(drive: &mut D, op: &Op) -> StepDone
    requires can { CanDo op.now (D.limits drive.old) (D.held drive.old) }
    requires may { MayDo D.Drive op.now drive.old }
    ensures { IsOpStep D.Drive op.now result drive.old drive.new }
{
    match op {
        Op::Put { place, bytes } => write_at(drive, *place, bytes.as_slice()),
        Op::Mark { place } => mark_at(drive, *place),
        Op::Flush { place } => flush(drive, *place),
    }
}

/// Writes a block of 1 to 1,048,576 bytes at a place.
#[tactic(auto, using(crate::proofs::Runs::lost_crashes))]
fn write_at<D: Drive>(drive: &mut D, place: Place, bytes: &[u8]) -> StepDone
    requires place { IsInReach place (D.limits drive.old) (D.held drive.old) }
    requires some { 1 ≤ length bytes.now }
    requires size { length bytes.now ≤ 1048576 }
    requires may { MayDo D.Drive (Op.Put place bytes.now) drive.old }
    ensures { IsOpStep D.Drive (Op.Put place bytes.now) result drive.old drive.new }
{
    let before = drive.faults();
    match drive.locate(place) {
        Ok(()) => match drive.write(bytes) {
            Ok(()) => StepDone::Wrote,
            Err(_) => StepDone::Failed(counts(before, drive)),
        },
        Err(_) => StepDone::Failed(counts(before, drive)),
    }
}

/// Writes a mark at a place.
#[tactic(auto, using(crate::proofs::Runs::lost_crashes))]
fn mark_at<D: Drive>(drive: &mut D, place: Place) -> StepDone
    requires place { IsInReach place (D.limits drive.old) (D.held drive.old) }
    requires may { MayDo D.Drive (Op.Mark place) drive.old }
    ensures { IsOpStep D.Drive (Op.Mark place) result drive.old drive.new }
{
    let before = drive.faults();
    match drive.locate(place) {
        Ok(()) => match drive.mark() {
            Ok(()) => StepDone::Wrote,
            Err(_) => StepDone::Failed(counts(before, drive)),
        },
        Err(_) => StepDone::Failed(counts(before, drive)),
    }
}

/// Makes both partitions durable; the place says at which end that was asked for.
fn flush<D: Drive>(drive: &mut D, place: Place) -> StepDone
    requires may { MayDo D.Drive (Op.Flush place) drive.old }
    ensures { IsOpStep D.Drive (Op.Flush place) result drive.old drive.new }
{
    let before = drive.faults();
    match drive.flush() {
        Ok(()) => StepDone::Flushed,
        Err(_) => StepDone::Failed(counts(before, drive)),
    }
}

/// The drive's count of faults before its failure, and now.
pub(crate) fn counts<D: Drive>(before: u64, drive: &D) -> Twin
    ensures { result ≡ record { before = before; after = D.faults drive.now } }
{
    Twin {
        before,
        after: drive.faults(),
    }
}
