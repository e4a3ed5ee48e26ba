//! Items are written one behind the other.

ghost use Rattle.std.specs.Prelude.{◌≡◌, ◌≤◌, ◌+◌, ℕ, List, [], ◌∷◌, ◌++◌, length, map, OnOk, Some};
ghost use Rattle.tape_layout.specs.IndexConstruct.Blocks.{blocks_of};
ghost use Rattle.std.specs.Int.{div_ceil};
ghost use Rattle.tape_drive.specs.Commands.{HasRoom};
ghost use Rattle.tape_drive.specs.Crashes.{AllowsAll, IsSure};
ghost use Rattle.tape_types.specs.declared.cartridges.Item.{Item};
ghost use Rattle.tape_types.specs.declared.cartridges.Item.TheVariants.{Block, Mark};
ghost use Rattle.tape_types.specs.declared.cartridges.Part.{Part};
ghost use Rattle.tape_types.specs.declared.cartridges.Place.{Place};
ghost use Rattle.tape_types.specs.Cartridges.{capacity};
ghost use Rattle.tape_types.specs.Counts.{HasCause};
ghost use Rattle.format_volume.specs.Volumes.{construct};
ghost use Rattle.format_volume.specs.Writes.{Goes, HasItems, HasPlaces, Writes};

use tape_drive::{Drive, DriveErr};
use tape_layout::index_construct::{blocks, piece};
use tape_types::{Part, Place};

/// Writes a block at the head.
#[tactic(auto, using(crate::proofs::WriteLemmas::one_written, crate::proofs::WriteLemmas::goes))]
fn put_block<D: Drive>(drive: &mut D, bytes: &[u8]) -> Result<(), DriveErr>
    requires all { AllowsAll D.allows }
    requires located { HasRoom (D.head drive.old) (D.limits drive.old) }
    requires some { 1 ≤ length bytes.now }
    requires size { length bytes.now ≤ 1048576 }
    ensures done { (at : Place) → D.head drive.old ≡ Some at
        → OnOk result (Writes D.Drive at.part at.pos (Block bytes.now ∷ []) drive.old drive.new) }
    ensures goes { Goes D.Drive drive.old drive.new }
    ensures cause { HasCause (D.faults drive.old) (D.faults drive.new) result }
{
    match drive.write(bytes) {
        Ok(()) => Ok(()),
        Err(failed) => Err(failed),
    }
}

/// Writes a mark at the head.
#[tactic(auto, using(crate::proofs::WriteLemmas::one_written, crate::proofs::WriteLemmas::goes))]
fn put_mark<D: Drive>(drive: &mut D) -> Result<(), DriveErr>
    requires all { AllowsAll D.allows }
    requires located { HasRoom (D.head drive.old) (D.limits drive.old) }
    ensures done { (at : Place) → D.head drive.old ≡ Some at
        → OnOk result (Writes D.Drive at.part at.pos (Mark ∷ []) drive.old drive.new) }
    ensures goes { Goes D.Drive drive.old drive.new }
    ensures cause { HasCause (D.faults drive.old) (D.faults drive.new) result }
{
    match drive.mark() {
        Ok(()) => Ok(()),
        Err(failed) => Err(failed),
    }
}

/// Writes a block and a mark at the head.
#[tactic(auto, using(crate::proofs::WriteLemmas::then_written, crate::proofs::WriteLemmas::then_goes))]
fn put_marked<D: Drive>(drive: &mut D, bytes: &[u8]) -> Result<(), DriveErr>
    requires all { AllowsAll D.allows }
    requires located { HasPlaces 2 (D.head drive.old) (D.limits drive.old) }
    requires some { 1 ≤ length bytes.now }
    requires size { length bytes.now ≤ 1048576 }
    ensures done { (at : Place) → D.head drive.old ≡ Some at
        → OnOk result (Writes D.Drive at.part at.pos (Block bytes.now ∷ Mark ∷ []) drive.old drive.new) }
    ensures goes { Goes D.Drive drive.old drive.new }
    ensures cause { HasCause (D.faults drive.old) (D.faults drive.new) result }
{
    match put_block(drive, bytes) {
        Ok(()) => put_mark(drive),
        Err(failed) => Err(failed),
    }
}

/// Writes the labels with which a partition begins, a mark behind each.
#[tactic(auto, using(crate::proofs::WriteLemmas::then_written, crate::proofs::WriteLemmas::located, crate::proofs::WriteLemmas::then_goes, crate::proofs::WriteLemmas::looked))]
pub fn write_labels<D: Drive>(
    drive: &mut D,
    part: Part,
    volume: &[u8],
    label: &[u8],
) -> Result<(), DriveErr>
    requires all { AllowsAll D.allows }
    requires room { 4 ≤ capacity part (D.limits drive.old) }
    requires some_volume { 1 ≤ length volume.now }
    requires volume_size { length volume.now ≤ 1048576 }
    requires some_label { 1 ≤ length label.now }
    requires label_size { length label.now ≤ 1048576 }
    ensures done { OnOk result (Writes D.Drive part 0 (Block volume.now ∷ Mark ∷ Block label.now ∷ Mark ∷ [])
        drive.old drive.new) }
    ensures goes { Goes D.Drive drive.old drive.new }
    ensures cause { HasCause (D.faults drive.old) (D.faults drive.new) result }
{
    match drive.locate(Place { part, pos: 0 }) {
        Ok(()) => match put_marked(drive, volume) {
            Ok(()) => put_marked(drive, label),
            Err(failed) => Err(failed),
        },
        Err(failed) => Err(failed),
    }
}

/// Writes all blocks of a document at the head, behind whatever was written from a position on.
fn put_blocks<D: Drive>(drive: &mut D, doc: &[u8], block: u32) -> Result<(), DriveErr>
    requires all { AllowsAll D.allows }
    requires located { HasPlaces (div_ceil (length doc.now) block) (D.head drive.old) (D.limits drive.old) }
    requires some { 1 ≤ block }
    requires size { block ≤ 1048576 }
    ensures done { OnOk result ((part : Part) (pos : ℕ) (more : List Item) (start : D)
        → Writes D.Drive part pos more start drive.old
        → Writes D.Drive part pos (more ++ map Block (blocks_of block doc.now)) start drive.new) }
    ensures goes { Goes D.Drive drive.old drive.new }
    ensures cause { HasCause (D.faults drive.old) (D.faults drive.new) result }
{
    let count = blocks(doc.len() as u64, block);
    let mut done = 0;
    while done < count {
        match put_block(drive, piece(doc, block, done)) {
            Ok(()) => {}
            Err(failed) => return Err(failed),
        }
        done += 1;
    }
    Ok(())
}

/// Writes the mark that opens a construct, and all blocks of its document.
fn put_document<D: Drive>(drive: &mut D, doc: &[u8], block: u32) -> Result<(), DriveErr>
    requires all { AllowsAll D.allows }
    requires located { HasPlaces (1 + div_ceil (length doc.now) block) (D.head drive.old) (D.limits drive.old) }
    requires some { 1 ≤ block }
    requires size { block ≤ 1048576 }
    ensures done { (at : Place) → D.head drive.old ≡ Some at
        → OnOk result (Writes D.Drive at.part at.pos (Mark ∷ map Block (blocks_of block doc.now)) drive.old drive.new) }
    ensures goes { Goes D.Drive drive.old drive.new }
    ensures cause { HasCause (D.faults drive.old) (D.faults drive.new) result }
{
    match put_mark(drive) {
        Ok(()) => put_blocks(drive, doc, block),
        Err(failed) => Err(failed),
    }
}

/// Writes a construct at the head: a document's blocks between two marks.
#[tactic(auto, using(crate::proofs::WriteLemmas::then_written, crate::proofs::WriteLemmas::then_goes))]
fn put_construct<D: Drive>(drive: &mut D, doc: &[u8], block: u32) -> Result<(), DriveErr>
    requires all { AllowsAll D.allows }
    requires located { HasPlaces (2 + div_ceil (length doc.now) block) (D.head drive.old) (D.limits drive.old) }
    requires some { 1 ≤ block }
    requires size { block ≤ 1048576 }
    ensures done { (at : Place) → D.head drive.old ≡ Some at
        → OnOk result (Writes D.Drive at.part at.pos (construct block doc.now) drive.old drive.new) }
    ensures goes { Goes D.Drive drive.old drive.new }
    ensures cause { HasCause (D.faults drive.old) (D.faults drive.new) result }
{
    match put_document(drive, doc, block) {
        Ok(()) => put_mark(drive),
        Err(failed) => Err(failed),
    }
}

/// Writes the index of a partition behind its labels, and makes all that was written durable.
#[tactic(auto, using(crate::proofs::WriteLemmas::flushed, crate::proofs::WriteLemmas::located, crate::proofs::WriteLemmas::then_goes, crate::proofs::WriteLemmas::looked))]
pub fn write_index<D: Drive>(
    drive: &mut D,
    part: Part,
    doc: &[u8],
    block: u32,
) -> Result<(), DriveErr>
    requires all { AllowsAll D.allows }
    requires labels { HasItems 4 part (D.held drive.old) }
    requires room { 6 + div_ceil (length doc.now) block ≤ capacity part (D.limits drive.old) }
    requires some { 1 ≤ block }
    requires size { block ≤ 1048576 }
    ensures done { OnOk result (Writes D.Drive part 4 (construct block doc.now) drive.old drive.new) }
    ensures sure { OnOk result (IsSure (D.held drive.new) (D.leaves drive.new)) }
    ensures goes { Goes D.Drive drive.old drive.new }
    ensures cause { HasCause (D.faults drive.old) (D.faults drive.new) result }
{
    match drive.locate(Place { part, pos: 4 }) {
        Ok(()) => match put_construct(drive, doc, block) {
            Ok(()) => drive.flush(),
            Err(failed) => Err(failed),
        },
        Err(failed) => Err(failed),
    }
}
