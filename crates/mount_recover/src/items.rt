//! Items at the beginning of a partition.

ghost use Rattle.std.specs.Prelude.{◌≡◌, ◌≢◌, ◌≤◌, ◌<◌, ◌+◌, ◌*◌, ℕ, List, true, length, Some, vec_capacity, IfOk};
ghost use Rattle.std.specs.Prelude.{IfSome};
ghost use Rattle.std.specs.Prelude.{IfNone, MatchBool, MatchOption};
ghost use Rattle.tape_drive.specs.Commands.{item_at};
ghost use Rattle.tape_drive.specs.Looks.{Looks};
ghost use Rattle.tape_types.specs.Cartridges.{capacity, items_of, next};
ghost use Rattle.tape_types.specs.declared.cartridges.Item.TheVariants as items;
ghost use Rattle.tape_types.specs.Counts.{HasCause};
ghost use Rattle.tape_types.specs.declared.cartridges.Cartridge.{Cartridge};
ghost use Rattle.vol_label.specs.declared.Vol1.{Vol1};
ghost use Rattle.ltfs_label.specs.Values.{LabelValue, label_of};
ghost use Rattle.ltfs_label.specs.Grammar.{LabelText};
ghost use Rattle.cartridge_meaning.specs.Labels.{HasLabel, HasRecord, HasSomeLabel, HasSomeRecord, IsMarkedBlock};
ghost use Rattle.mount_recover.specs.Labels.{IsSpelled, IsStopped, is_block, is_mark, is_no_memory};

use ltfs_label::{Label, LabelErr, read_label};
use std::alloc::{AllocError, Global};
use tape_drive::{Drive, DriveErr, Got};
use tape_types::{NoMemory, Part, Place};
use vol_label::{Vol1, decode};

/// The most bytes that a block has.
const LONGEST_BLOCK: usize = 1_048_576;

/// Why the items could not be read.
#[derive(Clone, Copy)]
pub enum Stop {
    Drive,
    NoMemory,
}

/// Room for two items.
#[derive(Drop)]
pub struct Buffers {
    pub block: Vec<u8>,
    pub mark: Vec<u8>,
    ghost block_room: { 1048576 ≤ vec_capacity block },
    ghost mark_room: { 1048576 ≤ vec_capacity mark },
}

/// Room for the longest block.
pub fn buffer(alloc: Global) -> Result<Vec<u8>, AllocError>
    ensures { IfOk result (λ v. 1048576 ≤ vec_capacity v) }
{
    let mut bytes = Vec::new(alloc);
    bytes.reserve(LONGEST_BLOCK)?;
    Ok(bytes)
}

impl Buffers {
    pub fn new(alloc: Global) -> Result<Buffers, AllocError> {
        Ok(Buffers {
            block: buffer(alloc)?,
            mark: buffer(alloc)?,
        })
    }
}

/// Whether a block stands at a place. Then its bytes are in the buffer, and the head stands
/// behind it.
#[tactic(auto, using(crate::proofs::ReadLemmas::block_is, crate::proofs::ReadLemmas::no_block, tape_drive::proofs::Looking::one_look, tape_drive::proofs::Looking::then_looks, tape_drive::proofs::Looking::more_looks,))]
fn read_block<D: Drive>(drive: &mut D, place: Place, buffer: &mut Vec<u8>) -> Result<bool, DriveErr>
    requires within { IfSome (D.held drive.old) (λ c. place.pos ≤ length (items_of place.part c)) }
    requires room { place.pos < capacity place.part (D.limits drive.old) }
    requires buffer { 1048576 ≤ vec_capacity buffer.old }
    ensures buffer { 1048576 ≤ vec_capacity buffer.new }
    ensures told { IfOk result (λ yes. (c : Cartridge) → D.held drive.old ≡ Some c
        → MatchBool yes (item_at place c ≡ Some (items.Block buffer.new.items))
        ((bytes : List ℕ) → item_at place c ≢ Some (items.Block bytes))) }
    ensures head { IfOk result (λ yes. yes ≡ true → D.head drive.new ≡ Some (next place)) }
    ensures looks { Looks D.Drive (2 * D.MOST) drive.old drive.new }
    ensures cause { HasCause (D.faults drive.old) (D.faults drive.new) result }
{
    match drive.locate(place) {
        Ok(()) => match drive.read(buffer) {
            Ok(got) => Ok(is_block(got)),
            Err(failed) => Err(failed),
        },
        Err(failed) => Err(failed),
    }
}

fn is_block(got: Got) -> bool
    ensures { result ≡ is_block got }
{
    match got {
        Got::Block => true,
        _ => false,
    }
}

fn is_mark(got: Got) -> bool
    ensures { result ≡ is_mark got }
{
    match got {
        Got::Mark => true,
        _ => false,
    }
}

/// Whether a file mark stands at the head.
#[tactic(auto, using(crate::proofs::ReadLemmas::mark_is, crate::proofs::ReadLemmas::no_mark, tape_drive::proofs::Looking::one_look,))]
fn read_mark<D: Drive>(drive: &mut D, buffer: &mut Vec<u8>) -> Result<bool, DriveErr>
    requires located { (at : Place) × (D.head drive.old ≡ Some at) }
    requires buffer { 1048576 ≤ vec_capacity buffer.old }
    ensures buffer { 1048576 ≤ vec_capacity buffer.new }
    ensures told { IfOk result (λ yes. (at : Place) (c : Cartridge) → D.head drive.old ≡ Some at
        → D.held drive.old ≡ Some c → MatchBool yes (item_at at c ≡ Some items.Mark) (item_at at c ≢ Some items.Mark)) }
    ensures looks { Looks D.Drive D.MOST drive.old drive.new }
    ensures cause { HasCause (D.faults drive.old) (D.faults drive.new) result }
{
    match drive.read(buffer) {
        Ok(got) => Ok(is_mark(got)),
        Err(failed) => Err(failed),
    }
}

/// Whether a block stands at a place and a file mark behind it. Then the block's bytes are in
/// its buffer.
fn read_marked<D: Drive>(
    drive: &mut D,
    place: Place,
    buffers: &mut Buffers,
) -> Result<bool, DriveErr>
    requires within { IfSome (D.held drive.old) (λ c. place.pos ≤ length (items_of place.part c)) }
    requires room { place.pos < capacity place.part (D.limits drive.old) }
    ensures told { IfOk result (λ yes. (c : Cartridge) → D.held drive.old ≡ Some c
        → MatchBool yes (IsMarkedBlock (items_of place.part c) place.pos buffers.new.block.items)
        ((bytes : List ℕ) → ¬ IsMarkedBlock (items_of place.part c) place.pos bytes)) }
    ensures looks { Looks D.Drive (3 * D.MOST) drive.old drive.new }
    ensures cause { HasCause (D.faults drive.old) (D.faults drive.new) result }
{
    match read_block(drive, place, &mut buffers.block) {
        Ok(true) => read_mark(drive, &mut buffers.mark),
        Ok(false) => Ok(false),
        Err(failed) => Err(failed),
    }
}

/// The VOL1 record with which a partition begins.
pub fn read_record<D: Drive>(
    drive: &mut D,
    part: Part,
    buffers: &mut Buffers,
) -> Result<Option<Vol1>, DriveErr>
    requires room { 4 ≤ capacity part (D.limits drive.old) }
    ensures told { IfOk result (λ found. (c : Cartridge) → D.held drive.old ≡ Some c
        → MatchOption found (¬ HasSomeRecord (items_of part c)) (HasRecord (items_of part c))) }
    ensures looks { Looks D.Drive (3 * D.MOST) drive.old drive.new }
    ensures cause { HasCause (D.faults drive.old) (D.faults drive.new) result }
{
    match read_marked(drive, Place { part, pos: 0 }, buffers) {
        Ok(true) => match decode(buffers.block.as_slice()) {
            Ok(record) => Ok(Some(record)),
            Err(_) => Ok(None),
        },
        Ok(false) => Ok(None),
        Err(failed) => Err(failed),
    }
}

fn is_no_memory(fault: LabelErr) -> bool
    ensures { result ≡ is_no_memory fault }
{
    match fault {
        LabelErr::NoMemory => true,
        _ => false,
    }
}

/// The label that a text is, where it is one.
#[tactic(auto, using(crate::proofs::ReadLemmas::not_given))]
fn label_in(alloc: Global, text: &[u8]) -> Result<Option<Label>, NoMemory>
    ensures { IfOk result (λ found. MatchOption found ((v : LabelValue) → LabelText text.now v → ⊥)
        (λ label. LabelText text.now (label_of label))) }
{
    match read_label(alloc, text) {
        Ok(label) => Ok(Some(label)),
        Err(fault) => {
            if is_no_memory(fault) {
                Err(NoMemory)
            } else {
                Ok(None)
            }
        }
    }
}

/// The label behind the VOL1 record of a partition, of which two items are there at least.
pub fn read_label_of<D: Drive>(
    alloc: Global,
    drive: &mut D,
    part: Part,
    buffers: &mut Buffers,
) -> Result<Option<Label>, Stop>
    requires within { IfSome (D.held drive.old) (λ c. 2 ≤ length (items_of part c)) }
    requires room { 4 ≤ capacity part (D.limits drive.old) }
    ensures told { IfOk result (λ found. (c : Cartridge) → D.held drive.old ≡ Some c
        → MatchOption found (¬ HasSomeLabel (items_of part c)) (λ label. HasLabel (items_of part c) (label_of label))) }
    ensures spelled { IfOk result (λ found. IfSome found IsSpelled) }
    ensures looks { Looks D.Drive (3 * D.MOST) drive.old drive.new }
    ensures cause { IsStopped (D.faults drive.old) (D.faults drive.new) result }
{
    match read_marked(drive, Place { part, pos: 2 }, buffers) {
        Ok(true) => match label_in(alloc, buffers.block.as_slice()) {
            Ok(found) => Ok(found),
            Err(NoMemory) => Err(Stop::NoMemory),
        },
        Ok(false) => Ok(None),
        Err(_) => Err(Stop::Drive),
    }
}
