//! What is read through a view.

ghost use Rattle.std.specs.Prelude.{◌≡◌, ◌*◌, ◌<◌, ◌≤◌, ◌-◌, ◌^◌, [], ◌∷◌, length, vec_capacity, IfOk, IfSome, None};
ghost use Rattle.std.specs.Prelude.{OnOk};
ghost use Rattle.plain_tree.specs.Calls.{answer};
ghost use Rattle.plain_tree.specs.Paths.{Path};
ghost use Rattle.plain_tree.specs.Refusals.{refusal_of};
ghost use Rattle.plain_tree.specs.declared.calls.Call.TheVariants.{Read};
ghost use Rattle.tape_types.specs.Bounds.{longest_file};
ghost use Rattle.tape_types.specs.Cartridges.{capacity, items_of};
ghost use Rattle.tape_types.specs.Counts.{HasCause};
ghost use Rattle.tape_drive.specs.Looks.{Looks};
ghost use Rattle.extent_map.specs.Cells.{tape_of};
ghost use Rattle.extent_map.specs.Laid.{Room};
ghost use Rattle.extent_map.specs.Replies.{places_in, size_of};
ghost use Rattle.file_tree.specs.Tree.{HasExtents, StandsAt, plain_of, whole};
ghost use Rattle.waiting_reads.specs.Gathering.{read_answer};
ghost use Rattle.generation_view.specs.Reads.{AreBelow, AreFetched, ArePlanned, HasBlocks, IsReadBy, blocks_read};
ghost use Rattle.generation_view.specs.Views.{CanBeRead, capacities, item_ends};

use crate::errors::ReadErr;
use extent_map::Piece;
use file_tree::Tree;
use plain_tree::Answer;
use std::alloc::{AllocError, Global};
use tape_drive::{Drive, DriveErr};
use tape_types::{List, NoMemory, Place, Twin};
use waiting_reads::Reading;

/// The most bytes that a block has.
const LONGEST_BLOCK: usize = 1_048_576;

/// The pieces of a range of a file, up to its end.
fn plan(
    alloc: Global,
    tree: &Tree,
    file: u32,
    offset: u64,
    count: u64,
) -> Result<List<Piece>, NoMemory>
    requires { (room : Room) × HasExtents tree.now.nodes file room }
    ensures { IfOk result (ArePlanned tree.now file offset count) }
{
    // The tree is good.
    let _tree_is_good = tree.count();
    let extents = tree.extents(file);
    let from = offset.min(extents.length());
    let within = count.min(extents.length() - from);
    extents.plan(alloc, from, within)
}

/// Reads a range of a file of a tree.
pub fn read_file<D: Drive>(
    alloc: Global,
    tree: &Tree,
    drive: &mut D,
    file: u32,
    offset: u64,
    count: u64,
) -> Result<Answer, ReadErr>
    requires file { (room : Room) × HasExtents tree.now.nodes file room }
    requires can { CanBeRead (D.held drive.old) (D.limits drive.old) tree.now }
    requires commands { D.commands drive.old ≤ 2 ^ 64 - 1 }
    ensures { (path : Path) → StandsAt tree.now path file
        → refusal_of (plain_of whole tree.now) (Read path offset count) ≡ None
        → IsReadBy D.Drive (length (blocks_read tree.now path offset count))
        (λ c. answer (plain_of (tape_of c) tree.now) (Read path offset count)) drive.old drive.new result }
{
    match plan(alloc, tree, file, offset, count) {
        Ok(pieces) => read_pieces(alloc, drive, pieces),
        Err(NoMemory) => Err(ReadErr::NoMemory),
    }
}

/// Reads the bytes of these pieces, each block once.
fn read_pieces<D: Drive>(
    alloc: Global,
    drive: &mut D,
    pieces: List<Piece>,
) -> Result<Answer, ReadErr>
    requires small { size_of pieces ≤ longest_file }
    requires room { AreBelow (capacities (D.limits drive.old)) (places_in pieces) }
    requires there { IfSome (D.held drive.old) (λ c. AreBelow (item_ends c) (places_in pieces)) }
    requires commands { D.commands drive.old ≤ 2 ^ 64 - 1 }
    ensures { IsReadBy D.Drive (length (places_in pieces)) (λ c. read_answer (tape_of c) pieces) drive.old drive.new
        result }
{
    let faults = drive.faults();
    let Ok(mut reading) = Reading::new(alloc, 0, pieces) else {
        return Err(ReadErr::NoMemory);
    };
    let Ok(places) = reading.places(alloc) else {
        return Err(ReadErr::NoMemory);
    };
    let Ok(mut buffer) = buffer(alloc) else {
        return Err(ReadErr::NoMemory);
    };
    match fetch_all(drive, &mut reading, places.as_slice(), &mut buffer) {
        Ok(()) => Ok(reading.answer()),
        Err(_) => Err(ReadErr::Drive(Twin {
            before: faults,
            after: drive.faults(),
        })),
    }
}

/// Room for the longest block.
fn buffer(alloc: Global) -> Result<Vec<u8>, AllocError>
    ensures { IfOk result (λ v. 1048576 ≤ vec_capacity v) }
{
    let mut bytes = Vec::new(alloc);
    bytes.reserve(LONGEST_BLOCK)?;
    Ok(bytes)
}

/// Reads the blocks at these places, and puts each into a reading.
fn fetch_all<D: Drive>(
    drive: &mut D,
    reading: &mut Reading,
    places: &[Place],
    buffer: &mut Vec<u8>,
) -> Result<(), DriveErr>
    requires room { AreBelow (capacities (D.limits drive.old)) places.now }
    requires there { IfSome (D.held drive.old) (λ c. AreBelow (item_ends c) places.now) }
    requires commands { D.commands drive.old ≤ 2 ^ 64 - 1 }
    requires buffer { 1048576 ≤ vec_capacity buffer.old }
    ensures fetched { OnOk result (AreFetched D.Drive places.now drive.old drive.new reading.old reading.new) }
    ensures looks { Looks D.Drive (2 * length places.now * D.MOST) drive.old drive.new }
    ensures cause { HasCause (D.faults drive.old) (D.faults drive.new) result }
{
    for place in places {
        match fetch(drive, reading, *place, buffer) {
            Ok(()) => {}
            Err(failed) => return Err(failed),
        }
    }
    Ok(())
}

/// Reads what stands at a place, and puts a block's bytes into a reading.
#[tactic(auto, using(tape_drive::proofs::Looking::one_look, tape_drive::proofs::Looking::then_looks, tape_drive::proofs::Looking::more_looks))]
fn fetch<D: Drive>(
    drive: &mut D,
    reading: &mut Reading,
    place: Place,
    buffer: &mut Vec<u8>,
) -> Result<(), DriveErr>
    requires room { place.pos < capacity place.part (D.limits drive.old) }
    requires there { IfSome (D.held drive.old) (λ c. place.pos < length (items_of place.part c)) }
    requires buffer { 1048576 ≤ vec_capacity buffer.old }
    ensures buffer { 1048576 ≤ vec_capacity buffer.new }
    ensures blocks { OnOk result (HasBlocks D.Drive (place ∷ []) drive.old reading.old reading.new) }
    ensures looks { Looks D.Drive (2 * D.MOST) drive.old drive.new }
    ensures cause { HasCause (D.faults drive.old) (D.faults drive.new) result }
{
    match drive.locate(place) {
        Ok(()) => match drive.read(buffer) {
            Ok(_) => {
                reading.fill(place, buffer.as_slice());
                Ok(())
            }
            Err(failed) => Err(failed),
        },
        Err(failed) => Err(failed),
    }
}
