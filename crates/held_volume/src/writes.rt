//! Writes of bytes into a file.

ghost use Rattle.std.specs.Prelude.{◌≡◌, ◌+◌, ◌≤◌, ℕ, Bool, List, [], None, max, unwrap_or, length, OnErr};
ghost use Rattle.extent_map.specs.Cells.{Tape};
ghost use Rattle.extent_map.specs.Laid.{Room};
ghost use Rattle.tape_layout.specs.PlacementPolicy.Computed.{chooses_ip as chosen_for};
ghost use Rattle.plain_tree.specs.Paths as paths;
ghost use Rattle.plain_tree.specs.Paths.{Path};
ghost use Rattle.plain_tree.specs.Refusals.{lock_refusal, refusal_of};
ghost use Rattle.plain_tree.specs.Tree.{cells_at};
ghost use Rattle.file_tree.specs.Edits.{CanWrite};
ghost use Rattle.file_tree.specs.Tree.{HasExtents, StandsAt, plain_of, whole};
ghost use Rattle.space_laws.specs.Standing.{Given, Standing};
ghost use Rattle.held_volume.specs.Applied.{IsApplied, IsChange, IsUnchanged, LeavesAll};
ghost use Rattle.held_volume.specs.Steps.{IsSameTree, IsWrite};
ghost use Rattle.held_volume.specs.Stocks.{IsStock, stocked};

use crate::volume_sync::Frame;
use file_tree::{Tree, long_file_at};
use index_model::Policy;
use plain_tree::{Call, Refusal};
use tape_layout::placement::chooses_ip;
use tape_layout::{AdmitErr, Layout};
use tape_types::{Extent, Moment, NoMemory, Text};

/// Puts bytes into a file from an offset on, unless that is refused: they are admitted for new blocks.
pub fn write(
    tree: &mut Tree,
    layout: &mut Layout,
    frame: &mut Frame,
    path: &[Text],
    offset: u64,
    bytes: &[u8],
    at: Moment,
) -> Result<Option<Refusal>, AdmitErr>
    requires { lock_refusal tree.old.lock (Call.Write path.now offset bytes.now) ≡ None }
    ensures applied { (early : Tape) (g : Given) (on : Bool) (st : Standing)
        → IsStock early g on st (stocked tree.old layout.old frame.old)
        → IsApplied early g on st (Call.Write path.now offset bytes.now) at (stocked tree.old layout.old frame.old)
        (stocked tree.new layout.new frame.new) result }
    ensures leaves { LeavesAll (stocked tree.old layout.old frame.old) (stocked tree.new layout.new frame.new) result }
    ensures generation { frame.new.generation ≡ frame.old.generation }
{
    let file = match long_file_at(tree, path, offset, bytes.len() as u64) {
        Ok(file) => file,
        Err(refusal) => return Ok(Some(refusal)),
    };
    match write_at(tree, layout, frame, path, file, offset, bytes, at) {
        Ok(()) => Ok(None),
        Err(e) => Err(e),
    }
}

/// Puts bytes into a file, which has this number, from an offset on: they are admitted for new blocks.
fn write_at(
    tree: &mut Tree,
    layout: &mut Layout,
    frame: &mut Frame,
    path: &[Text],
    file: u32,
    offset: u64,
    bytes: &[u8],
    at: Moment,
) -> Result<(), AdmitErr>
    requires free { refusal_of (plain_of whole tree.old) (Call.Write path.now offset bytes.now) ≡ None }
    requires stands { StandsAt tree.old path.now file }
    ensures applied { (early : Tape) (g : Given) (on : Bool) (st : Standing)
        → IsStock early g on st (stocked tree.old layout.old frame.old)
        → IsChange early g on st (Call.Write path.now offset bytes.now) at (stocked tree.old layout.old frame.old)
        (stocked tree.new layout.new frame.new) result }
    ensures err { OnErr result (IsUnchanged (stocked tree.old layout.old frame.old)
        (stocked tree.new layout.new frame.new)) }
    ensures generation { frame.new.generation ≡ frame.old.generation }
{
    if bytes.is_empty() {
        return Ok(());
    }
    // The ends are near enough, and the ops stand before them.
    let _ends = layout.ends();
    let reserved = tree.reserve_extent(file);
    // The tree is good.
    let _count = tree.count();
    if reserved.is_err() {
        return Err(AdmitErr::NoMemory);
    }
    let end = offset + bytes.len() as u64;
    let wanted = wants_ip(tree, &frame.carried.policy, path, file, end);
    let place = match layout.admit_data(wanted, bytes) {
        Ok(place) => place,
        Err(e) => return Err(e),
    };
    let new = Extent {
        offset,
        block: place.pos,
        count: bytes.len() as u64,
        byte: 0,
        part: place.part,
    };
    overlay(tree, file, new, at);
    frame.changed = true;
    Ok(())
}

/// Whether the policy wants a file on the index partition once it has bytes up to an offset.
fn wants_ip(tree: &Tree, policy: &Option<Policy>, path: &[Text], file: u32, end: u64) -> bool
    requires file { (room : Room) × HasExtents tree.now.nodes file room }
    requires stands { StandsAt tree.now path.now file }
    ensures { (tape : Tape) → result ≡ chosen_for policy.now (unwrap_or (paths.last_name path.now) [])
        (max (length (cells_at (plain_of tape tree.now).nodes path.now)) end) }
{
    // The tree is good.
    let _count = tree.count();
    chooses_ip(
        policy,
        last_name(path),
        tree.extents(file).length().max(end),
    )
}

/// The last name of a path, and no text where it has none.
fn last_name(path: &[Text]) -> &str
    ensures { result.now ≡ unwrap_or (paths.last_name path.now) [] }
{
    match path.last() {
        Some(name) => name.as_str(),
        None => "",
    }
}

/// Lets bytes of a file lie in an extent. Takes no memory.
fn overlay(tree: &mut Tree, file: u32, new: Extent, at: Moment)
    requires { CanWrite tree.old file new }
    ensures { (path : Path) (bytes : List ℕ) → StandsAt tree.old path file
        → refusal_of (plain_of whole tree.old) (Call.Write path new.offset bytes) ≡ None → 1 ≤ length bytes
        → IsWrite path new bytes at tree.old tree.new }
{
    // The tree is good.
    let _count = tree.count();
    tree.overlay(file, new, at);
    // And it is good behind that.
    let _count_now = tree.count();
}
