//! The documents of indexes.

ghost use Rattle.std.specs.Prelude.{◌≡◌, ◌≤◌, ◌<◌, ◌+◌, ◌*◌, ◌^◌, ◌-◌, ℕ, List, length, Some, true, vec_capacity};
ghost use Rattle.std.specs.Prelude.{OnOk, IfOk, IfErr, IfSome};
ghost use Rattle.std.specs.List.{concat};
ghost use Rattle.tape_drive.specs.Commands.{item_at};
ghost use Rattle.tape_drive.specs.Looks.{Looks};
ghost use Rattle.tape_types.specs.Cartridges.{capacity, items_of, next};
ghost use Rattle.tape_types.specs.declared.cartridges.Cartridge.{Cartridge};
ghost use Rattle.tape_types.specs.declared.cartridges.Item.TheVariants as items;
ghost use Rattle.index_model.specs.Grammar.{IndexText};
ghost use Rattle.content_laws.specs.Readings.{StandAt};
ghost use Rattle.cartridge_meaning.specs.Pointers.{IsOfVolume, text_of};
ghost use Rattle.mount_recover.specs.Labels.{IsStopped};
ghost use Rattle.mount_recover.specs.Lasts.{HasIndexAt, IsBadText, IsInPlace, IsNoText, IsPut, IsSound, IsTrueAt};
ghost use Rattle.mount_recover.specs.Lasts.{told};
ghost use Rattle.mount_recover.specs.Steps.{IsFree, IsSince, IsStep};

use crate::items::{Stop, buffer};
use crate::labels::failed;
use crate::starts::Start;
use cartridge_meaning::MountErr;
use index_model::{Index, IndexErr};
use index_read::read_index;
use ltfs_label::Label;
use std::alloc::{AllocError, Global};
use tape_drive::Drive;
use tape_types::{Part, Place};
use volume_scan::Construct;

/// What an index of a partition reads as, which stands there: an index of the volume with this label, or why it is
/// none, as a mount tells it. Its document takes the memory of the one that was read before. Nothing is written.
///
/// # Errors
///
/// `BadIndex` and `WrongVolume` with the place of its first block; `Drive` where the drive failed, and `NoMemory` where
/// memory was refused.
pub fn read_index_at<D: Drive>(
    alloc: Global,
    drive: &mut D,
    start: Start,
    label: &Label,
    part: Part,
    place: Construct,
    document: &mut Vec<u8>,
) -> Result<Index, MountErr>
    requires since { IsSince D.Drive start drive.old }
    requires place { IsInPlace (capacity part start.limits) place }
    requires known { IfSome (D.held drive.old) (λ c. HasIndexAt (items_of part c) place) }
    ensures { IsStep D.Drive start (place.after - place.first) drive.old drive.new
        (λ index c. IsTrueAt (items_of part c) place (λ k. IsOfVolume label.now k index))
        (λ index. IsSound label.now index × IndexText document.new.items index)
        (λ e c. IsTrueAt (items_of part c) place (λ k. IsNoText (text_of k) label.now.uuid
        (record { part = part; pos = place.first }) e)) result }
{
    read_document(alloc, drive, start, part, place, label.block, document)?;
    let pos = place.first;
    match read_text(alloc, document.as_slice(), label, Place { part, pos }) {
        Ok(index) => Ok(index),
        Err(fault) => Err(fault),
    }
}

/// Reads the document of an index of a partition, which stands there, in place of a text, and tells whether it is that
/// text.
pub fn read_document<D: Drive>(
    alloc: Global,
    drive: &mut D,
    start: Start,
    part: Part,
    place: Construct,
    block: u32,
    document: &mut Vec<u8>,
) -> Result<bool, MountErr>
    requires since { IsSince D.Drive start drive.old }
    requires place { IsInPlace (capacity part start.limits) place }
    requires known { IfSome (D.held drive.old) (λ c. HasIndexAt (items_of part c) place) }
    ensures { IsStep D.Drive start (place.after - place.first) drive.old drive.new
        (λ same c. IsTrueAt (items_of part c) place (λ k. document.new.items ≡ text_of k))
        (λ same. same ≡ true → document.new.items ≡ document.old.items) IsFree result }
{
    let blocks = place.after - place.first - 1;
    let mut buffer = buffer(alloc)?;
    let most = blocks.saturating_mul(u64::from(block)) as usize;
    document.reserve_exact(most.saturating_sub(document.len()))?;
    match drive.locate(Place {
        part,
        pos: place.first,
    }) {
        Ok(()) => {}
        Err(_) => return Err(failed(drive, start.faults)),
    }
    match read_blocks(drive, blocks, &mut buffer, document) {
        Ok(same) => Ok(same),
        Err(Stop::Drive) => Err(failed(drive, start.faults)),
        Err(Stop::NoMemory) => Err(MountErr::NoMemory),
    }
}

/// How far a document is read, in place of a text that it may be.
#[derive(Clone, Copy)]
pub struct Beside {
    /// How many of its bytes are read.
    pub at: usize,
    /// Whether that text begins with them.
    pub same: bool,
}

/// Reads so many blocks from the head on in place of a text, and tells whether they are that text.
fn read_blocks<D: Drive>(
    drive: &mut D,
    blocks: u64,
    buffer: &mut Vec<u8>,
    document: &mut Vec<u8>,
) -> Result<bool, Stop>
    requires located { (at : Place) × (D.head drive.old ≡ Some at) }
    requires room { 1048576 ≤ vec_capacity buffer.old }
    requires commands { D.commands drive.old ≤ 2 ^ 64 - 1 }
    ensures told { OnOk result ((at : Place) (c : Cartridge) (bs : List (List ℕ)) → D.head drive.old ≡ Some at
        → D.held drive.old ≡ Some c → length bs ≡ blocks → StandAt (items_of at.part c) at.pos bs
        → document.new.items ≡ concat bs) }
    ensures same { IfOk result (λ same. same ≡ true → document.new.items ≡ document.old.items) }
    ensures looks { Looks D.Drive (blocks * D.MOST) drive.old drive.new }
    ensures cause { IsStopped (D.faults drive.old) (D.faults drive.new) result }
{
    let mut read = Beside { at: 0, same: true };
    let mut done = 0;
    while done < blocks {
        match read_block(drive, buffer, document, read) {
            Ok(next) => read = next,
            Err(stop) => return Err(stop),
        }
        done += 1;
    }
    let same = read.same && read.at == document.len();
    document.truncate(read.at);
    Ok(same)
}

/// Reads the block at the head.
fn read_block<D: Drive>(
    drive: &mut D,
    buffer: &mut Vec<u8>,
    document: &mut Vec<u8>,
    read: Beside,
) -> Result<Beside, Stop>
    requires located { (at : Place) × (D.head drive.old ≡ Some at) }
    requires room { 1048576 ≤ vec_capacity buffer.old }
    requires within { read.at ≤ length document.old.items }
    ensures room { 1048576 ≤ vec_capacity buffer.new }
    ensures head { OnOk result ((at : Place) × (D.head drive.new ≡ Some at)) }
    ensures put { IfOk result (λ next. IsPut read buffer.new.items document.old.items document.new.items next) }
    ensures told { OnOk result ((at : Place) (c : Cartridge) (b : List ℕ) → D.head drive.old ≡ Some at
        → D.held drive.old ≡ Some c → item_at at c ≡ Some (items.Block b)
        → (D.head drive.new ≡ Some (next at)) × (buffer.new.items ≡ b)) }
    ensures looks { Looks D.Drive D.MOST drive.old drive.new }
    ensures cause { IsStopped (D.faults drive.old) (D.faults drive.new) result }
{
    match drive.read(buffer) {
        Ok(_) => match put_block(document, read, buffer.as_slice()) {
            Ok(next) => Ok(next),
            Err(_) => Err(Stop::NoMemory),
        },
        Err(_) => Err(Stop::Drive),
    }
}

/// Puts a block behind the bytes that are read, where it may stand already.
pub fn put_block(document: &mut Vec<u8>, read: Beside, block: &[u8]) -> Result<Beside, AllocError>
    requires { read.at ≤ length document.old.items }
    ensures { IfOk result (λ next. IsPut read block.now document.old.items document.new.items next) }
{
    let rest = &document[read.at..];
    if rest.starts_with(block) {
        return Ok(Beside {
            at: read.at + block.len(),
            same: read.same,
        });
    }
    document.truncate(read.at);
    document.extend_from_slice(block)?;
    Ok(Beside {
        at: document.len(),
        same: false,
    })
}

/// The index of the volume with this label that a document is, which stands there.
pub fn read_text(
    alloc: Global,
    document: &[u8],
    label: &Label,
    place: Place,
) -> Result<Index, MountErr>
    ensures found { IfOk result (λ index. IndexText document.now index × (index.uuid ≡ label.now.uuid)) }
    ensures refused { IfErr result (IsBadText document.now label.now.uuid place) }
{
    match read_index(alloc, document) {
        Ok(index) => {
            if index.uuid == label.uuid {
                Ok(index)
            } else {
                Err(MountErr::WrongVolume(place))
            }
        }
        Err(fault) => Err(told(place, fault)),
    }
}

/// Why a document is no index, which stands there.
fn told(place: Place, fault: IndexErr) -> MountErr
    ensures { result ≡ told place fault }
{
    match fault {
        IndexErr::NoMemory => MountErr::NoMemory,
        _ => MountErr::BadIndex(place, fault),
    }
}
