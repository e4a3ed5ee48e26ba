//! The index with which a partition ends, read from the mark in front of it on.

ghost use Rattle.std.specs.Prelude.{◌≡◌, ◌≢◌, ◌≤◌, ◌<◌, ◌↔◌, ◌+◌, ◌*◌, ◌-◌, ◌^◌, ℕ, List, length, Some, None, true};
ghost use Rattle.std.specs.Prelude.{slice_get, vec_capacity, IfNone, IfOk, IfSome, MatchOption};
ghost use Rattle.tape_drive.specs.Commands.{item_at};
ghost use Rattle.tape_drive.specs.Looks.{Looks};
ghost use Rattle.tape_types.specs.Bounds.{most_positions};
ghost use Rattle.tape_types.specs.Cartridges.{capacity, items_of, next};
ghost use Rattle.tape_types.specs.declared.cartridges.Cartridge.{Cartridge};
ghost use Rattle.tape_types.specs.declared.cartridges.Item.TheVariants as items;
ghost use Rattle.content_laws.specs.Ends.{EndsWithLast};
ghost use Rattle.cartridge_meaning.specs.Pointers.{indexes_of};
ghost use Rattle.mount_recover.specs.Known.{blocks_of_newest};
ghost use Rattle.mount_recover.specs.Labels.{IsStopped};
ghost use Rattle.mount_recover.specs.Noted.{EndsAt, IsAhead, IsEnding, IsLastFrom, IsNext, IsPast, IsPutNext};
ghost use Rattle.mount_recover.specs.Noted.{IsReadToEnd, IsRun, IsRunOf, Took};
ghost use Rattle.mount_recover.specs.declared.endings.Run.{Run as RunOf};
ghost use Rattle.mount_recover.specs.Steps.{IsFree, IsSince, IsStepBy};

use crate::documents::{Beside, put_block};
use crate::flags::capacity_of;
use crate::items::{Stop, buffer};
use crate::labels::failed;
use crate::starts::Start;
use cartridge_meaning::MountErr;
use std::alloc::Global;
use tape_drive::{Drive, Got};
use tape_types::{Part, Place};
use volume_scan::Construct;

/// An index with which a partition ends, and whether its document is the text in place of which it was read.
#[derive(Clone, Copy)]
pub struct Ending {
    pub place: Construct,
    pub same: bool,
}

/// Blocks that were read up to the mark behind them: the position behind that mark, and whether they are the text in
/// place of which they were read.
#[derive(Clone, Copy)]
pub struct Run {
    pub after: u64,
    pub same: bool,
}

/// What was read of an index: a block more of its document, the mark that closes it, or what no index has.
#[derive(Clone, Copy)]
pub enum Next {
    Block(Beside),
    Mark,
    Other,
}

/// Reads the index of a partition that is opened by the mark there, in place of a text, where the partition ends with
/// it. There is none where anything else is read than a mark, blocks, a mark and the end.
pub fn read_ending<D: Drive>(
    alloc: Global,
    drive: &mut D,
    start: Start,
    part: Part,
    mark: u64,
    document: &mut Vec<u8>,
) -> Result<Option<Ending>, MountErr>
    requires since { IsSince D.Drive start drive.old }
    requires range { (4 ≤ mark) × (mark + 1 < capacity part start.limits) }
    requires known { IfSome (D.held drive.old) (λ c. IsLastFrom (items_of part c) mark) }
    ensures { IsStepBy D.Drive start (capacity part start.limits)
        (λ c n. n ≤ 4 + blocks_of_newest (indexes_of (items_of part c))) drive.old drive.new
        (λ found c. MatchOption found (¬ EndsWithLast (items_of part c) (indexes_of (items_of part c)))
        (λ e. EndsAt (items_of part c) document.new.items e.place))
        (λ found. IfSome found (IsEnding (capacity part start.limits) mark document.old.items document.new.items))
        IsFree result }
{
    let mut buffer = match buffer(alloc) {
        Ok(buffer) => buffer,
        Err(_) => return Err(MountErr::NoMemory),
    };
    match drive.locate(Place { part, pos: mark }) {
        Ok(()) => {}
        Err(_) => return Err(failed(drive, start.faults)),
    }
    let positions = capacity_of(start.limits, part);
    match read_index_here(drive, mark, positions, &mut buffer, document) {
        Ok(found) => Ok(found),
        Err(Stop::Drive) => Err(failed(drive, start.faults)),
        Err(Stop::NoMemory) => Err(MountErr::NoMemory),
    }
}

/// Reads a mark at the head, the blocks of an index, a mark, and the end.
fn read_index_here<D: Drive>(
    drive: &mut D,
    mark: u64,
    positions: u64,
    buffer: &mut Vec<u8>,
    document: &mut Vec<u8>,
) -> Result<Option<Ending>, Stop>
    requires head { (part : Part) × (D.head drive.old ≡ Some (record { part = part; pos = mark })) }
    requires range { (4 ≤ mark) × (mark + 1 < positions) }
    requires most { positions ≤ most_positions }
    requires room { 1048576 ≤ vec_capacity buffer.old }
    requires commands { D.commands drive.old ≤ 2 ^ 64 - 1 }
    ensures told { IfOk result (λ found. (c : Cartridge) (bs : List (List ℕ))
        → (a : IsAhead D.Drive drive.old mark mark positions c bs) → 1 ≤ length bs
        → MatchOption found (length (items_of a.part c) ≢ mark + length bs + 2)
        (IsReadToEnd (items_of a.part c) mark document.new.items bs)) }
    ensures any { IfOk result (λ found. IfSome found (IsEnding positions mark document.old.items document.new.items)) }
    ensures took { Took D.Drive drive.old drive.new (positions + 1 - mark) (λ n. (c : Cartridge) (bs : List (List ℕ))
        → IsAhead D.Drive drive.old mark mark positions c bs → n ≤ length bs + 3) }
    ensures cause { IsStopped (D.faults drive.old) (D.faults drive.new) result }
{
    match read_mark_here(drive, buffer) {
        Ok(true) => {}
        Ok(false) => return Ok(None),
        Err(stop) => return Err(stop),
    }
    let run = match read_to_mark(drive, mark + 1, positions, buffer, document) {
        Ok(Some(run)) => run,
        Ok(None) => return Ok(None),
        Err(stop) => return Err(stop),
    };
    match is_end_here(drive, buffer) {
        Ok(ends) => Ok(ending_of(mark, run, ends)),
        Err(stop) => Err(stop),
    }
}

/// The index that was read behind a mark there, where it has a block and the partition ends with it.
fn ending_of(mark: u64, run: Run, ends: bool) -> Option<Ending>
    requires { mark + 2 ≤ run.after }
    ensures some { IfSome result (λ e. (mark + 3 ≤ run.after) × (ends ≡ true) × (e.same ≡ run.same)
        × (e.place ≡ record { mark = mark; first = mark + 1; after = run.after })) }
    ensures none { IfNone result ((mark + 3 ≤ run.after) → ends ≢ true) }
{
    if ends && mark + 2 < run.after {
        let place = Construct {
            mark,
            first: mark + 1,
            after: run.after,
        };
        Some(Ending {
            place,
            same: run.same,
        })
    } else {
        None
    }
}

/// Whether a mark stands at the head.
fn read_mark_here<D: Drive>(drive: &mut D, buffer: &mut Vec<u8>) -> Result<bool, Stop>
    requires located { (at : Place) × (D.head drive.old ≡ Some at) }
    requires room { 1048576 ≤ vec_capacity buffer.old }
    ensures room { 1048576 ≤ vec_capacity buffer.new }
    ensures head { IfOk result (λ yes. yes ≡ true → (at : Place) → D.head drive.old ≡ Some at
        → D.head drive.new ≡ Some (next at)) }
    ensures told { IfOk result (λ yes. (at : Place) (c : Cartridge) → D.head drive.old ≡ Some at
        → D.held drive.old ≡ Some c → item_at at c ≡ Some items.Mark → yes ≡ true) }
    ensures looks { Looks D.Drive D.MOST drive.old drive.new }
    ensures cause { IsStopped (D.faults drive.old) (D.faults drive.new) result }
{
    match drive.read(buffer) {
        Ok(Got::Mark) => Ok(true),
        Ok(_) => Ok(false),
        Err(_) => Err(Stop::Drive),
    }
}

/// Whether no item stands at the head.
fn is_end_here<D: Drive>(drive: &mut D, buffer: &mut Vec<u8>) -> Result<bool, Stop>
    requires located { (at : Place) × (D.head drive.old ≡ Some at) }
    requires room { 1048576 ≤ vec_capacity buffer.old }
    ensures told { IfOk result (λ yes. (at : Place) (c : Cartridge) → D.head drive.old ≡ Some at
        → D.held drive.old ≡ Some c → (yes ≡ true) ↔ (item_at at c ≡ None)) }
    ensures looks { Looks D.Drive D.MOST drive.old drive.new }
    ensures cause { IsStopped (D.faults drive.old) (D.faults drive.new) result }
{
    match drive.read(buffer) {
        Ok(Got::End) => Ok(true),
        Ok(_) => Ok(false),
        Err(_) => Err(Stop::Drive),
    }
}

/// Reads blocks from the head on, up to the mark behind them, in place of a text. There is none where anything else
/// stands there, or no mark before a position.
fn read_to_mark<D: Drive>(
    drive: &mut D,
    first: u64,
    positions: u64,
    buffer: &mut Vec<u8>,
    document: &mut Vec<u8>,
) -> Result<Option<Run>, Stop>
    requires head { (part : Part) × (D.head drive.old ≡ Some (record { part = part; pos = first })) }
    requires range { (1 ≤ first) × (first < positions) }
    requires most { positions ≤ most_positions }
    requires room { 1048576 ≤ vec_capacity buffer.old }
    requires commands { D.commands drive.old ≤ 2 ^ 64 - 1 }
    ensures room { 1048576 ≤ vec_capacity buffer.new }
    ensures told { IfOk result (λ found. (c : Cartridge) (bs : List (List ℕ))
        → IsAhead D.Drive drive.old first (first - 1) positions c bs
        → (run : RunOf) × (found ≡ Some run) × IsRunOf first document.new.items bs run) }
    ensures any { IfOk result (λ found. IfSome found (IsRun first positions document.old.items document.new.items)) }
    ensures head { IfOk result (λ found. IfSome found (λ run. (part : Part)
        → D.head drive.old ≡ Some (record { part = part; pos = first })
        → D.head drive.new ≡ Some (record { part = part; pos = run.after }))) }
    ensures took { Took D.Drive drive.old drive.new (positions - first) (λ n. (c : Cartridge) (bs : List (List ℕ))
        → IsAhead D.Drive drive.old first (first - 1) positions c bs → n ≤ length bs + 1) }
    ensures cause { IsStopped (D.faults drive.old) (D.faults drive.new) result }
{
    let mut read = Beside { at: 0, same: true };
    let mut pos = first;
    while pos < positions {
        match read_next(drive, buffer, document, read) {
            Ok(Next::Block(next)) => read = next,
            Ok(Next::Mark) => {
                let same = read.same && read.at == document.len();
                document.truncate(read.at);
                return Ok(Some(Run {
                    after: pos + 1,
                    same,
                }));
            }
            Ok(Next::Other) => return Ok(None),
            Err(stop) => return Err(stop),
        }
        pos += 1;
    }
    Ok(None)
}

/// Reads the item at the head. A block is put behind what is read of a document.
fn read_next<D: Drive>(
    drive: &mut D,
    buffer: &mut Vec<u8>,
    document: &mut Vec<u8>,
    read: Beside,
) -> Result<Next, Stop>
    requires located { (at : Place) × (D.head drive.old ≡ Some at) }
    requires room { 1048576 ≤ vec_capacity buffer.old }
    requires within { read.at ≤ length document.old.items }
    ensures room { 1048576 ≤ vec_capacity buffer.new }
    ensures head { IfOk result (λ next. (at : Place) → D.head drive.old ≡ Some at → IsPast D.Drive next at drive.new) }
    ensures put { IfOk result (IsPutNext read buffer.new.items document.old.items document.new.items) }
    ensures told { IfOk result (λ next. (at : Place) (c : Cartridge) → D.head drive.old ≡ Some at
        → D.held drive.old ≡ Some c → IsNext (item_at at c) next buffer.new.items) }
    ensures looks { Looks D.Drive D.MOST drive.old drive.new }
    ensures cause { IsStopped (D.faults drive.old) (D.faults drive.new) result }
{
    match drive.read(buffer) {
        Ok(Got::Block) => match put_block(document, read, buffer.as_slice()) {
            Ok(next) => Ok(Next::Block(next)),
            Err(_) => Err(Stop::NoMemory),
        },
        Ok(Got::Mark) => Ok(Next::Mark),
        Ok(_) => Ok(Next::Other),
        Err(_) => Err(Stop::Drive),
    }
}
