//! How far a partition has been read.

ghost use Rattle.std.specs.Prelude.{◌≡◌, ◌<◌, ◌+◌, ◌^◌, ℕ, [], false, Some, None, OnOk, IfErr};
ghost use Rattle.volume_scan.specs.Steps.{Goes, IsEmptyIndex, Marks, ends, lead_at};
ghost use Rattle.tape_drive.specs.declared.drive.Got.TheVariants as got;

use crate::content::{Construct, Content};
use crate::errors::ScanErr;
use std::alloc::Global;
use tape_drive::Got;
use tape_types::List;

/// The first position behind the labels.
pub const BEHIND_LABELS: u64 = 4;

/// What the items before a position have told.
#[derive(Drop)]
pub struct Reading {
    /// The indexes, with the oldest first.
    pub constructs: List<Construct>,
    /// The mark that opens the index in which the next item stands, if it stands in one.
    pub opened: Option<u64>,
    /// The position of the next item.
    pub pos: u64,
}

/// Nothing has been read.
pub fn begin(alloc: Global) -> Reading
    ensures constructs { result.constructs ≡ [] }
    ensures opened { result.opened ≡ None }
    ensures pos { result.pos ≡ 4 }
{
    Reading {
        constructs: List::new(alloc),
        opened: None,
        pos: BEHIND_LABELS,
    }
}

/// The content, where no item is left.
pub fn content_of(reading: Reading) -> Content
    ensures constructs { result.constructs ≡ reading.constructs }
    ensures lead { result.lead ≡ lead_at reading.opened reading.pos }
    ensures front { result.front ≡ reading.pos }
{
    Content {
        lead: lead_at(reading.opened, reading.pos),
        front: reading.pos,
        constructs: reading.constructs,
    }
}

fn lead_at(opened: Option<u64>, pos: u64) -> u64
    ensures { result ≡ lead_at opened pos }
{
    match opened {
        None => pos,
        Some(mark) => mark,
    }
}

/// Whether nothing more can be read.
pub fn ends(answer: Got) -> bool
    ensures { result ≡ ends answer }
{
    matches!(answer, Got::End | Got::Torn)
}

/// Goes past a block or a mark.
pub fn go(answer: Got, reading: &mut Reading) -> Result<(), ScanErr>
    requires more { ends answer ≡ false }
    requires opened { (mark : ℕ) → reading.old.opened ≡ Some mark → mark < reading.old.pos }
    requires room { reading.old.pos + 1 < 2 ^ 64 }
    ensures ok { OnOk result (Goes answer reading.old reading.new) }
    ensures err { IfErr result (IsEmptyIndex answer reading.old) }
{
    match answer {
        Got::Mark => go_past_mark(reading),
        _ => {
            reading.pos += 1;
            Ok(())
        }
    }
}

/// Opens an index, or closes the one that is open.
fn go_past_mark(reading: &mut Reading) -> Result<(), ScanErr>
    requires opened { (mark : ℕ) → reading.old.opened ≡ Some mark → mark < reading.old.pos }
    requires room { reading.old.pos + 1 < 2 ^ 64 }
    ensures ok { OnOk result (Marks reading.old.opened reading.old reading.new) }
    ensures err { IfErr result (IsEmptyIndex got.Mark reading.old) }
{
    match reading.opened {
        None => {
            reading.opened = Some(reading.pos);
            reading.pos += 1;
            Ok(())
        }
        Some(mark) => close(mark, reading),
    }
}

/// Closes the index that this mark opens.
fn close(mark: u64, reading: &mut Reading) -> Result<(), ScanErr>
    requires open { reading.old.opened ≡ Some mark }
    requires below { mark < reading.old.pos }
    requires room { reading.old.pos + 1 < 2 ^ 64 }
    ensures ok { OnOk result (Marks (Some mark) reading.old reading.new) }
    ensures err { IfErr result (IsEmptyIndex got.Mark reading.old) }
{
    let first = mark + 1;
    if reading.pos == first {
        return Err(ScanErr::Layout(reading.pos));
    }
    let after = reading.pos + 1;
    match reading.constructs.push(Construct { mark, first, after }) {
        Ok(()) => {
            reading.opened = None;
            reading.pos = after;
            Ok(())
        }
        Err(_) => Err(ScanErr::NoMemory),
    }
}
