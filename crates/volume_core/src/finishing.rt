//! A close: what it admits, and how it ends.

ghost use Rattle.std.specs.Prelude.{◌≡◌, ◌+◌, ◌||◌, not, Option};
ghost use Rattle.tape_types.specs.declared.moments.Moment.{Moment as Instant};
ghost use Rattle.tape_layout.specs.Plans.{AreStanding};
ghost use Rattle.promises.specs.ServingPromise.Served.{Fixed};
ghost use Rattle.volume_core.specs.VolumeSteps.Seen.{seen_parts};
ghost use Rattle.volume_core.specs.Doing.{lasts_in};
ghost use Rattle.volume_core.specs.Finish.{Finishes, FinishesOpen, close_end, lasts_of, short_end};
ghost use Rattle.volume_core.specs.Promised.{CanClose};

use crate::commands::{do_ops, end_with};
use crate::notes::LastIndexes;
use crate::volume_steps::Parts;
use held_volume::Stock;
use promises::serving_promise::CloseEnd;
use tape_drive::Drive;
use tape_layout::AdmitErr;
use tape_types::{Moment, Twin};

/// Closes a volume at a moment. One that was mounted as sealed is done without a command.
pub fn finish<D: Drive>(parts: &mut Parts<D>, noted: bool, at: Moment) -> CloseEnd
    requires { (fixed : Fixed D) × (next : Option Instant) × CanClose D.Drive fixed next at (seen_parts parts.old) }
    ensures finishes { Finishes D.Drive noted at (seen_parts parts.old).stock (seen_parts parts.old).drive
        (seen_parts parts.new).drive result }
    ensures placements { parts.new.placements ≡ parts.old.placements }
    ensures trail { parts.new.trail ≡ parts.old.trail }
{
    let frame = parts.stock.frame();
    if frame.sealed {
        return CloseEnd::Done {
            generation: frame.generation,
        };
    }
    finish_open(parts, noted, at)
}

/// Closes one that wasn't: the index that is due on each partition is admitted, all ops are done, and the notes tell of
/// the last indexes, where one went to the index partition or they weren't right at the mount. A command that failed is
/// the last one.
fn finish_open<D: Drive>(parts: &mut Parts<D>, noted: bool, at: Moment) -> CloseEnd
    requires { (fixed : Fixed D) × (next : Option Instant) × CanClose D.Drive fixed next at (seen_parts parts.old) }
    ensures finishes { FinishesOpen D.Drive noted at (seen_parts parts.old).stock (seen_parts parts.old).drive
        (seen_parts parts.new).drive result }
    ensures placements { parts.new.placements ≡ parts.old.placements }
    ensures trail { parts.new.trail ≡ parts.old.trail }
{
    let Ok(texts) = parts.stock.closing_texts(at) else {
        return CloseEnd::NoMemory;
    };
    match parts.stock.admit_dp(&texts.dp) {
        Ok(()) => (),
        Err(AdmitErr::Full { need, limit }) => return CloseEnd::Full { need, limit },
        Err(AdmitErr::NoMemory) => return CloseEnd::NoMemory,
    }
    let last = last_of(&parts.stock);
    let due = texts.ip.is_some();
    match parts.stock.admit_ip(&texts.ip) {
        Ok(()) => {
            let notes = are_notes_due(due, noted);
            let told = end_with(&mut parts.head, &mut parts.stock, last, notes);
            done(last.generation, told)
        }
        Err(AdmitErr::Full { need, limit }) => {
            let told = do_ops(&mut parts.head, &mut parts.stock);
            short(need, limit, told)
        }
        Err(AdmitErr::NoMemory) => CloseEnd::NoMemory,
    }
}

/// What the notes tell once the index of the data partition was admitted: that of the index partition goes to its end.
fn last_of(stock: &Stock) -> LastIndexes
    ensures last { lasts_in result ≡ lasts_of stock.now }
    ensures standing { AreStanding stock.now.layout.limits stock.now.layout.block_size stock.now.layout.ends
        stock.now.layout.ops }
{
    let (end, _) = stock.layout().ends();
    let frame = stock.frame();
    LastIndexes {
        uuid: frame.label.uuid,
        generation: frame.generation,
        on_ip: end + 1,
        on_dp: frame.last_dp,
    }
}

/// Whether the notes are written: where an index goes to the index partition, or they weren't right at the mount.
fn are_notes_due(due: bool, noted: bool) -> bool
    ensures { result ≡ (due || not noted) }
{
    due || !noted
}

/// How a close ends whose commands did so.
fn done(generation: u64, told: Result<(), Twin>) -> CloseEnd
    ensures { result ≡ close_end generation told }
{
    match told {
        Ok(()) => CloseEnd::Done { generation },
        Err(counts) => CloseEnd::Fault(counts),
    }
}

/// How it ends where an index had no room on the index partition.
fn short(need: u64, limit: u64, told: Result<(), Twin>) -> CloseEnd
    ensures { result ≡ short_end need limit told }
{
    match told {
        Ok(()) => CloseEnd::Full { need, limit },
        Err(counts) => CloseEnd::Fault(counts),
    }
}
