//! Submissions: a call is placed, or a write is put off.

ghost use Rattle.std.specs.Prelude.{◌≡◌, ◌≢◌, ◌⊎◌, ◌&&◌, ◌<◌, nat_lt, length, true};
ghost use Rattle.file_tree.specs.Valid.{IsGood};
ghost use Rattle.head_queue.specs.EventLaws.Trail.{allows};
ghost use Rattle.plain_tree.specs.declared.calls.Call.{Call as Asks};
ghost use Rattle.session_script.specs.declared.logs.Event.TheVariants as events;
ghost use Rattle.session_script.specs.declared.logs.Reply.TheVariants as replies;
ghost use Rattle.event_journal.specs.Trails.{state};
ghost use Rattle.promises.specs.ServingPromise.Replies.{is_write};
ghost use Rattle.promises.specs.ServingPromise.Submits.{PutsOff};
ghost use Rattle.promises.specs.declared.serving_promise.answers.Submitted.TheVariants as submitted;
ghost use Rattle.volume_core.specs.VolumeSteps.Asking.{CanAsk, IsSubmitted, Stands};
ghost use Rattle.volume_core.specs.VolumeSteps.Seen.{seen_parts};
ghost use Rattle.volume_core.specs.VolumeSteps.Wanted.{CanWantBlocks};
ghost use Rattle.volume_core.specs.Turns.{Gives, RunsFor, SubmitsAt, told};

use crate::draining::ROOM;
use crate::volume_steps::{Asked, Parts};
use plain_tree::{Call, Change};
use promises::serving_promise::Submitted;
use std::alloc::Global;
use tape_drive::Drive;
use tape_edge::Clock;
use tape_layout::AdmitErr;
use tape_types::{Moment, NoMemory};

/// Places the next call of a session, or puts it off.
pub fn submit<D: Drive, C: Clock>(
    parts: &mut Parts<D>,
    clock: &mut C,
    alloc: Global,
    call: &Call,
    who: u16,
    nth: u32,
) -> Submitted
    requires runs { RunsFor D.Drive who nth call.now (seen_parts parts.old) }
    ensures submits { SubmitsAt D.Drive who nth call.now (told (C.one clock.old) (C.next clock.old))
        (told (C.one clock.new) (C.next clock.new)) (seen_parts parts.old) (seen_parts parts.new) result }
    ensures put_off { PutsOff (is_write call.now && nat_lt 64 (length (seen_parts parts.old).stock.layout.ops)) result }
    ensures answered { parts.new.reads.answered ≡ parts.old.reads.answered }
    ensures good { IsGood (seen_parts parts.old).stock.tree }
{
    // The tree is good.
    let _nodes = parts.stock.tree().count();
    if is_put_off(parts.stock.layout().waiting(), call) {
        return put_off(parts, clock, who, nth);
    }
    let at = ask(clock);
    make(parts, alloc, Asked { who, nth, at }, call)
}

/// The moment that the clock gives.
pub fn ask<C: Clock>(clock: &mut C) -> Moment
    ensures { Gives (told (C.one clock.old) (C.next clock.old)) (told (C.one clock.new) (C.next clock.new)) result }
{
    clock.now()
}

/// Whether a call is a write for which there is no room.
fn is_put_off(standing: u64, call: &Call) -> bool
    ensures { result ≡ (is_write call.now && nat_lt 64 standing) }
{
    match call {
        Call::Write { .. } => standing > ROOM,
        _ => false,
    }
}

/// Has a session drain, or places its write void where there is no memory for that.
fn put_off<D: Drive, C: Clock>(parts: &mut Parts<D>, clock: &mut C, who: u16, nth: u32) -> Submitted
    requires can { CanAsk who (seen_parts parts.old) }
    requires many { 64 < length (seen_parts parts.old).stock.layout.ops }
    requires allowed { allows (state parts.old.trail) (events.Drains who) ≡ true }
    ensures submits { (call : Asks) → SubmitsAt D.Drive who nth call (told (C.one clock.old) (C.next clock.old))
        (told (C.one clock.new) (C.next clock.new)) (seen_parts parts.old) (seen_parts parts.new) result }
    ensures ends { (result ≡ submitted.Drain) ⊎ (result ≡ submitted.Ready replies.NoMemory) }
    ensures answered { parts.new.reads.answered ≡ parts.old.reads.answered }
{
    match parts.begin_drain(who) {
        Ok(()) => Submitted::Drain,
        Err(NoMemory) => {
            let at = ask(clock);
            parts.void(Asked { who, nth, at }, AdmitErr::NoMemory)
        }
    }
}

/// Places a call.
fn make<D: Drive>(parts: &mut Parts<D>, alloc: Global, asked: Asked, call: &Call) -> Submitted
    requires can { CanAsk asked.who (seen_parts parts.old) }
    requires stands { Stands (seen_parts parts.old) }
    requires wants { CanWantBlocks (seen_parts parts.old) }
    ensures submits { IsSubmitted D.Drive asked.who asked.nth asked.at (seen_parts parts.old) (seen_parts parts.new)
        call.now result }
    ensures answered { parts.new.reads.answered ≡ parts.old.reads.answered }
    ensures placed { result ≢ submitted.Drain }
{
    match call {
        Call::Read {
            path,
            offset,
            count,
        } => parts.read_bytes(asked, alloc, path.as_slice(), *offset, *count),
        Call::Listing { path } => parts.list(asked, alloc, path.as_slice()),
        Call::Stat { path } => parts.stat(asked, alloc, path.as_slice()),
        Call::Getx { path, key } => parts.get_key(asked, alloc, path.as_slice(), key),
        Call::Sync => parts.sync(asked),
        Call::Mkdir { path } => parts.change(asked, Change::Mkdir(path.as_slice())),
        Call::Create { path } => parts.change(asked, Change::Create(path.as_slice())),
        Call::Write {
            path,
            offset,
            bytes,
        } => {
            let bytes = bytes.as_slice();
            parts.change(asked, Change::Write(path.as_slice(), *offset, bytes))
        }
        Call::Truncate { path, length } => {
            parts.change(asked, Change::Truncate(path.as_slice(), *length))
        }
        Call::Rename { from, to } => {
            parts.change(asked, Change::Rename(from.as_slice(), to.as_slice()))
        }
        Call::Remove { path } => parts.change(asked, Change::Remove(path.as_slice())),
        Call::Setx { path, key, bytes } => {
            parts.change(asked, Change::Setx(path.as_slice(), key, bytes))
        }
        Call::Dropx { path, key } => parts.change(asked, Change::Dropx(path.as_slice(), key)),
        Call::Readonly { path, on } => parts.change(asked, Change::Readonly(path.as_slice(), *on)),
        Call::LockVolume => parts.change(asked, Change::LockVolume),
        Call::UnlockVolume => parts.change(asked, Change::UnlockVolume),
        Call::PermLock => parts.change(asked, Change::PermLock),
    }
}
