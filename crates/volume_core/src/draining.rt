//! Turns of a session that drains.

ghost use Rattle.std.specs.Prelude.{◌≡◌, ◌≤◌, ◌<◌, ◌-◌, ◌^◌, ◌∷◌, [], Some, IfNone, IfSome, length};
ghost use Rattle.plain_tree.specs.declared.calls.Fate.TheVariants as fates;
ghost use Rattle.session_script.specs.declared.logs.Reply.TheVariants as replies;
ghost use Rattle.promises.specs.ServingPromise.Faults.{kept_for};
ghost use Rattle.promises.specs.ServingPromise.Marks.{draining, phase, places_of};
ghost use Rattle.promises.specs.declared.serving_promise.answers.Drained.TheVariants as drained;
ghost use Rattle.volume_state.specs.CallLaws.Draining.{IsFull, RestsNow};
ghost use Rattle.volume_state.specs.StateLaws.Placing.{PlacesCall};
ghost use Rattle.volume_core.specs.VolumeSteps.Seen.{seen_parts};
ghost use Rattle.volume_core.specs.Drains.{CanEnd, CanFault, EndsAt};
ghost use Rattle.volume_core.specs.Turns.{DrainsAt, Runs, told};

use crate::volume_steps::Parts;
use plain_tree::{Fate, Placed};
use promises::serving_promise::Drained;
use session_script::{Event, Reply};
use tape_drive::Drive;
use tape_edge::Clock;
use tape_types::{Moment, Twin};

/// How many ops may stand as a write is placed.
pub const ROOM: u64 = 64;

/// Tells a session that drains of a fault that is kept for it, or that there is room for its write, after a step of the
/// head where neither is so.
pub fn drain<D: Drive, C: Clock>(parts: &mut Parts<D>, clock: &mut C, who: u16) -> Drained
    requires runs { Runs D.Drive (seen_parts parts.old) }
    requires drains { phase who (seen_parts parts.old).listed.marks ≡ draining }
    requires few { length (places_of who (seen_parts parts.old).listed.marks) < 2 ^ 32 }
    ensures drains { DrainsAt D.Drive who (told (C.one clock.old) (C.next clock.old))
        (told (C.one clock.new) (C.next clock.new)) (seen_parts parts.old) (seen_parts parts.new) result }
    ensures counted { D.commands (seen_parts parts.old).drive ≤ 2 ^ 64 - 1 }
{
    // The number of commands is in its range.
    let _commands = parts.head.commands();
    if let Some(end) = end_drain(parts, clock, who) {
        return end;
    }
    parts.step();
    match end_drain(parts, clock, who) {
        Some(end) => end,
        None => Drained::More,
    }
}

/// Ends the drain of a session, where a fault is kept for it or there is room for its write.
fn end_drain<D: Drive, C: Clock>(parts: &mut Parts<D>, clock: &mut C, who: u16) -> Option<Drained>
    requires { CanEnd who (seen_parts parts.old) }
    ensures some { IfSome result (λ end. EndsAt who (told (C.one clock.old) (C.next clock.old))
        (told (C.one clock.new) (C.next clock.new)) (seen_parts parts.old) (seen_parts parts.new) end) }
    ensures full { IfNone result (IsFull who (seen_parts parts.old)) }
    ensures parts { IfNone result (parts.new ≡ parts.old) }
    ensures clock { IfNone result (clock.new ≡ clock.old) }
{
    if let Some(counts) = parts.trail.kept_fault(who) {
        tell_fault(parts, clock, who, counts);
        return Some(Drained::Fault(counts));
    }
    if parts.stock.layout().waiting() > ROOM {
        return None;
    }
    rest(parts, who);
    Some(Drained::Room)
}

/// A session for which no fault is kept rests, as there is room.
fn rest<D: Drive>(parts: &mut Parts<D>, who: u16)
    requires can { CanEnd who (seen_parts parts.old) }
    requires none { kept_for who (seen_parts parts.old).trail.kept ≡ [] }
    requires room { length (seen_parts parts.old).stock.layout.ops ≤ 64 }
    ensures { RestsNow who (seen_parts parts.old) (seen_parts parts.new) }
{
    let head = parts.trail.head();
    parts.trail.write(Event::Rests { who }, head, 0);
    // The events are a trail.
    let _at = parts.trail.head();
    parts.placements.rest(who);
}

/// Places the write of a session void, with the fault that is kept for it.
fn tell_fault<D: Drive, C: Clock>(parts: &mut Parts<D>, clock: &mut C, who: u16, counts: Twin)
    requires can { CanEnd who (seen_parts parts.old) }
    requires kept { kept_for who (seen_parts parts.old).trail.kept ≡ counts ∷ [] }
    ensures { EndsAt who (told (C.one clock.old) (C.next clock.old)) (told (C.one clock.new) (C.next clock.new))
        (seen_parts parts.old) (seen_parts parts.new) (drained.Fault counts) }
{
    let _kept = parts.trail.take_kept(who);
    let nth = parts.placements.count(who) as u32;
    let at = clock.now();
    place_fault(parts, who, nth, at, counts);
}

/// Places a write void, with a fault.
fn place_fault<D: Drive>(parts: &mut Parts<D>, who: u16, nth: u32, at: Moment, counts: Twin)
    requires { CanFault who parts.old.placements }
    ensures places { PlacesCall who nth at fates.Void (Some (replies.Fault counts)) (seen_parts parts.old)
        (seen_parts parts.new) }
    ensures others { parts.new ≡ record parts.old { placements = parts.new.placements } }
{
    let here = parts.placements.len();
    parts.placements.place(Placed {
        who,
        nth,
        at,
        fate: Fate::Void,
    });
    parts.placements.answer(here, Reply::Fault(counts));
    parts.placements.hand(who, here);
}
