ghost use Rattle.std.specs.Prelude.{◌≡◌, ℕ, ◌+◌, ◌<◌, ◌^◌, length, None, IfOk};
ghost use Rattle.tape_types.specs.declared.moments.Moment.{Moment as Instant};
ghost use Rattle.plain_tree.specs.Calls.{after};
ghost use Rattle.session_script.specs.Replies.{IsReply};
ghost use Rattle.commands.specs.BasicCommands.Headline.{IsMoment, IsPlainRun};
ghost use Rattle.commands.specs.BasicCommands.Sessions.{after_fate};

use plain_tree::{Call, Fate, Placed, Plain};
use session_script::{KeptReply, Log, Reply, Script};
use std::alloc::Global;
use tape_edge::Clock;
use tape_types::{List, Moment, NoMemory};

/// Runs the calls of a script in the order of their lines, on the tree with the root alone. The moment of each is the
/// given one, or else the clock's next.
pub fn run_script<C: Clock>(
    alloc: Global,
    script: &Script,
    at: Option<Moment>,
    mut clock: C,
) -> Result<Log, NoMemory>
    requires { length script.now < 2 ^ 32 }
    ensures { IfOk result (IsPlainRun at (C.gives clock) script.now) }
{
    let first = moment(at, &mut clock);
    let mut tree = Plain::empty(alloc, first)?;
    let lines = script.lines();
    let mut history = Vec::with_capacity(alloc, lines.len())?;
    let mut replies = Vec::with_capacity(alloc, lines.len())?;
    for (k, line) in lines.iter().enumerate() {
        let now = moment(at, &mut clock);
        let (fate, reply) = answer(&mut tree, &line.call, now);
        history.push(Placed {
            who: line.who,
            nth: script.nth_at(k as u32),
            at: now,
            fate,
        })?;
        replies.push(KeptReply::here(reply))?;
    }
    Ok(Log {
        history: List::from_vec(history),
        replies: List::from_vec(replies),
        acks: List::new(alloc),
        events: List::new(alloc),
    })
}

/// The given moment, or else the clock's next.
pub fn moment<C: Clock>(at: Option<Moment>, clock: &mut C) -> Moment
    ensures given { IsMoment at (C.gives clock.old) 0 result }
    ensures later { at ≡ None → (n : ℕ) (m : Instant) → C.gives clock.new n m → C.gives clock.old (n + 1) m }
{
    match at {
        Some(at) => at,
        None => clock.now(),
    }
}

/// Answers a call. Where it finds no memory its placement is void.
fn answer(tree: &mut Plain, call: &Call, at: Moment) -> (Fate, Reply)
    ensures reply { IsReply result.0 tree.old call.now result.1 }
    ensures left { tree.new ≡ after_fate result.0 call.now at tree.old }
{
    match tree.apply(call, at) {
        Ok(answer) => (Fate::Done, Reply::Answer(answer)),
        Err(NoMemory) => (Fate::Void, Reply::NoMemory),
    }
}
