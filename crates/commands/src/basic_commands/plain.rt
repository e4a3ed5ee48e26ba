ghost use Rattle.std.specs.Prelude.{◌≡◌, IfOk};
ghost use Rattle.commands.specs.BasicCommands.Headline.{done_text};
ghost use Rattle.commands.specs.BasicCommands.Outcomes.{IsPlainEnd, plain_log, plain_status, plain_text};
ghost use Rattle.commands.specs.BasicCommands.Promises.{DoesPlain};
ghost use Rattle.commands.specs.BasicCommands.Runs.{taken, written};
ghost use Rattle.commands.specs.BasicCommands.Statuses.{status_number};

use crate::basic_commands::ended::{Ended, Status};
use crate::basic_commands::scripts::{Unread, read_calls, refusal_text, source_text};
use crate::basic_commands::session::run_script;
use crate::basic_commands::telling::{bytes_of, tell_made};
use session_script::{Log, ScriptErr, log_text};
use std::alloc::Global;
use tape_drive::Drive;
use tape_edge::{Clock, Sink, Source};
use tape_types::{Bytes, Moment, NoMemory, Twin};

/// What `plain` comes to.
#[derive(Drop)]
pub enum PlainEnd {
    /// The calls were run.
    Done(Log),
    /// The input is no script.
    Script(ScriptErr),
    /// The source failed: its count of faults before and after.
    Source(Twin),
    /// Memory was refused; with the log, where the calls had been run.
    NoMemory(Option<Log>),
}

impl PlainEnd {
    /// What is printed.
    pub fn text(&self, alloc: Global) -> Result<Bytes, NoMemory>
        ensures { IfOk result (λ text. text ≡ plain_text self.now) }
    {
        match self {
            PlainEnd::Done(log) => done_text(alloc, log),
            PlainEnd::Script(refusal) => refusal_text(alloc, *refusal),
            PlainEnd::Source(counts) => source_text(alloc, *counts),
            PlainEnd::NoMemory(_) => Ok(bytes_of(format!(in alloc; "memory\n")?)),
        }
    }

    /// The status with which the program ends, and the log, where the calls were run.
    pub fn into_parts(self) -> (Status, Option<Log>)
        ensures status { status_number result.0 ≡ plain_status self }
        ensures log { result.1 ≡ plain_log self }
    {
        match self {
            PlainEnd::Done(log) => (Status::Done, Some(log)),
            PlainEnd::Script(_) => (Status::Script, None),
            PlainEnd::Source(_) => (Status::Source, None),
            PlainEnd::NoMemory(log) => (Status::NoMemory, log),
        }
    }
}

fn done_text(alloc: Global, log: &Log) -> Result<Bytes, NoMemory>
    ensures { IfOk result (λ text. text ≡ done_text log.now) }
{
    let mut text = log_text(alloc, log)?;
    let count = log.history.len();
    let last = format!(in alloc; "done {count}\n")?;
    text.extend(last.as_bytes())?;
    Ok(text)
}

/// The command `plain`: reads the script, runs its calls on a plain tree, and writes the log. The drive stays as it is.
pub fn run_plain<D: Drive, S: Source, K: Sink, C: Clock>(
    alloc: Global,
    at: Option<Moment>,
    drive: D,
    script: &mut S,
    out: &mut K,
    clock: C,
) -> Ended<D>
    ensures { DoesPlain at (C.gives clock) (taken S.Source script.old script.new) (written K.Sink out.old out.new)
        drive result.drive result.status result.log }
{
    let end = play(alloc, at, script, clock);
    let made = end.text(alloc);
    let (status, log) = end.into_parts();
    tell_made(out, made, status, log, drive)
}

/// Reads the script to its end and runs it.
fn play<S: Source, C: Clock>(
    alloc: Global,
    at: Option<Moment>,
    script: &mut S,
    clock: C,
) -> PlainEnd
    ensures { IsPlainEnd (taken S.Source script.old script.new) (C.gives clock) at result }
{
    let script = match read_calls(alloc, script) {
        Ok(script) => script,
        Err(Unread::Script(refusal)) => return PlainEnd::Script(refusal),
        Err(Unread::Source(counts)) => return PlainEnd::Source(counts),
        Err(Unread::NoMemory) => return PlainEnd::NoMemory(None),
    };
    match run_script(alloc, &script, at, clock) {
        Ok(log) => PlainEnd::Done(log),
        Err(NoMemory) => PlainEnd::NoMemory(None),
    }
}
