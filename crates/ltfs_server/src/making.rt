//! The command `make`.

ghost use Rattle.std.specs.Prelude.{◌≡◌, ◌≤◌, ℕ, true, Option as Maybe, IfOk, IfSome};
ghost use Rattle.session_script.specs.Bounds.{most_calls};
ghost use Rattle.session_script.specs.Made.{made_script};
ghost use Rattle.tape_edge.specs.Clocks.{IsSince1970};
ghost use Rattle.cartridge_meaning.specs.Notes.{HasHonestNotes};
ghost use Rattle.tape_types.specs.declared.moments.Moment.{Moment as Instant};
ghost use Rattle.promises.specs.ServingPromise.Ends.{bounded};
ghost use Rattle.line_printer.specs.Printing.{blank};
ghost use Rattle.session_run.specs.Printed.{IsLogPrinted};
ghost use Rattle.session_run.specs.Serving.{Whole};
ghost use Rattle.ltfs_server.specs.Making.{bytes_read, closed_line, done_count, is_done, is_refused, summary};
ghost use Rattle.promises.specs.CrashLaws.May.{MayServe};
ghost use Rattle.ltfs_server.specs.Promises.{DoesMake};
ghost use Rattle.commands.specs.BasicCommands.Runs.{written};
ghost use Rattle.session_run.specs.Timed.{one_moment};

use crate::ended::{Ended, tell_alone, with_sink};
use crate::serves::end_status;
use commands::basic_commands::{Status, bytes_of, tell_made};
use line_printer::Printer;
use plain_tree::Answer;
use session_run::{Host, ServeEnd, Served, TimedClock, end_line, serve_volume};
use session_script::{KeptReply, Log, Reply, Script, make_script};
use std::alloc::Global;
use std::sync::Wait;
use std::thread::Threads;
use tape_drive::Drive;
use tape_edge::{Clock, Gate, Sink};
use tape_types::{Bytes, Moment, NoMemory};

/// The command `make`: runs the script that is made for a count on the volume of the cartridge in the drive, closes the
/// volume, and writes how many calls were placed and done, how many bytes were read, and how many nodes the tree has.
pub fn run_make<
    R: Threads + Wait + Sync,
    D: Drive + Send,
    K: Sink + Send,
    C: Clock + Send,
    G: Gate + Sync,
>(host: &Host<'_, R, G>, count: u32, at: Option<Moment>, drive: D, out: K, clock: C) -> Ended<D, K>
    requires few { count ≤ most_calls }
    requires since { IfSome at IsSince1970 }
    requires honest { IfSome (D.held drive) HasHonestNotes }
    requires allowed { MayServe D.Drive (made_script count) (one_moment at (C.one clock)) drive }
    ensures { DoesMake (one_moment at (C.one clock)) count D.Drive drive result.drive (written K.Sink out result.out)
        result.status result.log }
{
    // The number of commands is in its range.
    let _commands_are_in_range = drive.commands();
    match make_script(host.alloc, count) {
        Ok(script) => run_made(host, at, drive, script, out, clock),
        Err(NoMemory) => tell_alone(out, b"memory\n", Status::NoMemory, drive),
    }
}

/// Serves a script that was made. The room of the printer is taken before the mount.
fn run_made<
    R: Threads + Wait + Sync,
    D: Drive + Send,
    K: Sink + Send,
    C: Clock + Send,
    G: Gate + Sync,
>(
    host: &Host<'_, R, G>,
    at: Option<Moment>,
    drive: D,
    script: Script,
    out: K,
    clock: C,
) -> Ended<D, K>
    requires since { IfSome at IsSince1970 }
    requires honest { IfSome (D.held drive) HasHonestNotes }
    requires allowed { MayServe D.Drive script (one_moment at (C.one clock)) drive }
    ensures { (count : ℕ) → script ≡ made_script count
        → DoesMake (one_moment at (C.one clock)) count D.Drive drive result.drive (written K.Sink out result.out)
        result.status result.log }
{
    // The number of commands is in its range.
    let _commands_are_in_range = drive.commands();
    match Printer::new(host.alloc, out, true) {
        Ok(printer) => {
            let clock = TimedClock::new(at, clock);
            let served = serve_volume(host, drive, clock, script, printer);
            tell_served(host.alloc, served)
        }
        Err(out) => tell_alone(out, b"memory\n", Status::NoMemory, drive),
    }
}

/// Tells how serving a made script ended, and what was done until then. The log wasn't printed.
fn tell_served<D: Drive, K: Sink>(alloc: Global, served: Served<D, K>) -> Ended<D, K>
    ensures { (count : ℕ) (moment : Maybe Instant) (start : D) (out : K)
        → Whole D.Drive start moment (made_script count) served
        → IsLogPrinted K.Sink (blank out true) served.printer served.log
        → DoesMake moment count D.Drive start result.drive (written K.Sink out result.out) result.status result.log }
{
    let Served {
        drive,
        printer,
        log,
        end,
    } = served;
    let mut out = printer.into_sink();
    let text = closed_text(alloc, &log, &end);
    let told = tell_made(&mut out, text, end_status(&end), log, drive);
    with_sink(told, out)
}

/// The summary, or why the volume was not closed.
fn closed_text(alloc: Global, log: &Option<Log>, end: &ServeEnd) -> Result<Bytes, NoMemory>
    ensures { IfOk result (λ text. text ≡ closed_line log.now end.now) }
{
    match (log, end) {
        (Some(log), ServeEnd::Done { nodes, .. }) => summary(alloc, log, *nodes),
        _ => end_line(alloc, end),
    }
}

/// What was done, in numbers.
fn summary(alloc: Global, log: &Log, nodes: u32) -> Result<Bytes, NoMemory>
    ensures { IfOk result (λ text. text ≡ summary log.now nodes) }
{
    let calls = log.history.len();
    let done = done_count(log.replies.as_slice());
    let read = bytes_read(log.replies.as_slice());
    Ok(bytes_of(format!(in alloc; "made {calls} {done} {read} {nodes}\n")?))
}

fn done_count(replies: &[KeptReply]) -> usize
    ensures { result ≡ done_count replies.now }
{
    let mut count = 0usize;
    for reply in replies {
        if is_kept_done(reply) {
            count += 1;
        }
    }
    count
}

/// Whether a call was done, and not refused. A reply that is gone was long, so its call was done.
#[tactic(auto, using(crate::proofs::DoneReplies::long_done))]
fn is_kept_done(kept: &KeptReply) -> bool
    ensures { result ≡ is_done kept.now }
{
    match kept.get() {
        Some(reply) => is_done(reply),
        None => true,
    }
}

/// Whether a call was done, and not refused.
fn is_done(reply: &Reply) -> bool
    ensures { result ≡ is_done reply.now }
{
    match reply {
        Reply::Answer(answer) => !is_refused(answer),
        Reply::Full { .. } => false,
        Reply::Fault(_) => false,
        Reply::NoMemory => false,
    }
}

fn is_refused(answer: &Answer) -> bool
    ensures { result ≡ is_refused answer.now }
{
    match answer {
        Answer::Refused(_) => true,
        _ => false,
    }
}

/// How many bytes were read, 2^64 - 1 at most.
fn bytes_read(replies: &[KeptReply]) -> u64
    ensures { result ≡ bounded (bytes_read replies.now) }
{
    let mut sum = 0u64;
    for reply in replies {
        sum = sum.saturating_add(reply.bytes() as u64);
    }
    sum
}
