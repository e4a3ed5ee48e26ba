//! The command `serve`.

ghost use Rattle.std.specs.Prelude.{◌≡◌, ◌≢◌, cond, false, IfSome, List, Option};
ghost use Rattle.tape_types.specs.declared.moments.Moment.{Moment as Instant};
ghost use Rattle.session_script.specs.declared.scripts.ScriptLine.{ScriptLine};
ghost use Rattle.tape_edge.specs.Clocks.{IsSince1970};
ghost use Rattle.cartridge_meaning.specs.Notes.{HasHonestNotes};
ghost use Rattle.commands.specs.BasicCommands.Runs.{IsScriptIn, Taken, taken, written};
ghost use Rattle.commands.specs.BasicCommands.Statuses.{status_number};
ghost use Rattle.cartridge_meaning.specs.declared.errors.MountErr.{MountErr as MountFault};
ghost use Rattle.line_printer.specs.Printing.{blank};
ghost use Rattle.promises.specs.CrashLaws.May.{MayServe};
ghost use Rattle.session_run.specs.Printed.{IsLogPrinted};
ghost use Rattle.session_run.specs.Serving.{Whole};
ghost use Rattle.session_run.specs.declared.ends.ServeEnd.TheVariants as ends;
ghost use Rattle.session_run.specs.Timed.{one_moment};
ghost use Rattle.ltfs_server.specs.Allowed.{MayServeLeft};
ghost use Rattle.ltfs_server.specs.Promises.{DoesServe};
ghost use Rattle.ltfs_server.specs.Serving.{end_status};

use crate::ended::{Ended, tell_alone, with_sink};
use commands::basic_commands::{Status, read_calls, tell_made, unread_status, unread_text};
use line_printer::Printer;
use session_run::{Host, ServeEnd, Served, TimedClock, end_line, print_end, serve_volume};
use session_script::Script;
use std::alloc::Global;
use std::sync::Wait;
use std::thread::Threads;
use tape_drive::Drive;
use tape_edge::{Clock, Gate, Sink, Source};
use tape_types::Moment;

/// The command `serve`: reads the script, mounts the cartridge in the drive, serves the script on its volume and closes
/// it, and writes the log and how the volume was closed.
pub fn run_serve<
    R: Threads + Wait + Sync,
    D: Drive + Send,
    S: Source,
    K: Sink + Send,
    C: Clock + Send,
    G: Gate + Sync,
>(
    host: &Host<'_, R, G>,
    at: Option<Moment>,
    drive: D,
    script: &mut S,
    out: K,
    clock: C,
) -> Ended<D, K>
    requires since { IfSome at IsSince1970 }
    requires honest { IfSome (D.held drive) HasHonestNotes }
    requires allowed { MayServeLeft D.Drive (S.left script.old) (one_moment at (C.one clock)) drive }
    ensures { DoesServe (one_moment at (C.one clock)) (taken S.Source script.old script.new) D.Drive drive result.drive
        (written K.Sink out result.out) result.status result.log }
{
    // The number of commands is in its range.
    let _commands_are_in_range = drive.commands();
    match read_calls(host.alloc, script) {
        Ok(calls) => serve_calls(host, at, drive, calls, out, clock),
        Err(why) => {
            let mut out = out;
            let text = unread_text(host.alloc, why);
            let told = tell_made(&mut out, text, unread_status(why), None, drive);
            with_sink(told, out)
        }
    }
}

/// Serves a script that was read. The room of the printer is taken before the mount.
fn serve_calls<
    R: Threads + Wait + Sync,
    D: Drive + Send,
    K: Sink + Send,
    C: Clock + Send,
    G: Gate + Sync,
>(
    host: &Host<'_, R, G>,
    at: Option<Moment>,
    drive: D,
    calls: Script,
    out: K,
    clock: C,
) -> Ended<D, K>
    requires since { IfSome at IsSince1970 }
    requires honest { IfSome (D.held drive) HasHonestNotes }
    requires allowed { MayServe D.Drive calls (one_moment at (C.one clock)) drive }
    ensures { (source : Taken) → IsScriptIn source calls
        → DoesServe (one_moment at (C.one clock)) source D.Drive drive result.drive (written K.Sink out result.out)
        result.status result.log }
{
    // The number of commands is in its range.
    let _commands_are_in_range = drive.commands();
    match Printer::new(host.alloc, out, false) {
        Ok(printer) => {
            let clock = TimedClock::new(at, clock);
            let served = serve_volume(host, drive, clock, calls, printer);
            tell_served(host.alloc, served)
        }
        Err(out) => tell_alone(out, b"memory\n", Status::NoMemory, drive),
    }
}

/// Tells how serving ended, behind the log, where there is one.
fn tell_served<D: Drive, K: Sink>(alloc: Global, served: Served<D, K>) -> Ended<D, K>
    requires mounted { IfSome served.log (λ log. (error : MountFault) → served.end ≢ ends.Volume error) }
    ensures { (script : List ScriptLine) (moment : Option Instant) (start : D) (source : Taken) (out : K)
        → Whole D.Drive start moment script served → IsLogPrinted K.Sink (blank out false) served.printer served.log
        → IsScriptIn source script
        → DoesServe moment source D.Drive start result.drive (written K.Sink out result.out) result.status result.log }
{
    let Served {
        drive,
        printer,
        log,
        end,
    } = served;
    match log {
        Some(log) => {
            let mut printer = printer;
            print_end(&mut printer, &end);
            Ended {
                status: printed_status(&printer, &end).number(),
                drive,
                out: printer.into_sink(),
                log: Some(log),
            }
        }
        None => {
            let mut out = printer.into_sink();
            let text = end_line(alloc, &end);
            let told = tell_made(&mut out, text, end_status(&end), None, drive);
            with_sink(told, out)
        }
    }
}

/// The status of an end that was printed.
fn printed_status<K: Sink>(printer: &Printer<K>, end: &ServeEnd) -> Status
    ensures { status_number result ≡ cond printer.now.broken 6 (end_status end.now) }
{
    if printer.is_broken() {
        Status::Sink
    } else {
        end_status(end)
    }
}

/// The status of an end.
pub fn end_status(end: &ServeEnd) -> Status
    ensures { status_number result ≡ end_status end.now }
{
    match end {
        ServeEnd::Done { .. } => Status::Done,
        ServeEnd::Volume(_) => Status::Volume,
        ServeEnd::Drive(_) => Status::Drive,
        ServeEnd::Full { .. } => Status::Full,
        ServeEnd::NoMemory => Status::NoMemory,
    }
}
