//! A script on the cartridge in a drive, whoever tells afterwards what came of it.

ghost use Rattle.std.specs.Prelude.{◌≡◌, ◌≤◌, ◌-◌, ◌^◌, IfSome};
ghost use Rattle.cartridge_meaning.specs.Mounts.{IsMount, Mounts};
ghost use Rattle.cartridge_meaning.specs.Notes.{HasHonestNotes};
ghost use Rattle.promises.specs.ServingPromise.Ends.{begun};
ghost use Rattle.promises.specs.CrashLaws.May.{MayServe, MayStart};
ghost use Rattle.line_printer.specs.Printing.{blank};
ghost use Rattle.session_run.specs.Printed.{IsLogPrinted};
ghost use Rattle.session_run.specs.Serving.{IsBegun, IsLookedAt, Whole};

use crate::ends::{ServeEnd, Served, mount_end, of_close};
use crate::host::Host;
use crate::ran::{Ran, RanEnd, run_sessions};
use cartridge_meaning::Mounted;
use line_printer::Printer;
use mount_recover::mount;
use promises::serving_promise::Kept;
use run_laws::plays_are_runs;
use session_script::Script;
use std::snapshot::Snapshot;
use std::sync::Wait;
use std::thread::Threads;
use tape_desk::Shelf;
use tape_drive::Drive;
use tape_edge::{Clock, Gate, Sink};
use volume_core::Volume;

/// Mounts the cartridge in a drive, runs all sessions of a script on its volume, and closes the volume. Each line of
/// the log is printed in the turn in which it and all before it are decided, all of them before the close. Each command
/// is made only where the owner of the drive allows all that a crash may leave of it.
pub fn serve_volume<
    R: Threads + Wait + Sync,
    D: Drive + Send,
    C: Clock + Send,
    K: Sink + Send,
    G: Gate + Sync,
>(host: &Host<'_, R, G>, drive: D, clock: C, script: Script, printer: Printer<K>) -> Served<D, K>
    requires honest { IfSome (D.held drive) HasHonestNotes }
    requires allowed { MayServe D.Drive script (C.one clock) drive }
    requires unprinted { printer ≡ blank printer.first printer.quiet }
    ensures whole { Whole D.Drive drive (C.one clock) script result }
    ensures printed { IsLogPrinted K.Sink printer result.printer result.log }
{
    // The capacities are in their range.
    let _capacities_are_in_range = drive.limits();
    // The number of faults is in its range.
    let _faults_are_in_range = drive.faults();
    let since = Snapshot::of(&drive.commands());
    let mut drive = drive;
    match mount(host.alloc, &mut drive) {
        Ok(mounted) => serve_mounted(host, mounted, drive, clock, script, printer, since),
        Err(error) => Served {
            drive,
            printer,
            log: None,
            end: mount_end(error),
        },
    }
}

/// Runs a script on a volume that was mounted, and closes it.
fn serve_mounted<
    R: Threads + Wait + Sync,
    D: Drive + Send,
    C: Clock + Send,
    K: Sink + Send,
    G: Gate + Sync,
>(
    host: &Host<'_, R, G>,
    mounted: Mounted,
    drive: D,
    clock: C,
    script: Script,
    printer: Printer<K>,
    since: Snapshot<u64>,
) -> Served<D, K>
    requires mounts { IfSome (D.held drive) (λ c. Mounts c mounted) }
    requires mount { IsMount (D.limits drive) mounted }
    requires reached { since.value ≤ D.commands drive }
    requires allowed { MayStart D.Drive mounted drive script (C.one clock) since.value }
    requires unprinted { printer ≡ blank printer.first printer.quiet }
    ensures whole { (start : D) → D.faults start ≤ 2 ^ 64 - 1 → IsLookedAt D.Drive start drive
        → since.value ≡ D.commands start → Whole D.Drive start (C.one clock) script result }
    ensures printed { IsLogPrinted K.Sink printer result.printer result.log }
{
    match Volume::start(
        host.alloc,
        mounted,
        drive,
        clock,
        script,
        since,
        host.spares,
    ) {
        Ok(volume) => serve_begun(host, Shelf::new(volume, printer)),
        Err(Kept { drive, clock: _ }) => Served {
            drive,
            printer,
            log: None,
            end: ServeEnd::NoMemory,
        },
    }
}

/// Runs the script of a volume that was begun, and closes the volume.
fn serve_begun<
    R: Threads + Wait + Sync,
    D: Drive + Send,
    C: Clock + Send,
    K: Sink + Send,
    G: Gate + Sync,
>(host: &Host<'_, R, G>, shelf: Shelf<D, C, K>) -> Served<D, K>
    requires fresh { shelf.volume ≡ begun shelf.volume.fixed shelf.volume.next }
    requires unprinted { shelf.printer ≡ blank shelf.printer.first shelf.printer.quiet }
    ensures whole { (start : D) → D.faults start ≤ 2 ^ 64 - 1 → IsBegun D.Drive start shelf.volume.fixed
        → Whole D.Drive start shelf.volume.fixed.moment shelf.volume.fixed.script result }
    ensures printed { IsLogPrinted K.Sink shelf.printer result.printer result.log }
{
    let sessions = shelf.volume.script().sessions();
    let Ran {
        shelf: ran,
        outcome,
    } = run_sessions(host, shelf, sessions);
    let Shelf { volume, printer } = ran;
    match outcome {
        RanEnd::Done => {
            plays_are_runs::<D>();
            of_close(volume.close(), printer)
        }
        RanEnd::NoMemory => {
            let Kept { drive, clock: _ } = volume.part();
            Served {
                drive,
                printer,
                log: None,
                end: ServeEnd::NoMemory,
            }
        }
    }
}
