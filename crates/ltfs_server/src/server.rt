ghost use Rattle.std.specs.Prelude.{ℕ, Bool, IfSome, Option};
ghost use Rattle.tape_types.specs.declared.moments.Moment.{Moment as Instant};
ghost use Rattle.commands.specs.CommandLine.Forms.{HasNoForm, IsFormatWords, IsLabel, IsListWords, IsMakeWords};
ghost use Rattle.commands.specs.CommandLine.Forms.{IsPlain, IsPlainWords, IsServe, IsServeWords};
ghost use Rattle.commands.specs.CommandLine.Forms.{IsGenerations, IsViewWords};
ghost use Rattle.commands.specs.declared.command_line.views.ViewWords.{ViewWords};
ghost use Rattle.commands.specs.declared.command_line.volumes.FormatWords.{FormatWords};
ghost use Rattle.cartridge_meaning.specs.Notes.{HasHonestNotes};
ghost use Rattle.generation_view.specs.ViewCommands.Promises.{DoesGenerations, DoesView};
ghost use Rattle.ltfs_server.specs.Outcomes.{Ending, EndsAs, IsCaused};
ghost use Rattle.commands.specs.BasicCommands.Promises.{DoesFormat, DoesLabel, DoesList, DoesPlain};
ghost use Rattle.ltfs_server.specs.Promises.{AskToMount, ComesOf, DoesAsked, DoesMake};
ghost use Rattle.ltfs_server.specs.Promises.{DoesServe, RefusesWords};
ghost use Rattle.commands.specs.BasicCommands.Runs.{TakesNothing, taken, written};
ghost use Rattle.ltfs_server.specs.Sentence.{Asked, Asks, SentenceHolds};
ghost use Rattle.session_run.specs.Timed.{one_moment};
ghost use Rattle.session_script.specs.Made.{made_script};
ghost use Rattle.tape_drive.specs.Crashes.{AllowsAll};
ghost use Rattle.promises.specs.CrashLaws.May.{MayServe};
ghost use Rattle.ltfs_server.specs.Allowed.{MayServeLeft};

use crate::ended::{Ended, tell_alone, with_sink};
use crate::making::run_make;
use crate::serves::run_serve;
use commands::basic_commands::{Status, run_format, run_label, run_list, run_plain};
use commands::command_line::{Command, WordsErr, read_words};
use generation_view::view_commands::{run_generations, run_view};
use session_run::Host;
use std::alloc::Global;
use std::sync::Wait;
use std::thread::Threads;
use tape_drive::Drive;
use tape_edge::{Clock, Gate, Sink, Source};

/// Runs the program: reads the words, and does what they ask for.
pub fn run<
    R: Threads + Wait + Sync,
    D: Drive + Send,
    S: Source,
    K: Sink + Send,
    C: Clock + Send,
    G: Gate + Sync,
>(
    rt: &R,
    alloc: Global,
    words: &Vec<String>,
    drive: D,
    script: &mut S,
    out: K,
    clock: C,
    gate: &G,
) -> Ended<D, K>
    // Where the cartridge is to be mounted, and the drive tells it, its notes are honest.
    requires honest { AskToMount words.now.items → IfSome (D.held drive) HasHonestNotes }
    // A drive that tells its cartridge has an owner, who allows what a crash may leave of it. For `format` everything
    // is allowed; for `serve` and `make` everything, or what the script may leave of the cartridge's tree.
    requires formats { (asked : FormatWords) → IsFormatWords words.now.items asked → AllowsAll D.allows }
    requires serves { (at : Option Instant) → IsServeWords words.now.items at
        → MayServeLeft D.Drive (S.left script.old) (one_moment at (C.one clock)) drive }
    requires makes { (count : ℕ) (at : Option Instant) → IsMakeWords words.now.items count at
        → MayServe D.Drive (made_script count) (one_moment at (C.one clock)) drive }
    // `plain` runs the script that is left in the source on a plain tree, prints the log, and leaves the drive alone.
    ensures plain { (at : Option Instant) → IsPlainWords words.now.items at
        → DoesPlain at (C.gives clock) (taken S.Source script.old script.new) (written K.Sink out result.out)
        drive result.drive result.status result.log }
    // `label` prints the labels of the cartridge in the drive, or which check fails, and only looks at it.
    ensures label { IsLabel words.now.items
        → DoesLabel D.Drive drive result.drive (written K.Sink out result.out) result.status result.log }
    // `list` prints the tree as which the cartridge reads, and with `--all` all of it, or which check fails, and only
    // looks at the cartridge.
    ensures list { (all : Bool) → IsListWords words.now.items all
        → DoesList all D.Drive drive result.drive (written K.Sink out result.out) result.status result.log }
    // `generations` prints the generations that the data partition of the cartridge still has, or why none, and `view`
    // the tree of one, or a file of it; both only look at the cartridge.
    ensures generations { IsGenerations words.now.items
        → DoesGenerations D.Drive drive result.drive (written K.Sink out result.out) result.status result.log }
    ensures view { (asked : ViewWords) → IsViewWords words.now.items asked
        → DoesView asked D.Drive drive result.drive (written K.Sink out result.out) result.status result.log }
    // `format` makes the cartridge in the drive the empty volume of the words, or tells why not.
    ensures format { (asked : FormatWords) → IsFormatWords words.now.items asked
        → DoesFormat asked (C.gives clock) D.Drive drive result.drive (written K.Sink out result.out)
        result.status result.log }
    // `serve` runs the script that is left in the source on the volume of the cartridge in the drive, prints each line
    // of the log when it and all before it are decided, closes the volume, and prints how it was closed, or tells why
    // not.
    ensures serve { (at : Option Instant) → IsServeWords words.now.items at
        → DoesServe (one_moment at (C.one clock)) (taken S.Source script.old script.new) D.Drive drive result.drive
        (written K.Sink out result.out) result.status result.log }
    // `make` runs a script that is made for a number on the volume of the cartridge in the drive, closes the volume,
    // and prints a summary, or tells why not.
    ensures make { (count : ℕ) (at : Option Instant) → IsMakeWords words.now.items count at
        → DoesMake (one_moment at (C.one clock)) count D.Drive drive result.drive (written K.Sink out result.out)
        result.status result.log }
    // The headline, for the words of `serve` and of `make`.
    ensures headline { (asked : Asked) (moment : Option Instant) → Asks (record {
      words = words.now.items;
      gives = C.gives clock;
      one = C.one clock;
      source = taken S.Source script.old script.new;
    }) asked moment
        → SentenceHolds asked moment (taken S.Source script.old script.new) D.Drive drive result.drive
        (written K.Sink out result.out) result.status result.log }
    // Words of no form are told, and nothing is done.
    ensures no_form { HasNoForm words.now.items
        → RefusesWords (written K.Sink out result.out) drive result.drive result.status result.log }
    // No other command than `plain` and `serve` reads the source.
    ensures unread { ¬ (IsPlain words.now.items) → ¬ (IsServe words.now.items)
        → TakesNothing (taken S.Source script.old script.new) }
    // Each status and each log comes of the words of some commands alone.
    ensures comes { ComesOf words.now.items result.status result.log }
    // Whatever the words: what is printed is the text of what the run came to, or a front of it where the sink failed.
    ensures told { (e : Ending) × IsCaused (record {
      words = words.now.items;
      gives = C.gives clock;
      one = C.one clock;
      source = taken S.Source script.old script.new;
    }) D.Drive drive result.drive e
        × EndsAs e (written K.Sink out result.out) result.status result.log }
{
    let host = Host {
        rt,
        alloc,
        gate,
        spares: true,
    };
    run_asked(&host, words, drive, script, out, clock)
}

/// The same, as one clause.
fn run_asked<
    R: Threads + Wait + Sync,
    D: Drive + Send,
    S: Source,
    K: Sink + Send,
    C: Clock + Send,
    G: Gate + Sync,
>(
    host: &Host<'_, R, G>,
    words: &Vec<String>,
    drive: D,
    script: &mut S,
    out: K,
    clock: C,
) -> Ended<D, K>
    requires honest { AskToMount words.now.items → IfSome (D.held drive) HasHonestNotes }
    requires formats { (asked : FormatWords) → IsFormatWords words.now.items asked → AllowsAll D.allows }
    requires serves { (at : Option Instant) → IsServeWords words.now.items at
        → MayServeLeft D.Drive (S.left script.old) (one_moment at (C.one clock)) drive }
    requires makes { (count : ℕ) (at : Option Instant) → IsMakeWords words.now.items count at
        → MayServe D.Drive (made_script count) (one_moment at (C.one clock)) drive }
    ensures { DoesAsked words.now.items (C.gives clock) (C.one clock) (taken S.Source script.old script.new)
        (written K.Sink out result.out) D.Drive drive result.drive result.status result.log }
{
    // The number of commands is in its range.
    let _commands_are_in_range = drive.commands();
    let alloc = host.alloc;
    let mut out = out;
    match read_words(alloc, words.as_slice()) {
        Ok(Command::Plain { at }) => {
            let told = run_plain(alloc, at, drive, script, &mut out, clock);
            with_sink(told, out)
        }
        Ok(Command::Label) => with_sink(run_label(alloc, drive, &mut out), out),
        Ok(Command::List { all }) => with_sink(run_list(alloc, all, drive, &mut out), out),
        Ok(Command::Generations) => with_sink(run_generations(alloc, drive, &mut out), out),
        Ok(Command::View(asked)) => with_sink(run_view(alloc, asked, drive, &mut out), out),
        Ok(Command::Format(asked)) => {
            let told = run_format(alloc, asked, drive, &mut out, clock);
            with_sink(told, out)
        }
        Ok(Command::Serve { at }) => run_serve(host, at, drive, script, out, clock),
        Ok(Command::Make { count, at }) => run_make(host, count, at, drive, out, clock),
        Err(WordsErr::Form) => tell_alone(out, b"words\n", Status::Words, drive),
        Err(WordsErr::NoMemory) => tell_alone(out, b"memory\n", Status::NoMemory, drive),
    }
}
