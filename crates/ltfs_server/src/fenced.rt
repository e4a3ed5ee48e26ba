//! A run over a drive whose owner allows no more than the run promises.

ghost use Rattle.std.specs.Prelude.{◌≡◌, ℕ, List, Option, Ok, Some};
ghost use Rattle.session_script.specs.Grammar.{script_of};
ghost use Rattle.commands.specs.CommandLine.Forms.{IsServeWords};
ghost use Rattle.session_run.specs.Timed.{one_moment};
ghost use Rattle.cartridge_meaning.specs.Meaning.{Stands};
ghost use Rattle.tape_types.specs.declared.moments.Moment.{Moment as Instant};
ghost use Rattle.promises.specs.ServingPromise.Crash.{IsSound};
ghost use Rattle.promises.specs.ServingPromise.Meanings.{cartridges};
ghost use Rattle.promises.specs.ServingPromise.Served.{CanTell};
ghost use Rattle.promises.specs.OrderLaws.Kept.{seen};
ghost use Rattle.commands.specs.BasicCommands.Runs.{taken, written};
ghost use Rattle.ltfs_server.specs.Sentence.{SentenceHolds, to_serve};

use crate::ended::Ended;
use crate::server::run;
use fenced_drive::{Fenced, Order, Unowned};
use std::alloc::Global;
use std::sync::Wait;
use std::thread::Threads;
use tape_drive::Drive;
use tape_edge::{Clock, Gate, Sink, Source};

/// Serves the ordered script on the ordered tree. Its body shows that what `run` asks of a drive's owner can be met by
/// one who allows just that. So whatever the run does, and whether it ends or not, no command is made of which a crash
/// could leave a cartridge that stands for no tree after some first calls.
pub fn serve_fenced<
    R: Threads + Wait + Sync,
    D: Unowned + Send,
    O: Order + Send,
    S: Source,
    K: Sink + Send,
    C: Clock + Send,
    G: Gate + Sync,
>(
    rt: &R,
    alloc: Global,
    words: &Vec<String>,
    drive: Fenced<D, O>,
    script: &mut S,
    out: K,
    clock: C,
    gate: &G,
) -> Ended<Fenced<D, O>, K>
    requires words { (at : Option Instant) × IsServeWords words.now.items at
        × (one_moment at (C.one clock) ≡ O.moment) }
    requires spelled { (text : List ℕ) × (S.left script.old ≡ Some text) × (script_of text ≡ Ok O.script) }
    requires stands { (generation : ℕ)
        × CanTell (λ c. Stands c O.facts O.tree generation × IsSound cartridges c) (D.commands drive.inner)
        (seen ⟦<Fenced<D, O> as Drive>⟧ drive) }
    ensures { SentenceHolds to_serve O.moment (taken S.Source script.old script.new) ⟦<Fenced<D, O> as Drive>⟧ drive
        result.drive (written K.Sink out result.out) result.status result.log }
{
    run(rt, alloc, words, drive, script, out, clock, gate)
}
