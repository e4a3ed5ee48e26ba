//! A run, a crash, and a second run on what the crash left.

ghost use Rattle.std.specs.Prelude.{◌≡◌, ◌≤◌, ℕ, [], IfOk, IfSome, List, None, Option};
ghost use Rattle.tape_types.specs.Cartridges.{FitsLimits};
ghost use Rattle.tape_drive.specs.Memory.{made};
ghost use Rattle.plain_tree.specs.Tree.{Tree};
ghost use Rattle.session_script.specs.declared.scripts.ScriptLine.{ScriptLine};
ghost use Rattle.cartridge_meaning.specs.Carried.{Carried};
ghost use Rattle.cartridge_meaning.specs.Notes.{HasHonestNotes};
ghost use Rattle.run_laws.specs.Memory.{IsReady};
ghost use Rattle.commands.specs.CommandLine.Forms.{IsServe};
ghost use Rattle.commands.specs.BasicCommands.Runs.{IsScriptIn, taken, written};
ghost use Rattle.ltfs_server.specs.Again.{HoldsLog, IsReadyAgain, cut_within, image_by};
ghost use Rattle.ltfs_server.specs.Runs.{RunsSo};
ghost use Rattle.ltfs_server.specs.Sentence.{to_serve};

use crate::ended::Ended;
use crate::server::run;
use session_run::Host;
use std::alloc::Global;
use std::sync::Wait;
use std::thread::Threads;
use tape_drive::{Cut, Drive, MemDrive};
use tape_edge::{Clock, Gate, Sink, Source};
use tape_types::{Cartridge, List, NoMemory};

/// What two runs have left, and what the crash between them left.
#[derive(Drop)]
pub struct Twice<K> {
    /// How the first run ended, with its drive.
    pub first: Ended<MemDrive, K>,
    /// What a crash left of that drive's cartridge.
    pub image: Cartridge,
    /// How the second run ended, over a new drive with that image.
    pub second: Ended<MemDrive, K>,
}

/// Serves a script, takes what a crash then leaves by two cuts, and serves a second script on that, with the same words
/// and gate. The second drive has the limits of the first, and no command of it is to fail. A cut whose moment isn't
/// below `moments` counts as the last one.
///
/// Fails with `NoMemory` where there is no memory for the image. Any other want of memory is within one of the runs.
pub fn crash_then_run<
    R: Threads + Wait + Sync,
    S: Source,
    K: Sink + Send + Drop,
    C: Clock + Send,
    G: Gate + Sync,
>(
    rt: &R,
    alloc: Global,
    words: &Vec<String>,
    drive: MemDrive,
    ip: Cut,
    dp: Cut,
    script: &mut S,
    out: K,
    clock: C,
    gate: &G,
    script2: &mut S,
    out2: K,
    clock2: C,
) -> Result<Twice<K>, NoMemory>
    requires words { IsServe words.now.items }
    // The cartridge stands for a tree and is sound, and nothing is pending.
    requires ready { (facts : Carried) × (tree : Tree) × (generation : ℕ) × IsReady facts tree generation drive }
    // The first run keeps all that `run` promises, for the drive, the script and the sink that were handed in.
    ensures first { IfOk result (λ t. RunsSo (record {
      words = words.now.items;
      gives = C.gives clock;
      one = C.one clock;
      source = taken S.Source script.old script.new;
    }) ⟦<MemDrive as Drive>⟧ drive t.first.drive (written K.Sink out t.first.out) t.first.status t.first.log) }
    // The image is what a crash leaves of the first run's drive by the two cuts.
    ensures image { IfOk result (λ t. t.image ≡ image_by ip dp t.first.drive) }
    // Where the first run left no log, the image is the cartridge of the drive that was handed in.
    ensures unserved { IfOk result (λ t. t.first.log ≡ None → t.image ≡ drive.held) }
    // Where it left a log, the image stands for the tree after some first placements of the log, among them all
    // that were placed before a sync which was acknowledged while the number of commands could still rise.
    ensures survives { IfOk result (λ t. IfSome t.first.log (λ log. (facts : Carried) (tree : Tree) (generation : ℕ)
        → IsReady facts tree generation drive
        → (lines : List ScriptLine) × IsScriptIn (taken S.Source script.old script.new) lines
        × HoldsLog facts lines tree log t.image)) }
    // The second run keeps all that `run` promises, for a new drive with the image, the second script and sink.
    ensures second { IfOk result (λ t. RunsSo (record {
      words = words.now.items;
      gives = C.gives clock2;
      one = C.one clock2;
      source = taken S.Source script2.old script2.new;
    }) ⟦<MemDrive as Drive>⟧ (made t.image drive.limits []) t.second.drive (written K.Sink out2 t.second.out)
        t.second.status t.second.log) }
    // That drive is ready for the tree for which the image stands, so the second run is spoken of as the first one is.
    ensures again { IfOk result (λ t. (facts : Carried) (tree : Tree) (generation : ℕ)
        → IsReady facts tree generation drive
        → IsReadyAgain to_serve (taken S.Source script.old script.new) facts tree generation t.first.log
        (made t.image drive.limits [])) }
{
    let host = Host {
        rt,
        alloc,
        gate,
        spares: true,
    };
    let first = run_once(&host, words, drive, script, out, clock);
    let image = crash_within(&first.drive, ip, dp)?;
    let next = drive_after(alloc, &first.drive, ip, dp)?;
    let second = run_once(&host, words, next, script2, out2, clock2);
    Ok(Twice {
        first,
        image,
        second,
    })
}

/// All that `run` promises, as one clause, over a drive in memory.
fn run_once<R: Threads + Wait + Sync, S: Source, K: Sink + Send, C: Clock + Send, G: Gate + Sync>(
    host: &Host<'_, R, G>,
    words: &Vec<String>,
    drive: MemDrive,
    script: &mut S,
    out: K,
    clock: C,
) -> Ended<MemDrive, K>
    requires honest { HasHonestNotes drive.held }
    ensures { RunsSo (record {
      words = words.now.items;
      gives = C.gives clock;
      one = C.one clock;
      source = taken S.Source script.old script.new;
    }) ⟦<MemDrive as Drive>⟧ drive result.drive (written K.Sink out result.out) result.status result.log }
{
    let Host {
        rt,
        alloc,
        gate,
        spares: _,
    } = *host;
    run(rt, alloc, words, drive, script, out, clock, gate)
}

/// A new drive with what a crash leaves of this one.
fn drive_after(alloc: Global, drive: &MemDrive, ip: Cut, dp: Cut) -> Result<MemDrive, NoMemory>
    ensures { IfOk result (λ next. next ≡ made (image_by ip dp drive.now) drive.now.limits []) }
{
    let image = crash_within(drive, ip, dp)?;
    Ok(MemDrive::new(alloc, image, drive.limits(), List::new(alloc)))
}

/// What a crash leaves of a drive by two cuts.
fn crash_within(drive: &MemDrive, ip: Cut, dp: Cut) -> Result<Cartridge, NoMemory>
    ensures image { IfOk result (λ image. image ≡ image_by ip dp drive.now) }
    ensures left { IfOk result (λ image. ⟦<MemDrive as Drive>⟧.leaves drive.now image) }
    ensures fits { IfOk result (λ image. FitsLimits drive.now.limits image) }
{
    let count = drive.moments();
    drive.crash(cut_within(ip, count), cut_within(dp, count))
}

/// A cut of so many moments: one whose moment isn't there counts as the last.
fn cut_within(cut: Cut, count: u64) -> Cut
    requires { 1 ≤ count }
    ensures { result ≡ cut_within count cut }
{
    Cut {
        moment: cut.moment.min(count - 1),
        torn: cut.torn,
    }
}
