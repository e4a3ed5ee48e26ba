//! How the serving of a cartridge ends, and the line that tells it.

ghost use Rattle.std.specs.Prelude.{◌≡◌, ◌≢◌, ◌++◌, ℕ, [], List, codes, decimal, Some, IfOk};
ghost use Rattle.cartridge_meaning.specs.declared.errors.MountErr.{MountErr as MountFault};
ghost use Rattle.line_printer.specs.Printing.{HasTaken, IsOver};
ghost use Rattle.session_run.specs.Serving.{closed_end, end_line, mount_end};
ghost use Rattle.session_run.specs.declared.ends.ServeEnd.TheVariants as ends;

use cartridge_meaning::MountErr;
use commands::basic_commands::{bytes_of, drive_text, full_text, mount_text};
use line_printer::Printer;
use promises::serving_promise::{CloseEnd, Closed};
use session_script::Log;
use std::alloc::Global;
use tape_edge::Sink;
use tape_types::{Bytes, NoMemory, Twin};

/// How the serving of a cartridge ended.
#[derive(Clone, Copy)]
pub enum ServeEnd {
    /// All calls were made, and the volume was closed.
    Done {
        /// As which the cartridge reads now.
        generation: u64,
        /// The steps of the head until the close, and over how many positions they went, 2^64 - 1 at most.
        steps: u64,
        travel: u64,
        /// How many nodes the tree has.
        nodes: u32,
    },
    /// The cartridge was not mounted: the first check that fails.
    Volume(MountErr),
    /// The drive failed as the cartridge was mounted, or in the close: its count of faults before and after.
    Drive(Twin),
    /// A partition has too few positions for the close.
    Full {
        need: u64,
        limit: u64,
    },
    /// Memory was refused before the first call, or to the close.
    NoMemory,
}

/// What the serving of a cartridge gives back.
pub struct Served<D, K: Sink> {
    pub drive: D,
    /// What has printed the log, where there is one.
    pub printer: Printer<K>,
    /// What was done, wherever the calls were made.
    pub log: Option<Log>,
    pub end: ServeEnd,
}

/// The line of an end: `closed GENERATION STEPS TRAVEL`, or the line of the fault.
pub fn end_line(alloc: Global, end: &ServeEnd) -> Result<Bytes, NoMemory>
    ensures { IfOk result (λ line. line ≡ end_line end.now) }
{
    match *end {
        ServeEnd::Done {
            generation,
            steps,
            travel,
            nodes: _,
        } => Ok(bytes_of(format!(in alloc; "closed {generation} {steps} {travel}\n")?)),
        ServeEnd::Volume(error) => mount_text(alloc, error),
        ServeEnd::Drive(counts) => drive_text(alloc, counts),
        ServeEnd::Full { need, limit } => full_text(alloc, need, limit),
        ServeEnd::NoMemory => Ok(bytes_of(format!(in alloc; "memory\n")?)),
    }
}

/// Prints the line of an end behind the log. It takes no memory.
pub fn print_end<K: Sink>(printer: &mut Printer<K>, end: &ServeEnd)
    requires mounted { (error : MountFault) → end.now ≢ ends.Volume error }
    ensures over { IsOver printer.old printer.new }
    ensures none { printer.new.waits ≡ [] }
    ensures text { (text : List ℕ) → HasTaken K.Sink printer.old text
        → HasTaken K.Sink printer.new (text ++ end_line end.now) }
{
    put_end(printer, end);
    printer.send();
}

/// Puts the line of an end behind the log.
fn put_end<K: Sink>(printer: &mut Printer<K>, end: &ServeEnd)
    requires mounted { (error : MountFault) → end.now ≢ ends.Volume error }
    ensures over { IsOver printer.old printer.new }
    ensures text { (text : List ℕ) → HasTaken K.Sink printer.old text
        → HasTaken K.Sink printer.new (text ++ end_line end.now) }
{
    match *end {
        ServeEnd::Done {
            generation,
            steps,
            travel,
            nodes: _,
        } => {
            print_word(printer, b"closed ", generation);
            print_word(printer, b" ", steps);
            print_last(printer, b" ", travel);
        }
        ServeEnd::Volume(_) => unreachable!(),
        ServeEnd::Drive(counts) => {
            print_word(printer, b"drive ", counts.before);
            print_last(printer, b" ", counts.after);
        }
        ServeEnd::Full { need, limit } => {
            print_word(printer, b"full ", need);
            print_last(printer, b" ", limit);
        }
        ServeEnd::NoMemory => printer.put(b"memory\n"),
    }
}

/// Prints a number behind a word.
fn print_word<K: Sink>(printer: &mut Printer<K>, word: &[u8], number: u64)
    ensures over { IsOver printer.old printer.new }
    ensures text { (text : List ℕ) → HasTaken K.Sink printer.old text
        → HasTaken K.Sink printer.new (text ++ (word.now ++ decimal number)) }
{
    printer.put(word);
    printer.put_number(number);
}

/// Prints a number behind a word, and ends the line.
fn print_last<K: Sink>(printer: &mut Printer<K>, word: &[u8], number: u64)
    ensures over { IsOver printer.old printer.new }
    ensures text { (text : List ℕ) → HasTaken K.Sink printer.old text
        → HasTaken K.Sink printer.new (text ++ (word.now ++ (decimal number ++ codes "\n"))) }
{
    print_word(printer, word, number);
    printer.put(b"\n");
}

/// How serving ends where the cartridge was not mounted.
pub fn mount_end(error: MountErr) -> ServeEnd
    ensures { result ≡ mount_end error }
{
    match error {
        MountErr::Drive(counts) => ServeEnd::Drive(counts),
        MountErr::NoMemory => ServeEnd::NoMemory,
        _ => ServeEnd::Volume(error),
    }
}

/// How serving ends where the volume was closed.
fn closed_end(outcome: CloseEnd, steps: u64, travel: u64, nodes: u32) -> ServeEnd
    ensures { result ≡ closed_end outcome steps travel nodes }
{
    match outcome {
        CloseEnd::Done { generation } => ServeEnd::Done {
            generation,
            steps,
            travel,
            nodes,
        },
        CloseEnd::Full { need, limit } => ServeEnd::Full { need, limit },
        CloseEnd::Fault(counts) => ServeEnd::Drive(counts),
        CloseEnd::NoMemory => ServeEnd::NoMemory,
    }
}

/// What comes of a volume that was closed, and of what has printed its log.
pub fn of_close<D, K: Sink>(closed: Closed<D>, printer: Printer<K>) -> Served<D, K>
    ensures drive { result.drive ≡ closed.drive }
    ensures printer { result.printer ≡ printer }
    ensures log { result.log ≡ Some closed.log }
    ensures end { result.end ≡ closed_end closed.outcome closed.steps closed.travel closed.nodes }
{
    let Closed {
        drive,
        log,
        outcome,
        steps,
        travel,
        nodes,
    } = closed;
    Served {
        drive,
        printer,
        log: Some(log),
        end: closed_end(outcome, steps, travel, nodes),
    }
}
