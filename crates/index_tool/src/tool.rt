ghost use Rattle.std.specs.Prelude.{◌≡◌, ◌⊎◌, [], ◌∷◌, IfSome};
ghost use Rattle.tape_types.specs.Counts.{Rose};
ghost use Rattle.index_tool.specs.declared.outcomes.Outcome.{Outcome as Ending};
ghost use Rattle.index_tool.specs.declared.words.Command.TheVariants as commands;
ghost use Rattle.index_tool.specs.Tool.{IsCommand, IsKnown, IsOneOf};
ghost use Rattle.index_tool.specs.Outcomes.{IsAnswer, IsCanon, IsCaused, IsChecked, IsJudged, IsOutcomeOf, IsRefusal};
ghost use Rattle.index_tool.specs.Outcomes.{IsTold, IsToldWhy, IsWrittenOf, TellsText};

use crate::outcomes::Outcome;
use crate::words::{Command, read_words};
use index_model::{Index, IndexErr};
use index_read::read_index;
use index_write::index_text;
use std::alloc::Global;
use tape_edge::{ReadFailure, Sink, Source, read_input};
use tape_types::{Bytes, NoMemory};

/// More bytes than an input can have.
const NO_LIMIT: usize = 1 << 63;

/// Runs the program: reads the words and the input, and says whether that is the document of an
/// index, or prints the one text of the index. Gives the status with which the program ends: 0
/// done, 1 other words, 2 a refused document, 5 a failed read, 6 a failed write, 7 want of memory.
pub fn run<S: Source, K: Sink>(
    alloc: Global,
    words: &Vec<String>,
    source: &mut S,
    out: &mut K,
) -> u8
    // After status 0 the input was the document of an index,
    // and its generation and the count of its nodes were printed,
    ensures checked { result ≡ 0 → IsCommand words.now.items commands.Check →
        IfSome (S.left source.old) (λ text. IsChecked text (K.written out.old) (K.written out.new)) }
    // or its one text.
    ensures canon { result ≡ 0 → IsCommand words.now.items commands.Canon →
        IfSome (S.left source.old) (λ text. IsCanon text (K.written out.old) (K.written out.new)) }
    // After status 2 the input was no such document, and why was printed.
    ensures refused { result ≡ 2 → IsKnown words.now.items
        × IfSome (S.left source.old) (λ text. IsToldWhy text (K.written out.old) (K.written out.new)) }

    // Other words are told, and only these.
    ensures words { ¬ (IsKnown words.now.items) → IsOneOf result (1 ∷ 6 ∷ []) }
    ensures only_words { result ≡ 1 → ¬ (IsKnown words.now.items) }
    // A failed read or write is told only where the source or the sink failed in this call.
    ensures only_read { result ≡ 5 → Rose (S.faults source.old) (S.faults source.new) }
    ensures only_write { result ≡ 6 → Rose (K.faults out.old) (K.faults out.new) }
    ensures statuses { IsOneOf result (0 ∷ 1 ∷ 2 ∷ 5 ∷ 6 ∷ 7 ∷ []) }
    // What is printed is the text of what the run came to, or a front of it where the sink failed.
    ensures told { (o : Ending)
        × IsCaused words.now.items (S.left source.old) (S.left source.new) (S.faults source.old) (S.faults source.new) o
        × IsTold o (K.written out.old) (K.written out.new) (K.faults out.old) (K.faults out.new) result }
{
    run_told(alloc, words, source, out)
}

fn run_told<S: Source, K: Sink>(
    alloc: Global,
    words: &Vec<String>,
    source: &mut S,
    out: &mut K,
) -> u8
    ensures { (o : Ending)
        × IsCaused words.now.items (S.left source.old) (S.left source.new) (S.faults source.old) (S.faults source.new) o
        × IsTold o (K.written out.old) (K.written out.new) (K.faults out.old) (K.faults out.new) result }
{
    match read_words(words.as_slice()) {
        Some(command) => {
            let outcome = run_command(alloc, command, source);
            finish(alloc, out, outcome)
        }
        None => tell(out, b"words\n", 1),
    }
}

/// Reads the input to its end, and does what is asked for.
fn run_command<S: Source>(alloc: Global, command: Command, source: &mut S) -> Outcome
    ensures { IsOutcomeOf command
        (S.left source.old) (S.left source.new) (S.faults source.old) (S.faults source.new) result }
{
    match read_input(alloc, source, NO_LIMIT) {
        Ok(text) => judge(alloc, command, text),
        Err(ReadFailure::Fault(counts)) => Outcome::Source(counts),
        Err(ReadFailure::NoMemory) => Outcome::NoMemory,
    }
}

/// What a text comes to. It is given back before the one text is made.
fn judge(alloc: Global, command: Command, text: Vec<u8>) -> Outcome
    ensures { IsJudged command text.items result }
{
    let read = read_index(alloc, text.as_slice());
    drop(text);
    match read {
        Ok(index) => answer(alloc, command, &index),
        Err(refusal) => refused(refusal),
    }
}

/// What the index of a document comes to.
fn answer(alloc: Global, command: Command, index: &Index) -> Outcome
    ensures { IsAnswer command index.now result }
{
    match command {
        Command::Check => Outcome::Sound {
            generation: index.generation,
            nodes: index.nodes.len() as u64,
        },
        Command::Canon => written(alloc, index),
    }
}

fn refused(refusal: IndexErr) -> Outcome
    ensures { IsRefusal refusal result }
{
    match refusal {
        IndexErr::NoMemory => Outcome::NoMemory,
        refusal => Outcome::Refused(refusal),
    }
}

/// The one text of an index.
fn written(alloc: Global, index: &Index) -> Outcome
    ensures { IsWrittenOf index.now result }
{
    let mut text = Vec::new(alloc);
    match index_text(index, &mut text) {
        Ok(()) => Outcome::Written(Bytes::from_vec(text)),
        Err(NoMemory) => Outcome::NoMemory,
    }
}

/// Prints what a run came to. Where memory for its text is refused, that is what it came to.
fn finish<K: Sink>(alloc: Global, out: &mut K, outcome: Outcome) -> u8
    ensures { IsTold outcome (K.written out.old) (K.written out.new) (K.faults out.old) (K.faults out.new) result
        ⊎ IsTold Outcome.NoMemory (K.written out.old) (K.written out.new) (K.faults out.old) (K.faults out.new) result }
{
    let status = outcome.status();
    match outcome.into_text(alloc) {
        Ok(text) => tell(out, text.as_slice(), status),
        Err(NoMemory) => tell(out, b"memory\n", 7),
    }
}

fn tell<K: Sink>(out: &mut K, text: &[u8], status: u8) -> u8
    ensures { TellsText text.now status
        (K.written out.old) (K.written out.new) (K.faults out.old) (K.faults out.new) result }
{
    match out.write(text) {
        Ok(()) => status,
        Err(_) => 6,
    }
}
