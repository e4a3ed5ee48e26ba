// Checks the document of an index, or writes its index in the one form in which a server writes it.
#![tactic(auto)]

mod outcomes;
mod tool;
mod words;

use std::alloc::Global;
use std::env;
use std::process::ExitCode;
use tape_edge::{Patient, ReaderSource, WriterSink};
use tool::run;

fn main(rt: HostRuntime) -> ExitCode {
    let words = words_of(&rt, rt.alloc());
    let mut source = ReaderSource::new(Patient::new(rt.stdin(), &rt));
    let mut sink = WriterSink::new(Patient::new(rt.stdout(), &rt));
    ExitCode::from(run(rt.alloc(), &words, &mut source, &mut sink))
}

/// The words of the command line without the program's name, or none where they can't be had.
fn words_of<R: std::rt::Env + AllocGlobal>(rt: &R, alloc: Global) -> Vec<String> {
    match env::args(rt) {
        Ok(words) => words.skip(1).collect(alloc).unwrap_or(Vec::new(alloc)),
        Err(_) => Vec::new(alloc),
    }
}
