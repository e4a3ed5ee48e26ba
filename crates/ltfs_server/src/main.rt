// The volume server's program.
#![tactic(auto)]

mod ended;
mod fenced;
mod laws;
mod making;
mod server;
mod serves;
mod twice;

use commands::basic_commands::Status;
use file_drive::{Claim, FileDrive};
use server::run;
use std::alloc::{AllocError, Global};
use std::env;
use std::io::ErrorKind;
use std::process::ExitCode;
use tape_edge::{OpenGate, Patient, ReaderSource, SystemClock, WriterSink};
use tape_types::NoMemory;

fn main(rt: HostRuntime) -> ExitCode {
    let Ok(words) = words_of(&rt, rt.alloc()) else {
        return starved(&rt);
    };
    let Ok(drive) = drive_of(&rt, rt.alloc(), &words) else {
        return starved(&rt);
    };
    let mut source = ReaderSource::new(Patient::new(rt.stdin(), &rt));
    let sink = WriterSink::new(Patient::new(rt.stdout(), &rt));
    let Ok(host) = rt.clone() else {
        return starved(&rt);
    };
    let ended = run(
        &rt,
        rt.alloc(),
        &words,
        drive,
        &mut source,
        sink,
        SystemClock::new(host),
        &OpenGate,
    );
    ExitCode::from(ended.status)
}

/// Tells that memory was refused.
fn starved(rt: &HostRuntime) -> ExitCode {
    let _ = println!(rt; "memory");
    ExitCode::from(Status::NoMemory.number())
}

/// The drive over the folder of the second word, with the room that it needs; without one, over a name that no folder
/// has. A folder that a command is to have alone is claimed at once, before a script is read.
fn drive_of(
    rt: &HostRuntime,
    alloc: Global,
    words: &Vec<String>,
) -> Result<FileDrive<HostRuntime>, NoMemory> {
    let folder = match words.get(1) {
        Some(folder) => folder.clone()?,
        None => String::new(alloc),
    };
    let claim = claim_of(words);
    let mut drive = FileDrive::new(rt.clone()?, folder, claim)?;
    if let Claim::Alone = claim {
        drive.claim_now();
    }
    Ok(drive)
}

/// How the folder is claimed. Commands that write have it alone; those that only read may have it side by side.
fn claim_of(words: &Vec<String>) -> Claim {
    let Some(command) = words.get(0) else {
        return Claim::Shared;
    };
    match command.as_str() {
        "format" | "serve" | "make" => Claim::Alone,
        _ => Claim::Shared,
    }
}

/// The words of the command line without the program's name; none, which are of no form, where one isn't UTF-8.
fn words_of<R: std::rt::Env + AllocGlobal>(
    rt: &R,
    alloc: Global,
) -> Result<Vec<String>, AllocError> {
    match env::args(rt) {
        Ok(words) => words.skip(1).collect(alloc),
        Err(error) if error.kind() == ErrorKind::OutOfMemory => Err(AllocError),
        Err(_) => Ok(Vec::new(alloc)),
    }
}
