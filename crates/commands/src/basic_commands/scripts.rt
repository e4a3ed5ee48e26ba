//! The script that is read from the source.

ghost use Rattle.std.specs.Prelude.{◌≡◌, ◌<◌, ◌^◌, length, IfErr, IfOk};
ghost use Rattle.commands.specs.BasicCommands.Headline.{refusal_line, source_line};
ghost use Rattle.commands.specs.BasicCommands.Runs.{IsScriptIn, taken};
ghost use Rattle.commands.specs.BasicCommands.Scripts.{IsUnread, unread_status, unread_text};
ghost use Rattle.commands.specs.BasicCommands.Statuses.{status_number};

use crate::basic_commands::ended::Status;
use crate::basic_commands::telling::bytes_of;
use session_script::{LONGEST_SCRIPT, Script, ScriptErr, ScriptFault, read_script};
use std::alloc::Global;
use tape_edge::{ReadFailure, Source, read_input};
use tape_types::{Bytes, NoMemory, Twin};

/// Why there is no script.
#[derive(Clone, Copy)]
pub enum Unread {
    /// The input is none.
    Script(ScriptErr),
    /// The source failed: its count of faults before and after.
    Source(Twin),
    NoMemory,
}

/// Reads the script to its end.
pub fn read_calls<S: Source>(alloc: Global, source: &mut S) -> Result<Script, Unread>
    ensures read { IfOk result (IsScriptIn (taken S.Source source.old source.new)) }
    ensures few { IfOk result (λ script. length script < 2 ^ 32) }
    ensures unread { IfErr result (IsUnread (taken S.Source source.old source.new)) }
{
    let text = match read_input(alloc, source, LONGEST_SCRIPT) {
        Ok(text) => text,
        Err(ReadFailure::Fault(counts)) => return Err(Unread::Source(counts)),
        Err(ReadFailure::NoMemory) => return Err(Unread::NoMemory),
    };
    match read_script(alloc, text.as_slice()) {
        Ok(script) => Ok(script),
        Err(ScriptFault::Bad(refusal)) => Err(Unread::Script(refusal)),
        Err(ScriptFault::NoMemory) => Err(Unread::NoMemory),
    }
}

/// That the input is no script.
pub fn refusal_text(alloc: Global, refusal: ScriptErr) -> Result<Bytes, NoMemory>
    ensures { IfOk result (λ text. text ≡ refusal_line refusal) }
{
    let line = refusal.line;
    let why = refusal.why;
    Ok(bytes_of(format!(in alloc; "script {line} {why}\n")?))
}

/// That the source failed.
pub fn source_text(alloc: Global, counts: Twin) -> Result<Bytes, NoMemory>
    ensures { IfOk result (λ text. text ≡ source_line counts) }
{
    let Twin { before, after } = counts;
    Ok(bytes_of(format!(in alloc; "source {before} {after}\n")?))
}

/// Why there is no script.
pub fn unread_text(alloc: Global, why: Unread) -> Result<Bytes, NoMemory>
    ensures { IfOk result (λ text. text ≡ unread_text why) }
{
    match why {
        Unread::Script(refusal) => refusal_text(alloc, refusal),
        Unread::Source(counts) => source_text(alloc, counts),
        Unread::NoMemory => Ok(bytes_of(format!(in alloc; "memory\n")?)),
    }
}

pub fn unread_status(why: Unread) -> Status
    ensures { status_number result ≡ unread_status why }
{
    match why {
        Unread::Script(_) => Status::Script,
        Unread::Source(_) => Status::Source,
        Unread::NoMemory => Status::NoMemory,
    }
}
