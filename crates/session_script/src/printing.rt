ghost use Rattle.std.specs.Prelude.{◌≡◌, ◌++◌, ◌<◌, length, OnOk, IfOk};
ghost use Rattle.session_script.specs.LogText.{log_text};

use crate::log_lines::LogLine;
use crate::logs::Log;
use std::alloc::Global;
use tape_types::{Bytes, NoMemory};

/// The log as it is printed: a line for each placement and its reply, in order. It is refused where memory is, and where
/// a reply is gone.
pub fn log_text(alloc: Global, log: &Log) -> Result<Bytes, NoMemory>
    ensures { IfOk result (λ text. text ≡ log_text log.now) }
{
    let mut text = Vec::new(alloc);
    let mut room = [0; 1024];
    for (place, (placed, kept)) in log
        .history
        .as_slice()
        .iter()
        .zip(log.replies.as_slice())
        .enumerate()
    {
        let Some(reply) = kept.get() else {
            return Err(NoMemory);
        };
        push_line(
            &mut text,
            LogLine::new(place as u64, placed, reply),
            &mut room,
        )?;
    }
    Ok(Bytes::from_vec(text))
}

/// Appends a line, piece by piece.
fn push_line(text: &mut Vec<u8>, line: LogLine, room: &mut [u8]) -> Result<(), NoMemory>
    requires { 0 < length room.old }
    ensures { OnOk result (text.new.items ≡ text.old.items ++ line.entry) }
{
    let mut line = line;
    loop {
        let count = line.fill(room);
        text.extend_from_slice(&room[..count])?;
        if count < room.len() {
            return Ok(());
        }
    }
}
