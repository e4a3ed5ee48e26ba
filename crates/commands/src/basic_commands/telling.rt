//! What a run came to, as it is told.

ghost use Rattle.std.specs.Prelude.{◌≡◌, ◌⊎◌, ℕ, List, IfOk, codes, string_bytes};
ghost use Rattle.commands.specs.BasicCommands.Outcomes.{IsTold};
ghost use Rattle.commands.specs.BasicCommands.Runs.{written};
ghost use Rattle.commands.specs.BasicCommands.Statuses.{status_number};

use crate::basic_commands::ended::{Ended, Status};
use session_script::Log;
use tape_drive::Drive;
use tape_edge::Sink;
use tape_types::{Bytes, NoMemory};

/// Writes a text, and ends the run with this status; where the sink fails, with `Sink`.
pub fn tell<D: Drive, K: Sink>(
    out: &mut K,
    text: &[u8],
    status: Status,
    log: Option<Log>,
    drive: D,
) -> Ended<D>
    ensures told { IsTold (status_number status) text.now (written K.Sink out.old out.new) result.status }
    ensures log { result.log ≡ log }
    ensures drive { result.drive ≡ drive }
{
    match out.write(text) {
        Ok(()) => Ended {
            status: status.number(),
            drive,
            log,
        },
        Err(_) => Ended {
            status: Status::Sink.number(),
            drive,
            log,
        },
    }
}

/// The same, where memory for the text may have been refused, which is then told.
pub fn tell_made<D: Drive, K: Sink>(
    out: &mut K,
    made: Result<Bytes, NoMemory>,
    status: Status,
    log: Option<Log>,
    drive: D,
) -> Ended<D>
    ensures told { (text : List ℕ) → IfOk made (λ m. m ≡ text)
        → IsTold (status_number status) text (written K.Sink out.old out.new) result.status
        ⊎ IsTold 7 (codes "memory\n") (written K.Sink out.old out.new) result.status }
    ensures log { result.log ≡ log }
    ensures drive { result.drive ≡ drive }
{
    match made {
        Ok(text) => tell(out, text.as_slice(), status, log, drive),
        Err(NoMemory) => tell(out, b"memory\n", Status::NoMemory, log, drive),
    }
}

pub fn bytes_of(text: String) -> Bytes
    ensures { result ≡ string_bytes text }
{
    Bytes::from_vec(text.into_bytes())
}
