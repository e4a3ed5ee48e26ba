//! How a run ends.

ghost use Rattle.std.specs.Prelude.{◌≡◌, None};
ghost use Rattle.commands.specs.BasicCommands.Outcomes.{IsTold};
ghost use Rattle.commands.specs.BasicCommands.Runs.{written};
ghost use Rattle.commands.specs.BasicCommands.Statuses.{status_number};

use commands::basic_commands::{Ended as Told, Status, tell};
use session_script::Log;
use tape_drive::Drive;
use tape_edge::Sink;

/// How a run ended.
#[derive(Drop)]
pub struct Ended<D: Drive, K> {
    /// The number of its status.
    pub status: u8,
    /// The drive, as the run has left it.
    pub drive: D,
    /// The sink, with all that was written to it.
    pub out: K,
    /// What was done, wherever the calls of a script were run.
    pub log: Option<Log>,
}

/// How a run ended whose command had the sink lent.
pub fn with_sink<D: Drive, K>(told: Told<D>, out: K) -> Ended<D, K>
    ensures status { result.status ≡ told.status }
    ensures drive { result.drive ≡ told.drive }
    ensures out { result.out ≡ out }
    ensures log { result.log ≡ told.log }
{
    let Told { status, drive, log } = told;
    Ended {
        status,
        drive,
        out,
        log,
    }
}

/// How a run ended of which a text alone is told.
pub fn tell_alone<D: Drive, K: Sink>(out: K, text: &[u8], status: Status, drive: D) -> Ended<D, K>
    ensures told { IsTold (status_number status) text.now (written K.Sink out result.out) result.status }
    ensures log { result.log ≡ None }
    ensures drive { result.drive ≡ drive }
{
    let mut out = out;
    let told = tell(&mut out, text, status, None, drive);
    with_sink(told, out)
}
