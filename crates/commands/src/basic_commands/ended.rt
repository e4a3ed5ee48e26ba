ghost use Rattle.std.specs.Prelude.{◌≡◌};
ghost use Rattle.commands.specs.BasicCommands.Statuses.{status_number};

use session_script::Log;
use tape_drive::Drive;

/// With which status a run ends. Each but `Done` and `Sink` has one line, the last one that is written.
#[derive(Clone, Copy, Debug, PartialEq, Eq)]
pub enum Status {
    /// All was done, and the output of the command was written.
    Done = 0,
    /// The words match no command: `words`.
    Words = 1,
    /// The input is no script: `script`, its first line that breaks a rule, and the rule.
    Script = 2,
    /// The cartridge is no volume, or lacks the generation that was asked for: `volume`, and the check that fails.
    Volume = 3,
    /// The drive failed: `drive`, and its counts of failed commands before and after.
    Drive = 4,
    /// The source failed: `source`, and its counts of failed reads before and after.
    Source = 5,
    /// The sink failed. Nothing more is written.
    Sink = 6,
    /// Memory was refused: `memory`.
    NoMemory = 7,
    /// A partition has too few positions: `full`, how many are needed, and how many there are.
    Full = 8,
}

impl Status {
    /// The number with which the program ends.
    pub fn number(self) -> u8
        ensures { result ≡ status_number self }
    {
        self as u8
    }
}

/// How a run ended.
#[derive(Drop)]
pub struct Ended<D: Drive> {
    /// The number of its status.
    pub status: u8,
    /// The drive, as the run has left it.
    pub drive: D,
    /// What was done, wherever the calls of a script were run.
    pub log: Option<Log>,
}
