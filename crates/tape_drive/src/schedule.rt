// Which commands of a drive in memory are to fail.
ghost use Rattle.std.specs.Prelude.{◌≡◌, ◌<◌};
ghost use Rattle.tape_drive.specs.Schedule.{code, counted, IsStart};

use tape_types::List;

/// A kind of command of a drive.
#[derive(Clone, Copy, Debug, PartialEq, Eq)]
pub enum Cmd {
    Locate,
    Read,
    Write,
    Mark,
    Flush,
    ReadNote,
    WriteNote,
    Vcr,
}

/// A command that is to fail: the nth of its kind, counted from 1 since the drive was made.
#[derive(Clone, Copy, Debug, PartialEq, Eq)]
pub struct Fail {
    pub kind: Cmd,
    pub nth: u64,
}

/// Which commands are to fail, with how many there were of each kind, and how many more may pass.
#[derive(Drop)]
pub(crate) struct Schedule {
    fails: List<Fail>,
    made: [u64; 8],
    left: Option<u64>,
}

/// What is in store for a command.
#[derive(Clone, Copy, Debug, PartialEq, Eq)]
pub(crate) enum Start {
    /// No command passes any more.
    Stopped,
    /// This one is listed to fail.
    Listed,
    /// It may do its work.
    Free,
}

impl Schedule {
    ghost use Rattle.tape_drive.specs.Schedule.{fresh, stopped_after};

    pub fn new(fails: List<Fail>) -> Schedule
        ensures { result ≡ fresh fails }
    {
        Schedule {
            fails,
            made: [0; 8],
            left: None,
        }
    }

    pub fn stop_after(&mut self, commands: u64)
        ensures { self.new ≡ stopped_after commands self.old }
    {
        self.left = Some(commands);
    }

    /// Counts a command of this kind, and tells what is in store for it.
    pub fn begin(&mut self, kind: Cmd) -> Start
        ensures counted { self.new ≡ counted kind self.old }
        ensures start { IsStart result kind self.old }
    {
        let place = index(kind);
        let nth = self.made[place].saturating_add(1);
        self.made[place] = nth;
        let listed = self.fails.as_slice().contains(&Fail { kind, nth });
        match self.left {
            Some(0) => Start::Stopped,
            Some(n) => {
                self.left = Some(n - 1);
                if listed { Start::Listed } else { Start::Free }
            }
            None => { if listed { Start::Listed } else { Start::Free } }
        }
    }
}

fn index(kind: Cmd) -> usize
    ensures code { result ≡ code kind }
    ensures range { result < 8 }
{
    match kind {
        Cmd::Locate => 0,
        Cmd::Read => 1,
        Cmd::Write => 2,
        Cmd::Mark => 3,
        Cmd::Flush => 4,
        Cmd::ReadNote => 5,
        Cmd::WriteNote => 6,
        Cmd::Vcr => 7,
    }
}
