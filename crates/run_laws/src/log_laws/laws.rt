//! Laws of logs, over any drive.

ghost use Rattle.promises.specs.ServingPromise.Meanings.{cartridges};
ghost use Rattle.run_laws.specs.LogLaws.Laws.{AcksAreExact, HeadsFollowActs, LogsGoOn, StepsTakeCommands};
ghost use Rattle.run_laws.specs.LogLaws.Laws.{WrongWaysAreNone};

use tape_drive::Drive;

/// What a log tells stays so over each call.
pub fn logs_go_on<D: Drive>()
    ensures { LogsGoOn D.Drive cartridges }
{}

/// Where each command counts one and no step failed, each ack has the number of the last command that its sync waited
/// for.
#[tactic(auto, using(crate::proofs::LogLaws::Gone::acks_are_exact))]
pub fn acks_are_exact<D: Drive>()
    ensures { AcksAreExact D.Drive }
{}

/// Where an act leaves the head: one behind what was put, and at what was read or one behind it.
#[tactic(auto, using(crate::proofs::LogLaws::Gone::heads_follow_acts))]
pub fn heads_follow_acts<D: Drive>()
    ensures { HeadsFollowActs D.Drive }
{}

/// Each step takes a command at least; and worked runs have no other acknowledgements and no other number of commands
/// than these: none that came late or early, none left out, none of a step that was done twice in silence, and no fault
/// told twice.
#[tactic(auto, using(crate::proofs::LogLaws::Gone::steps_take_commands, crate::proofs::LogLaws::WrongWays::wrong_ways_are_none))]
pub fn wrong_ways_are_none<D: Drive>()
    ensures steps { StepsTakeCommands D.Drive }
    ensures rows { WrongWaysAreNone D.Drive }
{}
