//! Laws of runs, over any drive.

ghost use Rattle.run_laws.specs.Laws.{PlaysAreRuns};

use tape_drive::Drive;

/// A volume whose calls were all placed, and that was closed, gives the log of a run.
pub fn plays_are_runs<D: Drive>()
    ensures { PlaysAreRuns D.Drive }
{}
