//! What stands on tape, as calls and steps go on.

ghost use Rattle.volume_state.specs.PlanLaws.Laws.{EndsGoOn, PlansAgree, PlansHold, WaysGoOn};
ghost use Rattle.volume_state.specs.PlanLaws.Laws.{MarksStay, PlacesStay, TapesStay, TapesTell};

/// What is planned grows by the ops that are added, and stays when the first op is done.
pub fn plans_hold()
    ensures { PlansHold }
{}

/// So it is with a cartridge that reads as what was made so far.
pub fn ways_go_on()
    ensures { WaysGoOn }
{}

/// What the head reads at a place that is done already, and what an op holds, is what is planned.
pub fn tapes_tell()
    ensures { TapesTell }
{}

/// Below the ends nothing changes when ops are added.
pub fn tapes_stay()
    ensures { TapesStay }
{}

/// The ends go on with the ops, and those that a space admits come next.
pub fn ends_go_on()
    ensures { EndsGoOn }
{}

/// What the theory of crashes plans with is this.
pub fn plans_agree()
    ensures { PlansAgree }
{}

/// No mark is put where a block of the tree stands.
pub fn marks_stay()
    ensures { MarksStay }
{}

/// What is done at a place stays so.
pub fn places_stay()
    ensures { PlacesStay }
{}
