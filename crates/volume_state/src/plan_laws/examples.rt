ghost use Rattle.volume_state.specs.PlanLaws.Examples.{TellsPlans};

/// What is planned, what stands on tape then and what is done already, in worked values.
pub fn the_definitions_tell_plans()
    ensures { TellsPlans }
{}
