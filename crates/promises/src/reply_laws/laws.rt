//! What stays true of the replies and the ops of a volume over each of its calls.

ghost use Rattle.std.specs.Prelude.{ℕ, List, Option};
ghost use Rattle.plain_tree.specs.declared.calls.Placed.{Placed};
ghost use Rattle.space_laws.specs.Standing.{Given};
ghost use Rattle.promises.specs.ReplyLaws.Draining.{DrainsStayForWrites};
ghost use Rattle.promises.specs.ReplyLaws.Within.{DrainTurnsKeepTrue, StayingGives, SubmissionsKeepTrue, TurnsKeepTrue};
ghost use Rattle.promises.specs.ReplyLaws.Laws.{DrainTurnsStayTrue, FlushesTurnPlacementOn, OwnersKeepFaults};
ghost use Rattle.promises.specs.ReplyLaws.Laws.{PlacementGoesOn, StandingGoesOn, SubmissionsStayTrue};
ghost use Rattle.promises.specs.ReplyLaws.Laws.{ToldFaultsAreOwned};
ghost use Rattle.promises.specs.ReplyLaws.Laws.{TurnsStayTrue};

use crate::serving_promise::Serve;

/// What stands at the places of a history, and what is asked, needed and admitted there, stays as it goes on.
pub fn standing_goes_on()
    ensures { (g : Given) (on : Option ℕ) (history : List Placed) (p : Placed) → StandingGoesOn g on history p }
{}

/// Placement on the index partition that goes on at the end of a history changes nothing of what was placed.
pub fn placement_goes_on()
    ensures { (g : Given) (history : List Placed) → PlacementGoesOn g history }
{}

/// Who owns a fault keeps it.
pub fn owners_keep_faults()
    ensures { OwnersKeepFaults }
{}

/// A fault that a placement is told is one that it owns, or, where it is void, one that its session owns, as long as
/// each fault is told to its owner.
pub fn told_faults_are_owned()
    ensures { ToldFaultsAreOwned }
{}

/// A submission whose reply and ops are those of what stands at the end of the history leaves a volume that is true.
pub fn submissions_stay_true<S: Serve>()
    ensures { SubmissionsStayTrue S.seen }
{}

/// So does a turn whose replies are those that may come at their places.
pub fn turns_stay_true<S: Serve>()
    ensures { TurnsStayTrue S.seen }
{}

/// And a turn of a session that drains, also where it places the session's write with the fault that the session owns.
pub fn drain_turns_stay_true<S: Serve>()
    ensures { DrainTurnsStayTrue S.seen }
{}

/// A flush that turns placement on the index partition on changes nothing of what is true.
pub fn flushes_turn_placement_on<S: Serve>()
    ensures { FlushesTurnPlacementOn S.seen }
{}

/// A submission leaves a volume that stays true, where a call that waits is within its limit.
pub fn submissions_keep_true<S: Serve>()
    ensures { SubmissionsKeepTrue S.seen }
{}

/// So does a turn: of a reply that came there is only to show that the tree at its place answers so, or that the place
/// owns the fault.
pub fn turns_keep_true<S: Serve>()
    ensures { TurnsKeepTrue S.seen }
{}

/// And a turn of a session that drains.
pub fn drain_turns_keep_true<S: Serve>()
    ensures { DrainTurnsKeepTrue S.seen }
{}

/// A volume that stays true is true; one of which nothing was asked yet stays true.
pub fn what_stays_true_is_true<S: Serve>()
    ensures { StayingGives S.seen }
{}

/// A session that drains does so for a write, which may then be placed void with a fault that the session owns.
pub fn drains_stay_for_writes<S: Serve>()
    ensures { DrainsStayForWrites S.seen }
{}
