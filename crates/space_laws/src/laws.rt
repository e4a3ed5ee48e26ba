ghost use Rattle.space_laws.specs.Laws.{AreSteps, AreStill, AskPlainly, TreesAreReplays, ValuesAreTold};
ghost use Rattle.space_laws.specs.Laws.{SealedVolumesStay};

/// What a layout admits is one step of the space.
#[tactic(auto, using(crate::proofs::Steps::are_steps))]
pub fn admissions_are_steps()
    ensures { AreSteps }
{}

/// The tree that stands after the first placements is the one that the history leaves.
#[tactic(auto, using(crate::proofs::TreeLaw::are_replays))]
pub fn trees_are_replays()
    ensures { TreesAreReplays }
{}

/// Only a write and a sync may need room on the tape, and only a write and a truncation may lay a file anew. So a call
/// of another kind asks for a change of the tree at most.
#[tactic(auto, using(crate::proofs::PlainAsks::ask_plainly))]
pub fn others_ask_plainly()
    ensures { AskPlainly }
{}

/// A void placement and a call that asks nothing change nothing.
#[tactic(auto, using(crate::proofs::Steps::are_still))]
pub fn nothing_asked_is_no_step()
    ensures { AreStill }
{}

/// The value of an index, as it is gathered from the nodes by their parents, is the one that the index tells.
#[tactic(auto, using(crate::proofs::ToldValue::values_are_told))]
pub fn values_are_told()
    ensures { ValuesAreTold }
{}

/// A sealed volume stands after each history as it was mounted.
#[tactic(auto, using(crate::proofs::SealedLaw::sealed_volumes_stay))]
pub fn sealed_volumes_stay()
    ensures { SealedVolumesStay }
{}
