ghost use Rattle.head_queue.specs.Allowed.{PicksMayCome};
ghost use Rattle.head_queue.specs.Sweeps.{SweepsAreShort};

/// What is picked is what a trail of events lets come next: the request may be served, or the op be done, however that
/// step ends.
#[tactic(auto, using(crate::proofs::AllowedLaw::picks_may_come))]
pub fn picks_may_come()
    ensures { PicksMayCome }
{}

/// Requests that wait together on the head's partition, each at a position of its own, are served by the pick so that
/// the head passes and reads at most twice as many blocks as on any other way that comes to each of them.
#[tactic(auto, using(crate::proofs::SweepLaw::sweeps_are_short))]
pub fn sweeps_are_short()
    ensures { SweepsAreShort }
{}
