ghost use Rattle.tape_layout.specs.PlacementPolicy.Policies.{IsComputed};

/// Which files a policy chooses can be computed.
#[tactic(auto, using(crate::proofs::PlacementPolicy::Computing::computed))]
pub fn choices_are_computed()
    ensures { IsComputed }
{}
