ghost use Rattle.std.specs.Prelude.{◌≡◌, ◌↔◌, IsTrue};
ghost use Rattle.std.specs.List.{list_any};
ghost use Rattle.tape_layout.specs.PlacementPolicy.Computed as computed;
ghost use Rattle.tape_layout.specs.PlacementPolicy.Policies.{ChoosesIp};

use crate::placement::patterns::matches;
use index_model::{Policy, TextList};

/// Whether a file may go to the index partition: there is a policy, a file of this length isn't too long for it, and
/// it has no patterns or one that matches the file's name. Takes no memory.
#[tactic(auto, using(crate::proofs::PlacementPolicy::Computing::same_choice))]
pub fn chooses_ip(policy: &Option<Policy>, name: &str, length: u64) -> bool
    ensures chosen { IsTrue result ↔ ChoosesIp policy.now name.now length }
    ensures value { result ≡ computed.chooses_ip policy.now name.now length }
{
    may_go(policy, name, length)
}

fn may_go(policy: &Option<Policy>, name: &str, length: u64) -> bool
    ensures { result ≡ computed.chooses_ip policy.now name.now length }
{
    let Some(policy) = policy else {
        return false;
    };
    let names = &policy.names;
    length <= policy.size && (names.len() == 0 || any_matches(names, name))
}

/// Whether one of the patterns stands for a name.
fn any_matches(patterns: &TextList, name: &str) -> bool
    ensures { result ≡ list_any (λ pattern. computed.matches pattern name.now) patterns.now }
{
    for at in 0..patterns.len() {
        if matches(patterns.get(at), name) {
            return true;
        }
    }
    false
}
