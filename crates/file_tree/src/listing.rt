ghost use Rattle.std.specs.Prelude.{◌≡◌, IsSome, IfOk};
ghost use Rattle.std.specs.List.{AllByRecursion};
ghost use Rattle.file_tree.specs.Seen.{held};
ghost use Rattle.file_tree.specs.Listing.{lines_at};

use crate::found::sort_of;
use crate::nodes::Spot;
use crate::spots::spot_at;
use plain_tree::Entry;
use std::alloc::Global;
use tape_types::{List, NoMemory};

/// The lines of what is kept at these numbers.
pub fn lines_of(
    alloc: Global,
    spots: &[Option<Spot>],
    numbers: &[u32],
) -> Result<List<Entry>, NoMemory>
    requires { AllByRecursion (λ n. IsSome (held spots.now n)) numbers.now }
    ensures { IfOk result (λ entries. entries ≡ lines_at (held spots.now) numbers.now) }
{
    let mut entries = List::new(alloc);
    for number in numbers {
        let spot = spot_at(spots, *number);
        entries.push(Entry {
            sort: sort_of(&spot.node.kind),
            name: spot.name.try_clone(alloc)?,
        })?;
    }
    Ok(entries)
}
