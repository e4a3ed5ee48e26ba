// That the constants of the limits are the numbers that definitions speak of.
ghost use Rattle.std.specs.Prelude.{◌≡◌};
ghost use Rattle.tape_types.specs.Bounds.{longest_file, longest_name, most_nodes, most_positions};

use crate::bounds::{LONGEST_FILE, LONGEST_NAME, MOST_NODES, MOST_POSITIONS};

/// Each constant is the number that definitions name.
pub fn bounds_are()
    ensures nodes { MOST_NODES ≡ most_nodes }
    ensures file { LONGEST_FILE ≡ longest_file }
    ensures name { LONGEST_NAME ≡ longest_name }
    ensures positions { MOST_POSITIONS ≡ most_positions }
{}
