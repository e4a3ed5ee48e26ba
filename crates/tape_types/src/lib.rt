// The types that every crate of the volume server uses.
#![tactic(auto)]

mod bounds;
mod cartridges;
mod laws;
mod lists;
mod moments;
mod names;
pub mod node_keys;
mod texts;
mod times;
mod uuids;

pub use bounds::{LONGEST_FILE, LONGEST_NAME, MOST_NODES, MOST_POSITIONS};
pub use cartridges::{Cartridge, Extent, Item, Limits, Note, Part, Place, Twin};
pub use laws::bounds_are;
pub use lists::List;
pub use moments::{Moment, Times};
pub use names::{NameErr, check_name};
pub use texts::{Bytes, NoMemory, Text};
pub use times::{Civil, parse_time, time_text, times_are_civil};
pub use uuids::{parse_uuid, uuid_text};
