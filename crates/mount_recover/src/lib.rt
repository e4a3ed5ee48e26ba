//! Mounting: what a cartridge stands for.
#![tactic(auto)]

mod choices;
mod documents;
mod endings;
mod extents;
mod flags;
mod items;
mod labels;
mod lasts;
mod mounting;
mod noted;
mod notes;
mod pointers;
mod scans;
mod starts;

pub use cartridge_meaning::{Labels, MountErr, Mounted};
pub use documents::read_index_at;
pub use extents::{Ends, first_outside};
pub use labels::read_labels;
pub use mounting::{Scanned, mount, mount_by_scan};
pub use pointers::points_on_dp;
pub use starts::{Start, begin};
