//! The journal of a served volume: which events have come, who waits, what was placed and replied, and what each
//! session was told.
#![tactic(auto)]

mod lists;
mod placements;
mod replies;
mod trails;

pub use placements::{Placements, Stored, What};
pub use trails::{SyncWait, Trail, Waiter};
