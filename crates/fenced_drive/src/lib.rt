//! A drive whose owner allows a crash to leave no more than a run of a script promises, over one whose owner allows
//! everything.
#![tactic(auto)]

mod fenced;
mod laws;

pub use fenced::{Fenced, Order, Unowned};
pub use laws::{an_owner_allows_the_promise, an_owner_forbids_erasing};
