//! A served volume that sessions share: each makes its calls by turns under a lock, and knows its own from its pass.
//!
//! Not claimed: that a call returns, in which order sessions come, and anything between sessions that never met in one
//! list of marks.
#![tactic(auto)]

mod calling;
mod closing;
mod desk;
mod opening;
mod pass;
mod printing;
mod shelf;

pub use desk::Desk;
pub use pass::DeskPass;
pub use shelf::Shelf;
