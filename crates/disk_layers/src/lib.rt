//! Disks of byte files over any disk of byte files: one that reads ahead, and one that holds writes back.
#![tactic(auto)]

mod ahead;
mod held;
mod known;
mod laws;
mod piece;
mod pieces;
mod run;

pub use ahead::ReadAhead;
pub use held::HeldWrites;
pub use laws::{ahead_leaves_what_is_inside, held_leaves_what_is_inside};
