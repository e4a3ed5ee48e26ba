//! Names in directories, found by their bits: a trie for each directory, linked by index.
#![tactic(auto)]

mod bits;
mod forks;
mod tries;
mod turns;

pub use forks::{Branch, Fork, Link, Near};
pub use tries::Tries;
