//! The blocks that were read and are kept, the one that was used last first.
#![tactic(auto)]

mod cache;
mod examples;

pub use cache::BlockCache;
pub use examples::{caches_stay, kept_blocks_are_found, the_definitions_tell_caches, uses_reorder};
