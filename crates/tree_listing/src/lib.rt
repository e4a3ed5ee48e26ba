//! The lines of a tree, as they are printed.
#![tactic(auto)]

mod errors;
mod laws;
mod lines;
mod listing;
mod texts;
mod trees;

pub use errors::ListErr;
pub use laws::short_listings_have_a_line_for_each_node;
pub use listing::write_listing;
pub use trees::write_tree;
