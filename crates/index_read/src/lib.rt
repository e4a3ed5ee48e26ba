//! The document of an index, read in one pass (LTFS 2.4 on the index).
#![tactic(auto)]

mod drafts;
mod fronts;
mod guesses;
mod laws;
mod reading;
mod walking;

pub use fronts::repoint;
pub use laws::{documents_read_back, indexes_read_are_valid, texts_are_read_in_one_way};
pub use reading::read_index;
