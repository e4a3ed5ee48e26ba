//! The one text of an index that is written (LTFS 2.4 on the index): one line in UTF-8, without
//! white space between elements.
#![tactic(auto)]

mod attributes;
mod fields;
mod lengths;
mod nodes;
mod volume;
mod writing;

pub use lengths::index_len;
pub use writing::index_text;
