//! What is wrong with an index as a whole (LTFS 2.4 on the index): with its UIDs, with its names,
//! with the keys of attributes, or with the extents of its files.

mod double_keys;
mod extents;
mod faults;
mod names;
mod uids;

pub use faults::first_fault;
