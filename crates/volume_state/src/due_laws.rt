//! That the index which a sync writes is due: definitions and laws, no code.

mod laws;

pub use laws::{
    admitted_texts_are_short, indexes_are_due, labels_stay_before, mounts_have_trees,
    mounts_tell_labels, stocks_go_by_the_tape,
};
