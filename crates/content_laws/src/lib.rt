//! The content of a partition: data, and indexes between marks (LTFS 2.4 on partitions and index constructs).
//! Definitions and laws; no code.
#![tactic(auto)]

mod examples;
mod laws;

pub use examples::{the_definitions_tell_content, the_definitions_tell_ends};
pub use laws::{
    content_grows, ends_are_within, indexes_stay, partitions_are_read_in_one_way,
    partitions_end_with_their_last_index, what_is_read_is_the_form,
};
