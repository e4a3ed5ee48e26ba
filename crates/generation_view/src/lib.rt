//! Earlier generations of a volume: which indexes its data partition still has, and what each of them tells (LTFS 2.4
//! on back pointers).
#![tactic(auto)]

mod errors;
mod examples;
mod laws;
mod links;
mod reads;
mod seeking;
mod telling;
pub mod view_commands;
mod views;
mod ways;

pub use errors::{BreakWhy, ReadErr, ViewErr};
pub use examples::{
    the_definitions_tell_breaks, the_definitions_tell_chains, the_definitions_tell_links,
    the_definitions_tell_what_is_behind,
};
pub use laws::{
    chains_begin_as_mounts_do, chains_end_in_one_way, chains_go_on, each_generation_has_one_answer,
    generations_have_one_tree, indexes_link_or_break,
};
pub use telling::{Generation, generations};
pub use views::{View, open_view};
