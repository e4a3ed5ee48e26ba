//! The head of a volume, and what waits for it: definitions, and the runs on which they are tried.

mod examples;

pub use examples::{
    each_step_lowers_the_load, loads_bound_what_waits, the_definitions_tell_trails,
    trails_allow_each_event,
};
