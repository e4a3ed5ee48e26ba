//! What each call of a served volume keeps: laws, no code.

mod examples;
mod laws;

pub use examples::{
    the_definitions_tell_courses, the_definitions_tell_order, the_definitions_tell_sides,
    the_promise_alone_is_not_kept,
};
pub use laws::{
    drain_turns_keep_order, nothing_is_left_where_nothing_waits, phases_are_plain,
    submissions_keep_order, turns_keep_order, volumes_begin_in_order,
};
