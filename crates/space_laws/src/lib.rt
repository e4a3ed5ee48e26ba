//! The space of a volume: how its files lie, what each call asks of the tape, what is admitted, and the index that a
//! sync writes.
#![tactic(auto)]

mod examples;
mod laws;

pub use examples::{
    the_definitions_tell_an_index, the_definitions_tell_histories, the_definitions_tell_locks,
    the_definitions_tell_space,
};
pub use laws::{
    admissions_are_steps, nothing_asked_is_no_step, others_ask_plainly, sealed_volumes_stay,
    trees_are_replays, values_are_told,
};
