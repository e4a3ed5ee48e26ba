//! That each call of a served volume keeps its replies and ops true: definitions and laws, no code.

mod asks;
mod examples;
mod laws;

pub use asks::{
    asking_begins, drain_turns_ask_truly, submissions_ask_truly, submissions_queue_their_ops,
    turns_ask_truly,
};
pub use examples::the_sides_tell_replies;
pub use laws::{
    drain_turns_keep_true, drain_turns_stay_true, drains_stay_for_writes,
    flushes_turn_placement_on, owners_keep_faults, placement_goes_on, standing_goes_on,
    submissions_keep_true, submissions_stay_true, told_faults_are_owned, turns_keep_true,
    turns_stay_true, what_stays_true_is_true,
};
