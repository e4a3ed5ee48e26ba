//! What each call of a volume that runs adds to it, over any drive, and that it runs on: definitions and laws.

mod laws;

pub use laws::{
    beginnings_are_tied, drain_turns_run, running_is_promised, sealed_volumes_stay,
    steps_can_be_made, steps_show, submissions_run, submissions_show, turns_run, volumes_run,
};
