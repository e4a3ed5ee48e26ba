//! What a crash leaves of a served volume: definitions and laws, no code.

mod laws;

pub use laws::{
    calls_are_safe, heads_do_ops, plans_grow, safe_volumes_survive, standings_go_on,
    starts_are_safe, steps_are_safe, submissions_are_safe, submits_are_safe, turns_are_safe,
};
