//! What the log of a served volume tells beside its replies, and that each call keeps it: definitions and laws,
//! without code that runs.

mod laws;

pub use laws::{acks_are_exact, heads_follow_acts, logs_go_on, wrong_ways_are_none};
