//! That the log of a volume which was served and closed is that of a run of its script: laws, without code that runs.
#![tactic(auto)]

mod laws;
pub mod log_laws;
mod memory;

pub use laws::plays_are_runs;
pub use memory::{new_drives_are_ready, runs_are_in_memory, runs_in_memory_survive};
