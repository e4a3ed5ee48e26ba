//! Reads that wait for blocks of the tape.
#![tactic(auto)]

mod reading;
mod readings;
mod stands;

pub use reading::Reading;
pub use readings::Readings;
