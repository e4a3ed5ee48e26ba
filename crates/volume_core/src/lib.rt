//! A volume that is served, over any drive: from its mount to the log of all calls that its sessions made.
#![tactic(auto)]

mod closing;
mod commands;
mod costs;
mod draining;
mod finishing;
mod laws;
mod leaving;
mod notes;
mod starting;
mod submitting;
mod turning;
mod volume;
pub mod volume_steps;

pub use volume::Volume;
