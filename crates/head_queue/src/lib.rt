//! The queue of requests that wait for the head of a drive: each is in a chain by place and in a chain by owner, so the
//! head takes the nearest ahead in a step, and what an owner asked for goes in as many steps as there are requests of
//! it.
#![tactic(auto)]

mod chains;
mod entries;
pub mod event_laws;
mod laws;
mod links;
mod newest;
mod owners;
mod places;
mod queues;
mod steps;
mod walks;

pub use laws::{picks_may_come, sweeps_are_short};
pub use queues::{Pick, Queue};
pub use steps::Steps;
