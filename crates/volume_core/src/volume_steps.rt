//! What a volume that is served makes of its parts, over any drive: a step of the head, and each call of a session.

mod drains;
mod events;
mod fetches;
mod handing;
mod looks;
mod ops;
mod parts;
mod placing;
mod requests;
mod steps;
mod submits;
mod syncs;

pub use parts::Parts;
pub use placing::Asked;
