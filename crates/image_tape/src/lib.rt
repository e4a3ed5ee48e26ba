//! A tape drive over a disk of byte files.
#![tactic(auto)]

mod commands;
mod commits;
mod counts;
mod doubt;
mod errors;
mod halves;
mod laws;
mod opening;
mod reading;
mod settling;
mod storing;
mod tape;
mod writing;

pub use commits::Commits;
pub use doubt::Doubt;
pub use errors::OpenErr;
pub use laws::images_open;
pub use opening::OpenFail;
pub use tape::ImageTape;
