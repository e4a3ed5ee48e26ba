//! A tape drive: the trait that every promise about a cartridge rests on, with what a crash may leave at any moment.
#![tactic(auto)]

mod commands;
mod crash;
mod drive;
mod durable;
mod memory;
mod record;
mod schedule;

pub use crash::{Cut, crash_gives_all, since_gives_all};
pub use drive::{Drive, DriveErr, Got};
pub use durable::write_durably;
pub use memory::MemDrive;
pub use schedule::{Cmd, Fail};
