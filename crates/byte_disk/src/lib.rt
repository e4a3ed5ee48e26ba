//! A disk of three byte files: the trait, with what a crash may leave at any moment, and a disk in memory.
#![tactic(auto)]

mod commands;
mod crash;
mod disk;
mod files;
mod memory;
mod mixed;
mod record;
mod walks;

pub use crash::{crash_gives_all, files_are_told, since_gives_all};
pub use disk::{ByteDisk, DiskFault, File};
pub use memory::MemDisk;
