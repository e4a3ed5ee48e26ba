//! A tape drive whose cartridge lies in the files of a folder.
//!
//! `ip.img` and `dp.img` have the items of the partitions, and `cm.img` says how many of them count. A file that is
//! missing counts as empty; the first command that writes makes it.
#![tactic(auto)]

mod ahead;
mod calls;
mod claimed;
mod disk;
mod drive;
mod folder;
mod image_file;
mod image_files;
mod stage;
mod stored_file;
mod tape;

pub use calls::{Claim, FolderCalls};
pub use disk::FolderDisk;
pub use drive::FileDrive;
