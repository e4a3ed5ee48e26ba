//! The content of a partition, read from a drive.
#![tactic(auto)]

mod content;
mod errors;
mod reading;
mod scanning;

pub use content::{Construct, Content};
pub use errors::ScanErr;
pub use scanning::scan;
