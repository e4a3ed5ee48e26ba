//! A cartridge is formatted: it becomes an empty volume (LTFS 2.4 on labels and index constructs).
#![tactic(auto)]

mod formatting;
mod notes;
mod refusals;
mod requests;
mod texts;
mod writing;

pub use formatting::format;
pub use refusals::spec_fault;
pub use requests::{Field, FormatErr, FormatSpec};
