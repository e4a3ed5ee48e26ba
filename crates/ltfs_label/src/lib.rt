//! The format label of a volume, as a document.
#![tactic(auto)]

mod errors;
mod reading;
mod walking;
mod writing;

pub use errors::LabelErr;
pub use reading::{read_label, texts_are_read_in_one_way};
use tape_types::{Moment, Text};
pub use writing::write_label;

/// The label of a partition (LTFS 2.4 on the format label).
#[derive(Drop)]
pub struct Label {
    /// The program that formatted the volume.
    pub creator: Text,
    /// When it was formatted.
    pub formatted: Moment,
    /// The UUID of the volume.
    pub uuid: u128,
    /// The letter of the partition in which this label stands, `a` to `z`.
    pub location: u8,
    /// The letter of the index partition.
    pub index: u8,
    /// The letter of the data partition.
    pub dpart: u8,
    /// The size of a block in bytes, 4,096 to 1,048,576.
    pub block: u32,
    /// Whether the drive is to compress what is written.
    pub compression: bool,
}
