//! Why a tape was not opened.

use tape_types::{Part, Twin};

/// Why a tape was not opened.
#[derive(Clone, Copy, Debug, PartialEq, Eq)]
pub enum OpenErr {
    /// No slot of the header counts, or the one that does is out of form.
    Header,
    /// The record of this number is at fault, or the records before it don't fill what they are to fill.
    Record(Part, u64),
    /// The disk failed: its count of faults before and after.
    Disk(Twin),
}
