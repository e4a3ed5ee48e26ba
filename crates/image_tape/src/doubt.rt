//! What is known of a header.

use image_format::SlotValue;

/// What is known of the header of a disk.
#[derive(Clone, Copy)]
pub enum Doubt {
    /// It says what was read or set last.
    Settled,
    /// Setting it has failed: it says that, or this value. Where it says this value, so much of the partitions reads.
    Open { value: SlotValue, reads: SlotValue },
}
