//! What is known of a value.

/// What is known of the value on a disk.
#[derive(Drop)]
pub enum Known {
    /// It is the one that was read or set last.
    Steady,
    /// A set has failed: it is that one, or the one that was to be.
    Open { after: [u8; 255] },
}
