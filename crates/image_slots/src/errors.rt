//! Why there is no value, or none was set.

/// Why no value was found.
#[derive(Clone, Copy, Debug, PartialEq, Eq)]
pub enum OpenErr {
    /// The disk has none.
    Header,
    /// The disk failed.
    Disk,
}

/// Why a value was not set.
#[derive(Clone, Copy, Debug, PartialEq, Eq)]
pub enum SetErr {
    /// The serial number stands at its end, 2^64 - 1. Nothing was written.
    Serial,
    /// The disk failed. The value is open until it was read again.
    Disk,
}
