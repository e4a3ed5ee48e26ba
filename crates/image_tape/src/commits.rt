//! When a tape sets its header.

/// When a tape sets its header.
#[derive(Clone, Copy, Debug, PartialEq, Eq)]
pub enum Commits {
    /// With each item, and with all that follow here.
    Each,
    /// With a flush, an attribute, and an item that cuts what counts; and where the reference or an attribute is read,
    /// if the reference has risen meanwhile.
    AtFlush,
}
