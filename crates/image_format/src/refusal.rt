use tape_types::Part;

/// Why the files of a disk are no image.
#[derive(Clone, Copy, Debug, PartialEq, Eq)]
pub enum Refusal {
    /// No slot counts, or the one that does is out of form.
    Header,
    /// The record of this number is at fault, or the records before it don't fill what they are to fill.
    Record(Part, u64),
}

/// Why nothing was read of the files of a disk.
#[derive(Clone, Copy, Debug, PartialEq, Eq)]
pub enum ReadErr {
    /// They are no image.
    Refused(Refusal),
    /// The disk has failed.
    Disk,
}

/// Why the records of a partition were not found.
#[derive(Clone, Copy, Debug, PartialEq, Eq)]
pub(crate) enum WalkErr {
    /// The record of this number is at fault, or the records before it don't fill what they are to fill.
    Record(u64),
    /// The disk has failed.
    Disk,
}
