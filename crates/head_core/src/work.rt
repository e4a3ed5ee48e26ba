//! What a head is asked, and what it answers.

use tape_drive::Got;
use tape_layout::Op;
use tape_types::{Place, Twin};

/// What is to be done on tape in one step.
#[derive(Clone, Copy)]
pub enum Work<'a> {
    /// What stands at a place is read.
    Read(Place),
    /// An op is done.
    Do(&'a Op),
}

/// How a step ended.
#[derive(Clone, Copy, Debug, PartialEq, Eq)]
pub enum StepDone {
    /// A place was read.
    Read(Got),
    /// A block or a mark was written.
    Wrote,
    /// Both partitions were made durable.
    Flushed,
    /// The drive failed: its count of faults before the step and after it.
    Failed(Twin),
}
