//! Why a partition could not be read.

use std::alloc::{AllocError, AllocFailed};
use tape_types::Twin;

/// Why the content of a partition is not told.
#[derive(Clone, Copy, Debug, PartialEq, Eq)]
pub enum ScanErr {
    /// The mark at this position directly follows one that opens an index.
    Layout(u64),
    /// The drive failed: its count of faults before and after.
    Drive(Twin),
    /// Memory was refused.
    NoMemory,
}

impl From<AllocError> for ScanErr {
    ghost use Rattle.std.specs.Prelude.{◌≡◌};
    ghost use Rattle.volume_scan.specs.declared.errors.ScanErr.TheVariants as errors;

    ghost from_gives = { λ _ e. e ≡ errors.NoMemory };

    fn from(_e: AllocError) -> ScanErr {
        ScanErr::NoMemory
    }
}
