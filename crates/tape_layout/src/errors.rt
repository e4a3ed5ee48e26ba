ghost use Rattle.std.specs.Prelude.{◌≡◌};
ghost use Rattle.tape_layout.specs.declared.errors.AdmitErr.TheVariants as errors;

use std::alloc::AllocError;
use tape_types::NoMemory as Refused;

/// Why something isn't admitted.
#[derive(Clone, Copy, Debug, PartialEq, Eq)]
pub enum AdmitErr {
    /// It needs this number of positions, and there is a lower number of them; or its generation is past the last one.
    Full { need: u64, limit: u64 },
    /// Memory was refused.
    NoMemory,
}

impl From<AllocError> for AdmitErr {
    ghost from_gives = { λ _ e. e ≡ errors.NoMemory };

    fn from(_e: AllocError) -> AdmitErr {
        AdmitErr::NoMemory
    }
}

impl From<Refused> for AdmitErr {
    ghost from_gives = { λ _ e. e ≡ errors.NoMemory };

    fn from(_e: Refused) -> AdmitErr {
        AdmitErr::NoMemory
    }
}
