use index_model::Policy;
use tape_types::{Moment, NoMemory, Text, Twin};

/// The volume that a cartridge is to become.
#[derive(Drop)]
pub struct FormatSpec {
    /// The volume identifier: capital letters and digits.
    pub volume: [u8; 6],
    /// The UUID of the volume.
    pub uuid: u128,
    /// The name of the volume, which is its root's: up to 255 characters without `/` and NUL.
    pub name: Text,
    /// The size of a block in bytes, 4,096 to 1,048,576.
    pub block: u32,
    /// Which files the index partition may hold: of up to 2^40 bytes, and with up to 64 patterns.
    pub policy: Option<Policy>,
    /// The time of the formatting.
    pub at: Moment,
}

/// A field of what is asked for.
#[derive(Clone, Copy, Debug, PartialEq, Eq)]
pub enum Field {
    /// The volume identifier.
    Vol,
    /// The size of a block.
    Block,
    /// The name of the volume.
    Name,
    /// The policy.
    Policy,
}

/// Why a cartridge was not formatted.
#[derive(Clone, Copy, Debug, PartialEq, Eq)]
pub enum FormatErr {
    /// The first field with a value that it may not have.
    BadSpec(Field),
    /// The first partition, the index partition before the data partition, that has fewer positions than it needs.
    Full { need: u64, limit: u64 },
    /// The drive failed: its count of faults before and after.
    Drive(Twin),
    /// Memory was refused.
    NoMemory,
}

impl From<NoMemory> for FormatErr {
    ghost use Rattle.std.specs.Prelude.{◌≡◌};
    ghost use Rattle.format_volume.specs.declared.requests.FormatErr.TheVariants as errors;

    ghost from_gives = { λ _ e. e ≡ errors.NoMemory };

    fn from(_e: NoMemory) -> FormatErr {
        FormatErr::NoMemory
    }
}
