//! Why a field of a document could not be read.

ghost use Rattle.std.specs.Prelude.{◌≡◌};
ghost use Rattle.ltfs_documents.specs.declared.doc_fields.errors.Why.TheVariants.{NoMemory as no_memory};

use std::alloc::{AllocError, AllocFailed};

/// What is wrong with a field.
#[derive(Clone, Copy, Debug, PartialEq, Eq)]
pub enum Why {
    /// A byte that may not stand there, or the text ends too early.
    Syntax,
    /// A start tag whose element has no place here, or with an attribute that it can't have.
    Unknown,
    /// The root has no version, or one that isn't read.
    Version,
    /// A number of more than 20 digits, or of 2^64 or more.
    Number,
    /// Memory was refused.
    NoMemory,
}

/// The first place of a text that doesn't fit, as an offset in bytes, and why. With
/// `NoMemory` the place says nothing.
#[derive(Clone, Copy, Debug, PartialEq, Eq)]
pub struct FieldErr {
    pub at: usize,
    pub why: Why,
}

impl From<AllocError> for FieldErr {
    ghost from_gives = { λ _ e. e.why ≡ no_memory };

    fn from(_e: AllocError) -> FieldErr {
        FieldErr {
            at: 0,
            why: Why::NoMemory,
        }
    }
}

impl<T: Drop> From<AllocFailed<T>> for FieldErr {
    ghost from_gives = { λ _ e. e.why ≡ no_memory };

    fn from(_e: AllocFailed<T>) -> FieldErr {
        FieldErr {
            at: 0,
            why: Why::NoMemory,
        }
    }
}
