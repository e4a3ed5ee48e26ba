//! Why a piece of a document doesn't fit.

ghost use Rattle.std.specs.Prelude.{◌≡◌};
ghost use Rattle.ltfs_documents.specs.declared.doc_elements.errors.PieceErr.TheVariants as errors;
ghost use Rattle.ltfs_documents.specs.DocElements.Pieces.{refusal};

use crate::doc_fields::{FieldErr, Tag, Why};
use std::alloc::{AllocError, AllocFailed};
use tape_types::NoMemory as Refused;

/// Why a piece of a document doesn't fit: a tag of a parent, or a whole leaf. A number in brackets is the place in the
/// text, in bytes from its beginning.
#[derive(Clone, Copy, Debug, PartialEq, Eq)]
pub enum PieceErr {
    /// The first byte that no rule allows, or the length of the text where it ends too early.
    Syntax(usize),
    /// The `<` of a start tag that may not stand there, or that has an attribute which it can't have.
    Unknown(usize),
    /// The `<` of the start tag of a child that was there already.
    Twice(usize),
    /// The root is of another version than 2.0 to 2.4, or of none.
    Version,
    /// The first child that an element lacks.
    Missing(Tag),
    /// The first digit of a number that is out of its range. One that is too small, and behind which the text ends, is
    /// `Syntax` at the text's length.
    Number(usize),
    /// The `<` of the element of a name that may not be.
    Name(usize),
    /// More than 65,536 nodes.
    TooMany,
    /// Memory was refused.
    NoMemory,
}

impl From<FieldErr> for PieceErr {
    ghost from_gives = { λ e r. r ≡ refusal e.why e.at };

    fn from(e: FieldErr) -> PieceErr {
        match e.why {
            Why::Syntax => PieceErr::Syntax(e.at),
            Why::Unknown => PieceErr::Unknown(e.at),
            Why::Version => PieceErr::Version,
            Why::Number => PieceErr::Number(e.at),
            Why::NoMemory => PieceErr::NoMemory,
        }
    }
}

impl From<Refused> for PieceErr {
    ghost from_gives = { λ _ e. e ≡ errors.NoMemory };

    fn from(_e: Refused) -> PieceErr {
        PieceErr::NoMemory
    }
}

impl From<AllocError> for PieceErr {
    ghost from_gives = { λ _ e. e ≡ errors.NoMemory };

    fn from(_e: AllocError) -> PieceErr {
        PieceErr::NoMemory
    }
}

impl<T: Drop> From<AllocFailed<T>> for PieceErr {
    ghost from_gives = { λ _ e. e ≡ errors.NoMemory };

    fn from(_e: AllocFailed<T>) -> PieceErr {
        PieceErr::NoMemory
    }
}
