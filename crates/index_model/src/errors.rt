ghost use Rattle.std.specs.Prelude.{◌≡◌};
ghost use Rattle.index_model.specs.Documents.{fault_told, refusal_told};

use crate::faults::Fault;
use ltfs_documents::doc_elements::PieceErr;
use ltfs_documents::doc_fields::Tag;

/// Why a text is no index. A number in brackets of `Syntax`, `Unknown`, `Twice`, `Number` and
/// `Name` is the place in the text, in bytes from its beginning.
#[derive(Clone, Copy, Debug, PartialEq, Eq)]
pub enum IndexErr {
    /// The first byte that no rule allows, or the length of the text where it ends too early.
    Syntax(usize),
    /// The `<` of a start tag that may not stand there, or that has an attribute which it can't
    /// have.
    Unknown(usize),
    /// The `<` of the start tag of a child that was there already.
    Twice(usize),
    /// The root is of another version than 2.0 to 2.4, or of none.
    Version,
    /// The first child that an element lacks.
    Missing(Tag),
    /// The first digit of a number that is out of its range.
    Number(usize),
    /// The `<` of the element of a name that may not be.
    Name(usize),
    /// More than 65,536 nodes.
    TooMany,
    /// See `Fault`.
    Uid(u64),
    /// See `Fault`.
    SameName(u64),
    /// See `Fault`.
    SameKey(u64),
    /// See `Fault`.
    Extent(u64),
    /// See `Fault`.
    Overlap(u64),
    /// Memory was refused.
    NoMemory,
}

impl From<PieceErr> for IndexErr {
    ghost from_gives = { λ e r. r ≡ refusal_told e };

    fn from(e: PieceErr) -> IndexErr {
        match e {
            PieceErr::Syntax(at) => IndexErr::Syntax(at),
            PieceErr::Unknown(at) => IndexErr::Unknown(at),
            PieceErr::Twice(at) => IndexErr::Twice(at),
            PieceErr::Version => IndexErr::Version,
            PieceErr::Missing(tag) => IndexErr::Missing(tag),
            PieceErr::Number(at) => IndexErr::Number(at),
            PieceErr::Name(at) => IndexErr::Name(at),
            PieceErr::TooMany => IndexErr::TooMany,
            PieceErr::NoMemory => IndexErr::NoMemory,
        }
    }
}

impl From<Fault> for IndexErr {
    ghost from_gives = { λ f r. r ≡ fault_told f };

    fn from(fault: Fault) -> IndexErr {
        match fault {
            Fault::Uid(uid) => IndexErr::Uid(uid),
            Fault::SameName(uid) => IndexErr::SameName(uid),
            Fault::SameKey(uid) => IndexErr::SameKey(uid),
            Fault::Extent(uid) => IndexErr::Extent(uid),
            Fault::Overlap(uid) => IndexErr::Overlap(uid),
        }
    }
}
