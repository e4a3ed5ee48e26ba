//! Why a text is no label.

ghost use Rattle.std.specs.Prelude.{◌≡◌, IsSome, Some};
ghost use Rattle.ltfs_label.specs.Reading.{told};

use ltfs_documents::doc_elements::PieceErr;
use ltfs_documents::doc_fields::Tag;

/// Why a text is no label: what is wrong with the first piece that doesn't fit, and where.
/// Places are offsets in bytes.
#[derive(Clone, Copy, Debug, PartialEq, Eq)]
pub enum LabelErr {
    /// A byte that may not stand there, or the text ends too early.
    Syntax(usize),
    /// The `<` of a start tag whose element has no place there, or which has an attribute that
    /// isn't known.
    Unknown(usize),
    /// The `<` of the start tag of a child that was there.
    Twice(usize),
    /// The root has no version of 2.0 to 2.4.
    Version,
    /// A parent ends, and this child wasn't there: the first of those that it must have.
    Missing(Tag),
    /// The first digit of a number that is out of range. One that is too small, and behind which
    /// the text ends, is `Syntax` at the text's length.
    Number(usize),
    /// Memory was refused.
    NoMemory,
}

/// How a refusal of a label's document is told. No element of a label is a name or a node.
pub fn told(why: PieceErr) -> LabelErr
    requires { IsSome (told why) }
    ensures { told why ≡ Some result }
{
    match why {
        PieceErr::Syntax(at) => LabelErr::Syntax(at),
        PieceErr::Unknown(at) => LabelErr::Unknown(at),
        PieceErr::Twice(at) => LabelErr::Twice(at),
        PieceErr::Version => LabelErr::Version,
        PieceErr::Missing(tag) => LabelErr::Missing(tag),
        PieceErr::Number(at) => LabelErr::Number(at),
        PieceErr::NoMemory => LabelErr::NoMemory,
        PieceErr::Name(_) | PieceErr::TooMany => unreachable!(),
    }
}
