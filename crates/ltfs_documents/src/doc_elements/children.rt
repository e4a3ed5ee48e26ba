//! Which children have stood in an element of a document.

ghost use Rattle.std.specs.Prelude.{◌≡◌, ◌<◌, ◌∷◌, [], List};
ghost use Rattle.ltfs_documents.specs.declared.doc_fields.tags.Tag.{Tag};
ghost use Rattle.ltfs_documents.specs.DocElements.Children.{Holds, bits_of, code, first_missing, member};

use crate::doc_fields::Tag;

/// The children that have stood in an open element.
#[derive(Clone, Copy, Debug, PartialEq, Eq)]
pub struct Children {
    bits: u64,
}

impl Children {
    /// No child has stood there.
    pub fn none() -> Children
        ensures { Holds result [] }
    {
        Children { bits: 0 }
    }

    /// Whether a child has stood there.
    #[tactic(auto, using(crate::proofs::DocElements::Bits::has_is))]
    pub fn has(self, tag: Tag) -> bool
        ensures { (tags : List Tag) → Holds self tags → result ≡ member tag tags }
    {
        (self.bits >> code_of(tag)) & 1 == 1
    }

    /// These children, and one more.
    pub fn with(self, tag: Tag) -> Children
        ensures { (tags : List Tag) → Holds self tags → Holds result (tag ∷ tags) }
    {
        Children {
            bits: self.bits | (1 << code_of(tag)),
        }
    }

    /// The first of these elements that has not stood there.
    pub fn first_missing(self, required: &[Tag]) -> Option<Tag>
        ensures { (tags : List Tag) → Holds self tags → result ≡ first_missing required.now tags }
    {
        for tag in required {
            if !self.has(*tag) {
                return Some(*tag);
            }
        }
        None
    }
}

fn code_of(tag: Tag) -> u32
    ensures value { result ≡ code tag }
    ensures small { result < 64 }
{
    match tag {
        Tag::LtfsLabel => 0,
        Tag::LtfsIndex => 1,
        Tag::Creator => 2,
        Tag::Comment => 3,
        Tag::FormatTime => 4,
        Tag::VolumeUuid => 5,
        Tag::Location => 6,
        Tag::Partition => 7,
        Tag::Partitions => 8,
        Tag::IndexLetter => 9,
        Tag::DataLetter => 10,
        Tag::BlockSize => 11,
        Tag::Compression => 12,
        Tag::GenerationNumber => 13,
        Tag::UpdateTime => 14,
        Tag::PreviousGenerationLocation => 15,
        Tag::StartBlock => 16,
        Tag::AllowPolicyUpdate => 17,
        Tag::DataPlacementPolicy => 18,
        Tag::IndexPartitionCriteria => 19,
        Tag::Size => 20,
        Tag::VolumeLockState => 21,
        Tag::HighestFileUid => 22,
        Tag::Directory => 23,
        Tag::File => 24,
        Tag::FileUid => 25,
        Tag::Name => 26,
        Tag::Length => 27,
        Tag::CreationTime => 28,
        Tag::ChangeTime => 29,
        Tag::ModifyTime => 30,
        Tag::AccessTime => 31,
        Tag::BackupTime => 32,
        Tag::ReadOnly => 33,
        Tag::OpenForWrite => 34,
        Tag::ExtendedAttributes => 35,
        Tag::Contents => 36,
        Tag::ExtentInfo => 37,
        Tag::Symlink => 38,
        Tag::Extent => 39,
        Tag::FileOffset => 40,
        Tag::ByteOffset => 41,
        Tag::ByteCount => 42,
        Tag::Xattr => 43,
        Tag::Key => 44,
        Tag::Value => 45,
    }
}
