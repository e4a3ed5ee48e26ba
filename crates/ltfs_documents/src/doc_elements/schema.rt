//! Which elements stand where in a document (LTFS 2.4 on the format label and on the index).

ghost use Rattle.std.specs.Prelude.{◌≡◌};
ghost use Rattle.ltfs_documents.specs.DocElements.Schema.{contents_rule, criteria_rule, directory_rule, excludes};
ghost use Rattle.ltfs_documents.specs.DocElements.Schema.{extent_rule};
ghost use Rattle.ltfs_documents.specs.DocElements.Schema.{extents_rule, file_rule, index_rule, is_node, label_rule};
ghost use Rattle.ltfs_documents.specs.DocElements.Schema.{letters_rule};
ghost use Rattle.ltfs_documents.specs.DocElements.Schema.{may_repeat, node_rule, own_rule, policy_rule, required, rule};
ghost use Rattle.ltfs_documents.specs.DocElements.Schema.{spot_rule};
ghost use Rattle.ltfs_documents.specs.DocElements.Schema.{attributes_rule, tag_of, xattr_rule};

use crate::doc_fields::Tag;

/// A parent, by what may stand in it.
#[derive(Clone, Copy, Debug, PartialEq, Eq)]
pub enum Container {
    /// A label.
    Label,
    /// The partition of a label.
    Own,
    /// The partitions of a volume.
    Letters,
    /// An index.
    Index,
    /// The self pointer.
    Here,
    /// The back pointer.
    Back,
    Policy,
    Criteria,
    /// The root directory.
    Root,
    /// Another directory.
    Directory,
    Contents,
    File,
    /// Extended attributes.
    Attributes,
    ExtentInfo,
    Extent,
    /// One extended attribute.
    Xattr,
}

/// The form of a leaf's value.
#[derive(Clone, Copy, Debug, PartialEq, Eq)]
pub enum Form {
    Text,
    /// The name of the root directory.
    VolumeName,
    /// The name of another node.
    NodeName,
    /// Any text, which may be percent-encoded as a name.
    AnyName,
    /// The key of an extended attribute, which may be percent-encoded too.
    Key,
    /// Bytes, as a text or in base64.
    Value,
    Time,
    Uuid,
    Letter,
    Truth,
    Lock,
    /// The size of a block in bytes, 4,096 to 1,048,576.
    BlockSize,
    /// A number below 2^64.
    Number,
    /// A number of at most 2^62.
    Bounded,
    /// A number from 1 to 2^62.
    Generation,
}

/// What an element is as a child of a parent.
#[derive(Clone, Copy, Debug, PartialEq, Eq)]
pub enum Child {
    /// It may not stand there.
    Unknown,
    Leaf(Form),
    Parent(Container),
}

fn child_of_label(tag: Tag) -> Child
    ensures { result ≡ label_rule tag }
{
    match tag {
        Tag::Creator => Child::Leaf(Form::Text),
        Tag::FormatTime => Child::Leaf(Form::Time),
        Tag::VolumeUuid => Child::Leaf(Form::Uuid),
        Tag::Location => Child::Parent(Container::Own),
        Tag::Partitions => Child::Parent(Container::Letters),
        Tag::BlockSize => Child::Leaf(Form::BlockSize),
        Tag::Compression => Child::Leaf(Form::Truth),
        _ => Child::Unknown,
    }
}

fn child_of_own(tag: Tag) -> Child
    ensures { result ≡ own_rule tag }
{
    match tag {
        Tag::Partition => Child::Leaf(Form::Letter),
        _ => Child::Unknown,
    }
}

fn child_of_letters(tag: Tag) -> Child
    ensures { result ≡ letters_rule tag }
{
    match tag {
        Tag::IndexLetter | Tag::DataLetter => Child::Leaf(Form::Letter),
        _ => Child::Unknown,
    }
}

fn child_of_index(tag: Tag) -> Child
    ensures { result ≡ index_rule tag }
{
    match tag {
        Tag::Creator | Tag::Comment => Child::Leaf(Form::Text),
        Tag::VolumeUuid => Child::Leaf(Form::Uuid),
        Tag::GenerationNumber => Child::Leaf(Form::Generation),
        Tag::UpdateTime => Child::Leaf(Form::Time),
        Tag::Location => Child::Parent(Container::Here),
        Tag::PreviousGenerationLocation => Child::Parent(Container::Back),
        Tag::AllowPolicyUpdate => Child::Leaf(Form::Truth),
        Tag::DataPlacementPolicy => Child::Parent(Container::Policy),
        Tag::VolumeLockState => Child::Leaf(Form::Lock),
        Tag::HighestFileUid => Child::Leaf(Form::Number),
        Tag::Directory => Child::Parent(Container::Root),
        _ => Child::Unknown,
    }
}

/// What directories and files have alike.
fn child_of_node(name: Form, tag: Tag) -> Child
    ensures { result ≡ node_rule name tag }
{
    match tag {
        Tag::FileUid => Child::Leaf(Form::Number),
        Tag::Name => Child::Leaf(name),
        Tag::CreationTime | Tag::ChangeTime | Tag::ModifyTime | Tag::AccessTime | Tag::BackupTime =>
            Child::Leaf(Form::Time),
        Tag::ReadOnly => Child::Leaf(Form::Truth),
        Tag::ExtendedAttributes => Child::Parent(Container::Attributes),
        _ => Child::Unknown,
    }
}

fn child_of_directory(name: Form, tag: Tag) -> Child
    ensures { result ≡ directory_rule name tag }
{
    match tag {
        Tag::Contents => Child::Parent(Container::Contents),
        _ => child_of_node(name, tag),
    }
}

fn child_of_file(tag: Tag) -> Child
    ensures { result ≡ file_rule tag }
{
    match tag {
        Tag::Length => Child::Leaf(Form::Number),
        Tag::OpenForWrite => Child::Leaf(Form::Truth),
        Tag::ExtentInfo => Child::Parent(Container::ExtentInfo),
        Tag::Symlink => Child::Leaf(Form::AnyName),
        _ => child_of_node(Form::NodeName, tag),
    }
}

fn child_of_spot(tag: Tag) -> Child
    ensures { result ≡ spot_rule tag }
{
    match tag {
        Tag::Partition => Child::Leaf(Form::Letter),
        Tag::StartBlock => Child::Leaf(Form::Bounded),
        _ => Child::Unknown,
    }
}

fn child_of_extent(tag: Tag) -> Child
    ensures { result ≡ extent_rule tag }
{
    match tag {
        Tag::FileOffset | Tag::StartBlock | Tag::ByteOffset | Tag::ByteCount => {
            Child::Leaf(Form::Bounded)
        }
        Tag::Partition => Child::Leaf(Form::Letter),
        _ => Child::Unknown,
    }
}

fn child_of_criteria(tag: Tag) -> Child
    ensures { result ≡ criteria_rule tag }
{
    match tag {
        Tag::Size => Child::Leaf(Form::Bounded),
        Tag::Name => Child::Leaf(Form::AnyName),
        _ => Child::Unknown,
    }
}

fn child_of_contents(tag: Tag) -> Child
    ensures { result ≡ contents_rule tag }
{
    match tag {
        Tag::Directory => Child::Parent(Container::Directory),
        Tag::File => Child::Parent(Container::File),
        _ => Child::Unknown,
    }
}

fn child_of_policy(tag: Tag) -> Child
    ensures { result ≡ policy_rule tag }
{
    match tag {
        Tag::IndexPartitionCriteria => Child::Parent(Container::Criteria),
        _ => Child::Unknown,
    }
}

fn child_of_extents(tag: Tag) -> Child
    ensures { result ≡ extents_rule tag }
{
    match tag {
        Tag::Extent => Child::Parent(Container::Extent),
        _ => Child::Unknown,
    }
}

fn child_of_attributes(tag: Tag) -> Child
    ensures { result ≡ attributes_rule tag }
{
    match tag {
        Tag::Xattr => Child::Parent(Container::Xattr),
        _ => Child::Unknown,
    }
}

fn child_of_xattr(tag: Tag) -> Child
    ensures { result ≡ xattr_rule tag }
{
    match tag {
        Tag::Key => Child::Leaf(Form::Key),
        Tag::Value => Child::Leaf(Form::Value),
        _ => Child::Unknown,
    }
}

/// What an element is as a child of a parent.
pub fn child_of(place: Container, tag: Tag) -> Child
    ensures { result ≡ rule place tag }
{
    match place {
        Container::Label => child_of_label(tag),
        Container::Own => child_of_own(tag),
        Container::Letters => child_of_letters(tag),
        Container::Index => child_of_index(tag),
        Container::Here | Container::Back => child_of_spot(tag),
        Container::Policy => child_of_policy(tag),
        Container::Criteria => child_of_criteria(tag),
        Container::Root => child_of_directory(Form::VolumeName, tag),
        Container::Directory => child_of_directory(Form::NodeName, tag),
        Container::Contents => child_of_contents(tag),
        Container::File => child_of_file(tag),
        Container::Attributes => child_of_attributes(tag),
        Container::ExtentInfo => child_of_extents(tag),
        Container::Extent => child_of_extent(tag),
        Container::Xattr => child_of_xattr(tag),
    }
}

/// The element of a parent.
pub fn tag_of(place: Container) -> Tag
    ensures { result ≡ tag_of place }
{
    match place {
        Container::Label => Tag::LtfsLabel,
        Container::Own => Tag::Location,
        Container::Letters => Tag::Partitions,
        Container::Index => Tag::LtfsIndex,
        Container::Here => Tag::Location,
        Container::Back => Tag::PreviousGenerationLocation,
        Container::Policy => Tag::DataPlacementPolicy,
        Container::Criteria => Tag::IndexPartitionCriteria,
        Container::Root | Container::Directory => Tag::Directory,
        Container::Contents => Tag::Contents,
        Container::File => Tag::File,
        Container::Attributes => Tag::ExtendedAttributes,
        Container::ExtentInfo => Tag::ExtentInfo,
        Container::Extent => Tag::Extent,
        Container::Xattr => Tag::Xattr,
    }
}

/// The children that a parent must have.
pub fn required(place: Container) -> &'static [Tag]
    ensures { result.now ≡ required place }
{
    match place {
        Container::Label => &[
            Tag::Creator,
            Tag::FormatTime,
            Tag::VolumeUuid,
            Tag::Location,
            Tag::Partitions,
            Tag::BlockSize,
            Tag::Compression,
        ],
        Container::Own => &[Tag::Partition],
        Container::Letters => &[Tag::IndexLetter, Tag::DataLetter],
        Container::Index => &[
            Tag::Creator,
            Tag::VolumeUuid,
            Tag::GenerationNumber,
            Tag::UpdateTime,
            Tag::Location,
            Tag::AllowPolicyUpdate,
            Tag::HighestFileUid,
            Tag::Directory,
        ],
        Container::Here | Container::Back => &[Tag::Partition, Tag::StartBlock],
        Container::Policy => &[Tag::IndexPartitionCriteria],
        Container::Criteria => &[Tag::Size],
        Container::Root | Container::Directory => &[
            Tag::FileUid,
            Tag::Name,
            Tag::CreationTime,
            Tag::ChangeTime,
            Tag::ModifyTime,
            Tag::AccessTime,
            Tag::BackupTime,
            Tag::ReadOnly,
            Tag::Contents,
        ],
        Container::File => &[
            Tag::FileUid,
            Tag::Name,
            Tag::Length,
            Tag::CreationTime,
            Tag::ChangeTime,
            Tag::ModifyTime,
            Tag::AccessTime,
            Tag::BackupTime,
            Tag::ReadOnly,
        ],
        Container::Contents | Container::Attributes | Container::ExtentInfo => &[],
        Container::Extent => &[
            Tag::FileOffset,
            Tag::Partition,
            Tag::StartBlock,
            Tag::ByteOffset,
            Tag::ByteCount,
        ],
        Container::Xattr => &[Tag::Key, Tag::Value],
    }
}

/// Whether a parent may have an element any number of times.
pub fn may_repeat(place: Container, tag: Tag) -> bool
    ensures { result ≡ may_repeat place tag }
{
    match place {
        Container::Criteria => match tag {
            Tag::Name => true,
            _ => false,
        },
        Container::Contents => match tag {
            Tag::Directory | Tag::File => true,
            _ => false,
        },
        Container::Attributes => match tag {
            Tag::Xattr => true,
            _ => false,
        },
        Container::ExtentInfo => match tag {
            Tag::Extent => true,
            _ => false,
        },
        _ => false,
    }
}

/// The elements of which none may have stood in a file before this one.
pub fn excludes(tag: Tag) -> &'static [Tag]
    ensures { result.now ≡ excludes tag }
{
    match tag {
        Tag::ExtentInfo | Tag::Symlink => &[Tag::ExtentInfo, Tag::Symlink],
        _ => &[],
    }
}

/// Whether a parent stands for a node.
pub fn is_node(place: Container) -> bool
    ensures { result ≡ is_node place }
{
    match place {
        Container::Root | Container::Directory | Container::File => true,
        _ => false,
    }
}
