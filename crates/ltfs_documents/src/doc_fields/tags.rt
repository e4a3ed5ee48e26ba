//! The elements of the two documents, and their names.

ghost use Rattle.std.specs.Prelude.{◌≡◌, true};
ghost use Rattle.ltfs_documents.specs.DocFields.Likely.{likely, of_four, of_five, of_six, of_seven, of_eight, of_nine};
ghost use Rattle.ltfs_documents.specs.DocFields.Likely.{of_ten};
ghost use Rattle.ltfs_documents.specs.DocFields.Likely.{of_twelve};
ghost use Rattle.ltfs_documents.specs.DocFields.Reading.{has_no_zero};
ghost use Rattle.ltfs_documents.specs.DocFields.Tags.{spelled, tag_named};

/// The elements of a label and of an index (LTFS 2.4 on the format label and on the index).
/// A variant in lower case is its element's name, but for `IndexLetter` and `DataLetter`,
/// which are `index` and `data`.
#[derive(Clone, Copy, Debug, PartialEq, Eq)]
pub enum Tag {
    LtfsLabel,
    LtfsIndex,
    Creator,
    Comment,
    FormatTime,
    VolumeUuid,
    Location,
    Partition,
    Partitions,
    IndexLetter,
    DataLetter,
    BlockSize,
    Compression,
    GenerationNumber,
    UpdateTime,
    PreviousGenerationLocation,
    StartBlock,
    AllowPolicyUpdate,
    DataPlacementPolicy,
    IndexPartitionCriteria,
    Size,
    VolumeLockState,
    HighestFileUid,
    Directory,
    File,
    FileUid,
    Name,
    Length,
    CreationTime,
    ChangeTime,
    ModifyTime,
    AccessTime,
    BackupTime,
    ReadOnly,
    OpenForWrite,
    ExtendedAttributes,
    Contents,
    ExtentInfo,
    Symlink,
    Extent,
    FileOffset,
    ByteOffset,
    ByteCount,
    Xattr,
    Key,
    Value,
}

/// The name of an element.
pub fn name_of(tag: Tag) -> &'static [u8]
    ensures name { result.now ≡ spelled tag }
    ensures no_zero { has_no_zero (spelled tag) ≡ true }
{
    match tag {
        Tag::LtfsLabel => b"ltfslabel",
        Tag::LtfsIndex => b"ltfsindex",
        Tag::Creator => b"creator",
        Tag::Comment => b"comment",
        Tag::FormatTime => b"formattime",
        Tag::VolumeUuid => b"volumeuuid",
        Tag::Location => b"location",
        Tag::Partition => b"partition",
        Tag::Partitions => b"partitions",
        Tag::IndexLetter => b"index",
        Tag::DataLetter => b"data",
        Tag::BlockSize => b"blocksize",
        Tag::Compression => b"compression",
        Tag::GenerationNumber => b"generationnumber",
        Tag::UpdateTime => b"updatetime",
        Tag::PreviousGenerationLocation => b"previousgenerationlocation",
        Tag::StartBlock => b"startblock",
        Tag::AllowPolicyUpdate => b"allowpolicyupdate",
        Tag::DataPlacementPolicy => b"dataplacementpolicy",
        Tag::IndexPartitionCriteria => b"indexpartitioncriteria",
        Tag::Size => b"size",
        Tag::VolumeLockState => b"volumelockstate",
        Tag::HighestFileUid => b"highestfileuid",
        Tag::Directory => b"directory",
        Tag::File => b"file",
        Tag::FileUid => b"fileuid",
        Tag::Name => b"name",
        Tag::Length => b"length",
        Tag::CreationTime => b"creationtime",
        Tag::ChangeTime => b"changetime",
        Tag::ModifyTime => b"modifytime",
        Tag::AccessTime => b"accesstime",
        Tag::BackupTime => b"backuptime",
        Tag::ReadOnly => b"readonly",
        Tag::OpenForWrite => b"openforwrite",
        Tag::ExtendedAttributes => b"extendedattributes",
        Tag::Contents => b"contents",
        Tag::ExtentInfo => b"extentinfo",
        Tag::Symlink => b"symlink",
        Tag::Extent => b"extent",
        Tag::FileOffset => b"fileoffset",
        Tag::ByteOffset => b"byteoffset",
        Tag::ByteCount => b"bytecount",
        Tag::Xattr => b"xattr",
        Tag::Key => b"key",
        Tag::Value => b"value",
    }
}

/// The element of a name.
pub fn tag_of(name: &[u8]) -> Option<Tag>
    ensures { result ≡ tag_named name.now }
{
    if name.is_empty() {
        return None;
    }
    let tag = likely(name.len(), name[0], name[name.len() - 1]);
    if name == name_of(tag) {
        Some(tag)
    } else {
        None
    }
}

/// The one element whose name can have this length, first byte and last byte.
fn likely(length: usize, first: u8, last: u8) -> Tag
    ensures { result ≡ likely length first last }
{
    match length {
        4 => of_four(first),
        3 => Tag::Key,
        5 => of_five(first),
        6 => of_six(first),
        7 => of_seven(first, last),
        8 => of_eight(first),
        9 => of_nine(first, last),
        10 => of_ten(first, last),
        11 => Tag::Compression,
        12 => of_twelve(first),
        14 => Tag::HighestFileUid,
        15 => Tag::VolumeLockState,
        16 => Tag::GenerationNumber,
        17 => Tag::AllowPolicyUpdate,
        18 => Tag::ExtendedAttributes,
        19 => Tag::DataPlacementPolicy,
        22 => Tag::IndexPartitionCriteria,
        _ => Tag::PreviousGenerationLocation,
    }
}

fn of_four(first: u8) -> Tag
    ensures { result ≡ of_four first }
{
    match first {
        b'd' => Tag::DataLetter,
        b's' => Tag::Size,
        b'f' => Tag::File,
        _ => Tag::Name,
    }
}

fn of_five(first: u8) -> Tag
    ensures { result ≡ of_five first }
{
    match first {
        b'i' => Tag::IndexLetter,
        b'x' => Tag::Xattr,
        _ => Tag::Value,
    }
}

fn of_six(first: u8) -> Tag
    ensures { result ≡ of_six first }
{
    match first {
        b'l' => Tag::Length,
        _ => Tag::Extent,
    }
}

fn of_seven(first: u8, last: u8) -> Tag
    ensures { result ≡ of_seven first last }
{
    match first {
        b'c' if last == b'r' => Tag::Creator,
        b'c' => Tag::Comment,
        b'f' => Tag::FileUid,
        _ => Tag::Symlink,
    }
}

fn of_eight(first: u8) -> Tag
    ensures { result ≡ of_eight first }
{
    match first {
        b'l' => Tag::Location,
        b'r' => Tag::ReadOnly,
        _ => Tag::Contents,
    }
}

fn of_nine(first: u8, last: u8) -> Tag
    ensures { result ≡ of_nine first last }
{
    match first {
        b'l' if last == b'l' => Tag::LtfsLabel,
        b'l' => Tag::LtfsIndex,
        b'p' => Tag::Partition,
        b'b' if last == b'e' => Tag::BlockSize,
        b'b' => Tag::ByteCount,
        _ => Tag::Directory,
    }
}

fn of_ten(first: u8, last: u8) -> Tag
    ensures { result ≡ of_ten first last }
{
    match first {
        b'f' if last == b'e' => Tag::FormatTime,
        b'f' => Tag::FileOffset,
        b'v' => Tag::VolumeUuid,
        b'p' => Tag::Partitions,
        b'u' => Tag::UpdateTime,
        b's' => Tag::StartBlock,
        b'c' => Tag::ChangeTime,
        b'm' => Tag::ModifyTime,
        b'a' => Tag::AccessTime,
        b'b' if last == b'e' => Tag::BackupTime,
        b'b' => Tag::ByteOffset,
        _ => Tag::ExtentInfo,
    }
}

fn of_twelve(first: u8) -> Tag
    ensures { result ≡ of_twelve first }
{
    match first {
        b'c' => Tag::CreationTime,
        _ => Tag::OpenForWrite,
    }
}
