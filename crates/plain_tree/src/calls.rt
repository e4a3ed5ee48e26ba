ghost use Rattle.std.specs.Prelude.{Some};
ghost use Rattle.plain_tree.specs.RefusalNames.{refusal_name};

use crate::lines::Lines;
use std::fmt;
use tape_types::{Bytes, List, Moment, Text, Times};

/// What a session asks of the tree. A path is the list of its names; the root's is empty.
#[derive(Drop)]
pub enum Call {
    /// Makes a directory.
    Mkdir {
        path: List<Text>,
    },
    /// Makes an empty file.
    Create {
        path: List<Text>,
    },
    /// Puts bytes into a file from an offset on. A gap reads as zeros.
    Write {
        path: List<Text>,
        offset: u64,
        bytes: Bytes,
    },
    /// Sets the length of a file. New bytes are zeros.
    Truncate {
        path: List<Text>,
        length: u64,
    },
    /// Reads at most so many bytes of a file, from an offset on.
    Read {
        path: List<Text>,
        offset: u64,
        count: u64,
    },
    /// Lists what stands in a directory.
    Listing {
        path: List<Text>,
    },
    /// Tells the facts of a node.
    Stat {
        path: List<Text>,
    },
    /// Moves a node, and all below it.
    Rename {
        from: List<Text>,
        to: List<Text>,
    },
    /// Removes a file, a link or an empty directory.
    Remove {
        path: List<Text>,
    },
    /// Gives a key of a node its bytes, in place of those that it had.
    Setx {
        path: List<Text>,
        key: Text,
        bytes: Bytes,
    },
    /// Reads the bytes of a key.
    Getx {
        path: List<Text>,
        key: Text,
    },
    /// Takes out a key with its bytes.
    Dropx {
        path: List<Text>,
        key: Text,
    },
    /// Makes a node read-only, or no longer.
    Readonly {
        path: List<Text>,
        on: bool,
    },
    /// Locks the volume.
    LockVolume,
    /// Takes the lock away, where there is one.
    UnlockVolume,
    /// Locks the volume for ever.
    PermLock,
    /// Asks that all that was placed before is found again after a failure.
    Sync,
}

/// Whether a volume may be changed (LTFS 2.4 on the lock state). Absent is what an index without a lock state tells.
#[derive(Clone, Copy, Debug, PartialEq, Eq)]
pub enum LockState {
    Absent,
    Unlocked,
    Locked,
    PermLocked,
}

/// A call that changes the tree, with what it asks: paths, and of a write an offset and bytes, of a truncation a length.
#[derive(Clone, Copy)]
pub enum Change<'a> {
    Mkdir(&'a [Text]),
    Create(&'a [Text]),
    Write(&'a [Text], u64, &'a [u8]),
    Truncate(&'a [Text], u64),
    Rename(&'a [Text], &'a [Text]),
    Remove(&'a [Text]),
    Setx(&'a [Text], &'a Text, &'a Bytes),
    Dropx(&'a [Text], &'a Text),
    Readonly(&'a [Text], bool),
    LockVolume,
    UnlockVolume,
    PermLock,
}

/// What a node is.
#[derive(Clone, Copy, Debug, PartialEq, Eq)]
pub enum Sort {
    Dir,
    File,
    Link,
}

/// A line of a listing.
#[derive(Drop)]
pub struct Entry {
    pub sort: Sort,
    pub name: Text,
}

/// What is known of a node. The length is that of a file, else 0; the text is that of a link, else empty.
#[derive(Drop)]
pub struct Facts {
    pub sort: Sort,
    pub uid: u64,
    pub length: u64,
    pub text: Text,
    pub times: Times,
}

/// Why a call is refused.
#[derive(Clone, Copy, Debug, PartialEq, Eq)]
pub enum Refusal {
    /// The last name is one that no node may have.
    BadName,
    /// The root can't be made, moved or removed.
    Root,
    /// Nothing stands at the path, and a directory at the longest front of it that is there.
    NotFound,
    /// A file or a link stands where the path needs a directory.
    NotDir,
    /// A directory stands where a file is needed.
    IsDir,
    /// A link stands where a file is needed.
    IsLink,
    /// Something stands at the path.
    Exists,
    /// A node can't be moved below itself.
    Inside,
    /// The directory has entries.
    NotEmpty,
    /// The file would be longer than 2^40 bytes.
    TooLong,
    /// There are 65,536 nodes, or the highest uid is 2^62.
    TooMany,
    /// A byte of the range is lost on the tape.
    Damaged,
    /// The key is one that no attribute may have.
    BadKey,
    /// The node has no such key.
    NoKey,
    /// The node has 256 keys or more, and this isn't one of them.
    ManyKeys,
    /// The volume is locked.
    Locked,
    /// The node is read-only.
    ReadOnly,
}

/// What a call is answered.
#[derive(Drop)]
pub enum Answer {
    Done,
    Synced,
    Got(Bytes),
    Names(Lines),
    Facts(Facts),
    Refused(Refusal),
}

/// Whether a placement took place in the tree.
#[derive(Clone, Copy, Debug, PartialEq, Eq)]
pub enum Fate {
    Done,
    Void,
}

/// A place of the history: call `nth` of session `who`, placed at a moment.
#[derive(Clone, Copy)]
pub struct Placed {
    pub who: u16,
    pub nth: u32,
    pub at: Moment,
    pub fate: Fate,
}

impl Refusal {
    ghost use Rattle.std.specs.Prelude.{◌≡◌};

    /// How the refusal is printed.
    pub fn as_str(self) -> &'static str
        ensures { result.now ≡ refusal_name self }
    {
        match self {
            Refusal::BadName => "BadName",
            Refusal::Root => "Root",
            Refusal::NotFound => "NotFound",
            Refusal::NotDir => "NotDir",
            Refusal::IsDir => "IsDir",
            Refusal::IsLink => "IsLink",
            Refusal::Exists => "Exists",
            Refusal::Inside => "Inside",
            Refusal::NotEmpty => "NotEmpty",
            Refusal::TooLong => "TooLong",
            Refusal::TooMany => "TooMany",
            Refusal::Damaged => "Damaged",
            Refusal::BadKey => "BadKey",
            Refusal::NoKey => "NoKey",
            Refusal::ManyKeys => "ManyKeys",
            Refusal::Locked => "Locked",
            Refusal::ReadOnly => "ReadOnly",
        }
    }
}

impl fmt::Display for Refusal {
    ghost output = { λ r. Some (refusal_name r) };

    fn fmt<W: fmt::Write>(&self, f: &mut fmt::Formatter<W>) -> fmt::Result {
        f.write_str(self.as_str())
    }
}
