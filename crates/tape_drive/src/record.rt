// What a drive in memory keeps of its commands.
use tape_types::{Item, List, Note, Part};

/// What a command has done: enough to go back to what was before it.
#[derive(Drop)]
pub(crate) enum Act {
    /// A partition was cut, and an item appended. `gone` is what the cut has taken away; `failed` tells whether
    /// the command failed.
    Put {
        part: Part,
        gone: List<Item>,
        failed: bool,
    },
    /// Both partitions were made durable.
    Flushed,
    /// An attribute was written. `before` is the one from before.
    Noted {
        part: Part,
        before: Note,
    },
    /// An attribute or the volume change reference was read.
    Settled,
}

/// A command that has done something, with the number of commands at which it began.
#[derive(Drop)]
pub(crate) struct DoneCommand {
    pub number: u64,
    pub act: Act,
}
