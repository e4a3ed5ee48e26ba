// What a disk in memory keeps of its commands.
use crate::disk::File;
use tape_types::Bytes;

/// A write, with what leads back to the file from before it.
#[derive(Drop)]
pub(crate) struct Change {
    pub at: u64,
    /// How many bytes were to be written.
    pub count: u64,
    /// How long the file was.
    pub old_len: u64,
    /// The bytes that were overwritten.
    pub gone: Bytes,
}

/// What a command has done.
#[derive(Drop)]
pub(crate) enum Act {
    /// Bytes were written to a file, or were to be.
    Wrote { file: File, change: Change },
    /// A file was made durable.
    Synced { file: File },
}

/// A command that has done something, with the number of commands at which it began.
#[derive(Drop)]
pub(crate) struct DoneCommand {
    pub number: u64,
    pub act: Act,
}
