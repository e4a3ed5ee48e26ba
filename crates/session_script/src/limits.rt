//! The limits of a script, one constant each.

/// The most sessions of a script. They are numbered from 1 on.
pub const MOST_SESSIONS: u16 = 16;
/// The most calls of a session.
pub const MOST_CALLS: u32 = 1024;
/// The most bytes of a write, and of the value that a key is given.
pub const MOST_WRITTEN: u64 = 65_536;
/// The most bytes that a read asks for.
pub const MOST_ASKED: u64 = 1_048_576;
/// The most bytes that all writes and values of keys may have, and the most that all reads may ask for.
pub const MOST_IN_ALL: u64 = 67_108_864;
/// The most bytes of a script's text.
pub const LONGEST_SCRIPT: usize = 16_777_216;
