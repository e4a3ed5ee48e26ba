//! A lock that gives turns, one at a time, to the passes that share a state with a history.
//!
//! A caller that enters with its pass learns what the history has become: it begins with what the pass has seen, and
//! every later entry names a number of another pass. So who alone appends the entries of its numbers knows at each
//! turn all that there are of them.
//!
//! Not claimed: that a caller gets its turn, in which order callers get theirs, that a call returns at all, and
//! anything between passes that never met in one history.
#![tactic(auto)]

mod board;
mod doors;
mod lobby;
mod lock;
mod logged;
mod pass;
mod rule;

pub use lock::TurnLock;
pub use logged::Logged;
pub use pass::Pass;
