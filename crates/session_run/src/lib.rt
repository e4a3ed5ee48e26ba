//! All calls of a script on a served volume, each session in a thread of its own; and the whole of a serving, from the
//! mount of a cartridge to its close.
//!
//! Not claimed: that it returns, which session goes first, and that threads run at the same time.
#![tactic(auto)]

mod ends;
mod host;
mod ran;
mod serving;
mod threads;
mod timed;

pub use ends::{ServeEnd, Served, end_line, print_end};
pub use host::Host;
pub use ran::{Ran, RanEnd, run_sessions};
pub use serving::serve_volume;
pub use timed::TimedClock;
