//! A served volume as contracts see it: definitions.

mod answers;
mod contract;
mod examples;
mod keeping;
mod marks;
mod viewed;

pub use answers::{CloseEnd, Drained, Submitted, Turn};
pub use contract::{Closed, Kept, Left, Serve};
pub use examples::{
    a_volume_begins_served, fine_cartridges_keep_the_promise, plain_runs_are_served,
    the_definitions_tell_asking, the_definitions_tell_closes, the_definitions_tell_crashes,
    the_definitions_tell_histories, the_definitions_tell_logs, the_definitions_tell_replies,
    the_definitions_tell_turns,
};
pub use keeping::{kept_blocks_stay, the_definitions_tell_kept_blocks};
pub use marks::{Mark, MarkKind};
