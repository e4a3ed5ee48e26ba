//! The head: what reaches the tape and what is read from it goes through steps of one locate and one transfer.
#![tactic(auto)]

mod head;
mod laws;
mod transfers;
mod work;

pub use head::Head;
pub use laws::{
    crashes_keep_what_stands_in_front, ops_keep_what_stands_in_front, what_is_sure_stays_sure,
};
pub use work::{StepDone, Work};
