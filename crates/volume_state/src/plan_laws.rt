//! What stands on tape once all ops that stand are done: definitions and laws, no code.

mod examples;
mod laws;

pub use examples::the_definitions_tell_plans;
pub use laws::{
    ends_go_on, marks_stay, places_stay, plans_agree, plans_hold, tapes_stay, tapes_tell,
    ways_go_on,
};
