//! One value of 255 bytes in the header of a disk of byte files, set whole or not at all whenever a crash comes.
#![tactic(auto)]

mod errors;
mod finding;
mod known;
mod laws;
mod making;
mod pieces;
mod sides;
mod slots;

pub use errors::{OpenErr, SetErr};
pub use known::Known;
pub use laws::{
    a_gate_is_before_or_after, closed_slots_say_nothing, known_values_are_left, values_are_chosen,
};
pub use sides::Side;
pub use slots::{OpenFail, Slots};
