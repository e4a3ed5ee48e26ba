//! Lines of the log on their way to a sink: gathered in a room of fixed size, and written piece by piece, without
//! memory.
#![tactic(auto)]

mod printer;
mod waiting;

pub use printer::Printer;
