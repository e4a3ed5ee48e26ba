// Where bytes come from and go to, where moments come from, and where sessions pass.
#![tactic(auto)]

mod clocks;
mod gates;
mod input;
mod memory;
mod patience;
mod streams;
mod traits;

pub use clocks::{StepClock, SystemClock};
pub use gates::{Gate, Hold, OpenGate, OrderGate};
pub use input::{ReadFailure, read_input};
pub use memory::{MemSink, MemSource};
pub use patience::Patient;
pub use streams::{ReaderSource, WriterSink};
pub use traits::{Clock, ReadFault, Sink, Source, WriteFault};
