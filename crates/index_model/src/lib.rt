//! The index of an LTFS volume: what one document tells of the volume, of its files and of where
//! their bytes stand (LTFS 2.4 on the index).
#![tactic(auto)]

mod errors;
mod examples;
mod faults;
pub mod index_faults;
mod indexes;
mod laws;
mod nodes;
mod telling;
mod text_list;

pub use errors::IndexErr;
pub use examples::the_definitions_tell_valid_from_damaged;
pub use faults::Fault;
pub use indexes::{Index, Policy, Spot};
pub use laws::{directories_stand_together, indexes_tell_one_value, one_fault_is_told};
pub use nodes::{Node, NodeKind, RawExtent};
pub use telling::refusal_text;
pub use text_list::TextList;
