//! The space of a volume: what fits, where it goes, and the ops that are to be done on tape.
#![tactic(auto)]

mod drafts;
mod errors;
pub mod index_construct;
mod layouts;
mod ops;
pub mod placement;
mod standing;

pub use errors::AdmitErr;
pub use layouts::Layout;
pub use ops::Op;
pub use standing::Ends;
