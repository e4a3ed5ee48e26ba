//! What a volume holds while it is served: its tree, what is admitted for the tape, and what its next index stands on.
#![tactic(auto)]

mod attributes;
mod changes;
mod closings;
mod laws;
mod locks;
mod looks;
mod stocks;
mod syncs;
pub mod volume_sync;
mod writes;

pub use closings::ClosingTexts;
pub use laws::{mounts_are_stock, mounts_can_start, syncs_can_tell, syncs_tell_the_tree};
pub use stocks::Stock;
