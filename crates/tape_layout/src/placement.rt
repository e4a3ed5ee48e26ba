//! Which files a volume's policy puts on the index partition (LTFS 2.4 on the data placement policy).

mod laws;
mod patterns;
mod policies;

pub use laws::choices_are_computed;
pub use patterns::matches;
pub use policies::chooses_ip;
