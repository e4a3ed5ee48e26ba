//! What a served volume is made of, and that what each call makes of these parts keeps the promises: definitions and
//! laws, no code that runs.
#![tactic(auto)]

pub mod call_laws;
pub mod closing_laws;
pub mod due_laws;
pub mod plan_laws;
pub mod state_laws;
