//! What a served volume owes, and what keeps it so: definitions, their types, and laws.
#![tactic(auto)]

pub mod crash_laws;
pub mod group_laws;
pub mod image_laws;
pub mod order_laws;
pub mod promise_laws;
pub mod reply_laws;
pub mod serving_promise;
