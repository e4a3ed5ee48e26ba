//! That each call of a served volume keeps all that is promised of it: definitions and laws.

mod laws;

pub use laws::{
    drain_turns_keep_the_promise, submissions_keep_the_promise, turns_keep_the_promise,
    volumes_begin_promised, what_is_kept_is_promised,
};
