//! What a crash leaves while a volume is closed, and what stands once it is: laws, without code that runs.

mod laws;

pub use laws::{
    closed_volumes_stand, closes_are_safe, closes_can_tell, indexes_of_closes_are_due,
    indexes_stay, none_is_ahead, own_indexes_stay, syncs_are_covered, tapes_stay_ready,
    volumes_rest, wholes_stay,
};
