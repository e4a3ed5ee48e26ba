//! What a crash may leave of a volume that is served: definitions and laws, no code.

mod closing;
mod examples;
mod laws;
mod standing;

pub use closing::{
    a_close_stands, none_is_ahead_again, partitions_end_where_they_were_made_to, plans_go_on,
};
pub use examples::{
    the_definitions_tell_a_sync, the_definitions_tell_jobs, the_definitions_tell_modes,
};
pub use laws::{
    acks_are_kept, admissions_keep, closes_leave, histories_go_on, images_are_fine, kept_gives,
    starts_are_kept, steps_keep, syncs_are_held,
};
pub use standing::ops_leave_images;
