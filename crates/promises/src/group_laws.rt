//! Which ops a sync ends.

mod laws;

pub use laws::{
    groups_begin, ops_may_come, others_keep_groups, reads_may_want, syncs_end_their_ops,
    syncs_of_nothing_end_none, writes_queue_their_ops,
};
