//! The tree of a volume while the server runs: its files as extents (LTFS 2.4 on the index).
#![tactic(auto)]

mod carried;
mod changes;
mod checks;
mod found;
mod guesses;
mod laws;
mod listing;
mod members;
mod mount;
mod nodes;
mod places;
mod raws;
mod spots;
mod store;
mod told;
mod tree;

pub use carried::{Carried, Heading, lock_of, told_lock};
pub use checks::{
    Move, bare_at, dir_of_new, file_at, find_move, held_key_at, key_at, known_key_at, long_file_at,
    node_at,
};
pub use found::Found;
pub use laws::{
    blocks_make_the_tree, ends_hold, facts_are_carried, indexes_are_told_again, indexes_come_back,
    mounts_lie_below, outlines_keep_files, plain_nodes_agree, refusals_are_alike, told_nodes_agree,
    writes_are_writes,
};
pub use raws::Letters;
pub use tree::Tree;
