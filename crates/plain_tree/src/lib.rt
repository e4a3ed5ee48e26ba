// The tree of a volume: what each call of a session answers and leaves, and a plain tree that does so.
#![tactic(auto)]

mod calls;
mod changes;
mod copies;
mod keys;
mod laws;
mod lines;
mod links;
mod map_tree;
mod node_map;
mod nodes;
mod paged;
mod paths;
mod plain;
mod refusals;

pub use calls::{Answer, Call, Change, Entry, Facts, Fate, LockState, Placed, Refusal, Sort};
pub use keys::{MOST_KEYS, NodeKeys};
pub use laws::{
    keys_are_maps, listings_are_exact, locks_hold, nodes_stay, read_only_directories_stay,
    reads_see_writes, refused_calls_change_nothing, renames_keep_nodes, rows_are_worked,
    trees_stay_valid, uids_never_return,
};
pub use lines::Lines;
pub use nodes::{Kind, Node};
pub use plain::Plain;
