//! What a cartridge stands for (LTFS 2.4 on mounting and on consistency): what its labels, its indexes and its notes
//! say, and why it is no volume. Definitions, the types that they speak of, and laws.
#![tactic(auto)]

mod errors;
mod examples;
mod labels;
mod laws;
mod mounted;

pub use errors::MountErr;
pub use examples::{
    the_definitions_tell_back_pointers, the_definitions_tell_extents,
    the_definitions_tell_honest_notes, the_definitions_tell_labels, the_definitions_tell_pointers,
    the_definitions_tell_the_choice,
};
pub use labels::Labels;
pub use laws::{
    cartridges_alike_read_alike, cartridges_mount_in_one_way, cartridges_read_in_one_way,
    each_cartridge_reads_or_is_refused, faults_are_told_in_one_way,
    honest_cartridges_have_honest_notes, notes_tell_how_partitions_end,
    notes_tell_of_the_last_indexes, texts_are_read_or_stop, the_newest_index_is_chosen,
    what_is_found_is_right,
};
pub use mounted::Mounted;
