use index_model::Index;
use ltfs_label::Label;
use tape_types::Place;

/// What is found of a volume when it is mounted.
#[derive(Drop)]
pub struct Mounted {
    /// The label of the index partition.
    pub label: Label,
    /// The index of the greater generation; on a tie that of the data partition.
    pub index: Index,
    /// The first block of that index.
    pub chosen: Place,
    /// Its generation.
    pub newest: u64,
    /// Where the next item of the index partition goes.
    pub end_ip: u64,
    /// Where the next item of the data partition goes.
    pub end_dp: u64,
    /// The first block of the last index of the data partition.
    pub last_dp: Option<u64>,
    /// Whether the chosen index is that of the data partition, so that files may go to the index partition.
    pub ip_on: bool,
    /// Whether the data partition ends with its last index, which is the chosen one.
    pub dp_done: bool,
    /// Whether the index partition ends with its last index, which has the chosen generation and points back to the
    /// data partition's last.
    pub ip_done: bool,
    /// Whether both notes tell of the last index of their partition.
    pub noted: bool,
}
