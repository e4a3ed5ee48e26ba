use file_tree::Carried;
use ltfs_label::Label;

/// What a volume's next index stands on, beside its tree.
#[derive(Drop)]
pub struct Frame {
    /// The label of the volume.
    pub label: Label,
    /// What each index tells as the one before it did.
    pub carried: Carried,
    /// Whether the volume was mounted as sealed, so that a close makes no command.
    pub sealed: bool,
    /// The newest generation, up to 2^62.
    pub generation: u64,
    /// The first block of the last index that was admitted on the data partition.
    pub last_dp: Option<u64>,
    /// Whether the tree has changed since the last index was admitted.
    pub changed: bool,
    /// Whether the data partition ended with the chosen index when the volume was mounted, or has got one since.
    pub dp_done: bool,
    /// Whether the index partition ends with an index of the newest generation that points back to the data
    /// partition's.
    pub ip_done: bool,
    /// Whether both coherency attributes were those of the last indexes when the volume was mounted.
    pub noted: bool,
}
