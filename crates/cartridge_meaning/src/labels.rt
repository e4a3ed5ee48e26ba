use ltfs_label::Label;
use vol_label::Vol1;

/// What stands at the beginning of both partitions of a volume (LTFS 2.4 on labels).
#[derive(Drop)]
pub struct Labels {
    /// The VOL1 record of the index partition.
    pub ip_record: Vol1,
    /// The label of the index partition, which is that of the volume.
    pub ip: Label,
    /// The VOL1 record of the data partition.
    pub dp_record: Vol1,
    /// The label of the data partition.
    pub dp: Label,
}
