ghost use Rattle.held_volume.specs.Mounted.{MountsAreStock, MountsCanStart};
ghost use Rattle.held_volume.specs.Synced.{SyncsCanTell, SyncsTellTheTree};

/// The index of a sync of what is held is valid, has the text that is admitted, and is mounted as the tree that stands.
pub fn syncs_tell_the_tree()
    ensures { SyncsTellTheTree }
{}

/// What is found at a mount can be served.
pub fn mounts_can_start()
    ensures { MountsCanStart }
{}

/// What is found at a mount, with a tree of its index, is what a volume is served from.
pub fn mounts_are_stock()
    ensures { MountsAreStock }
{}

/// A sync that fits has an index that can be told, where the volume was mounted.
pub fn syncs_can_tell()
    ensures { SyncsCanTell }
{}
