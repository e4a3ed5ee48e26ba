ghost use Rattle.std.specs.Prelude.{◌≡◌};
ghost use Rattle.index_model.specs.declared.indexes.Index.{Index};
ghost use Rattle.index_model.specs.Order.{AreInOrder};
ghost use Rattle.index_model.specs.Valid.{Agrees};
ghost use Rattle.file_tree.specs.Blocks.{BlocksMakeTheTree, EndsHold};
ghost use Rattle.file_tree.specs.Carried.{FactsAreCarried};
ghost use Rattle.file_tree.specs.Edits.{OutlinesKeepFiles, RefusalsAreAlike};
ghost use Rattle.file_tree.specs.Indexes.{IndexesAreToldAgain, IndexesComeBack};
ghost use Rattle.file_tree.specs.Mounts.{Letters, MountsLieBelow};
ghost use Rattle.file_tree.specs.Told.{told_nodes};
ghost use Rattle.file_tree.specs.Tree.{FileTree, PlainNodesAgree};
ghost use Rattle.file_tree.specs.Valid.{IsGood};
ghost use Rattle.file_tree.specs.Writes.{WritesAreWrites};

/// What a call is refused goes by what stands on tape only where a byte is lost, and then the call would be refused
/// nothing else.
pub fn refusals_are_alike()
    ensures { RefusalsAreAlike }
{}

/// The nodes that a tree tells stand in the order of a document, and agree with one another and with the tree's highest
/// uid.
pub fn told_nodes_agree()
    ensures order { (letters : Letters) (t : FileTree) → IsGood t → AreInOrder (told_nodes letters t) }
    ensures agrees { (letters : Letters) (t : FileTree) → IsGood t → (index : Index)
        → index.nodes ≡ told_nodes letters t → index.highest ≡ t.highest → Agrees index }
{}

/// Two tapes that have the same bytes in the blocks of a tree give the same plain tree.
pub fn blocks_make_the_tree()
    ensures { BlocksMakeTheTree }
{}

/// What stands behind the ends of a tree's blocks isn't seen, and calls that are given blocks below the ends leave the
/// tree below them.
pub fn ends_hold()
    ensures { EndsHold }
{}

/// What changes times, flags, attributes and the lock alone leaves all numbers, files and blocks where they are.
pub fn outlines_keep_files()
    ensures { OutlinesKeepFiles }
{}

/// An overlay over new blocks that hold the bytes of a write is the plain tree's write.
pub fn writes_are_writes()
    ensures { WritesAreWrites }
{}

/// The index that tells a tree is valid, can be mounted, and is mounted as that tree.
pub fn indexes_come_back()
    ensures { IndexesComeBack }
{}

/// The index that tells a tree carries the volume's facts on, unchanged.
pub fn facts_are_carried()
    ensures { FactsAreCarried }
{}

/// The tree of an index stands in blocks of the index alone, below the ends where the index's extents end before them.
pub fn mounts_lie_below()
    ensures { MountsLieBelow }
{}

/// The nodes of the plain tree are those that are kept, with the bytes of their files.
pub fn plain_nodes_agree()
    ensures { PlainNodesAgree }
{}

/// The tree of an index whose nodes stand by their names tells these nodes again.
pub fn indexes_are_told_again()
    ensures { IndexesAreToldAgain }
{}
