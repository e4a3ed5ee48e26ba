ghost use Rattle.plain_tree.specs.Laws.{TreesStayValid, RefusedCallsChangeNothing, UidsNeverReturn, NodesStay};
ghost use Rattle.plain_tree.specs.Laws.{RenamesKeepNodes, LocksHold, KeysAreMaps, ReadOnlyDirsStay};
ghost use Rattle.plain_tree.specs.Rows.{WorkedRows};
ghost use Rattle.tape_types.specs.declared.moments.Moment.{Moment};
ghost use Rattle.plain_tree.specs.Laws.{ReadsSeeWrites, ListingsAreExact};

/// Every tree that calls reach is valid.
pub fn trees_stay_valid()
    ensures { TreesStayValid }
{}

/// A refused call leaves the tree as it was.
pub fn refused_calls_change_nothing()
    ensures { RefusedCallsChangeNothing }
{}

/// The uid of a node that is gone is never given again.
pub fn uids_never_return()
    ensures { UidsNeverReturn }
{}

/// A node keeps its attributes, its flag and what it holds, but for calls about these, which a read-only node refuses.
pub fn nodes_stay()
    ensures { NodesStay }
{}

/// What stands in a read-only directory stays.
pub fn read_only_directories_stay()
    ensures { ReadOnlyDirsStay }
{}

/// A locked tree stays as it is, and one that is locked for ever stays so.
pub fn locks_hold()
    ensures { LocksHold }
{}

/// The attributes of a node are a map from keys to bytes.
pub fn keys_are_maps()
    ensures { KeysAreMaps }
{}

/// A rename moves a node and all below it as they are, and leaves all else.
pub fn renames_keep_nodes()
    ensures { RenamesKeepNodes }
{}

/// What was written is read.
pub fn reads_see_writes()
    ensures { ReadsSeeWrites }
{}

/// A listing has each name of the directory once, by its bytes, and no other.
pub fn listings_are_exact()
    ensures { ListingsAreExact }
{}

/// Calls with attributes, read-only nodes and locks in worked rows.
pub fn rows_are_worked()
    ensures { (at : Moment) → WorkedRows at }
{}
