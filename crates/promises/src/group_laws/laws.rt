//! What each call and each event makes of the ops that no sync has ended yet.

ghost use Rattle.promises.specs.GroupLaws.Laws.{GroupsBegin, OpsMayCome, OthersKeepGroups, ReadsMayWant};
ghost use Rattle.promises.specs.GroupLaws.Laws.{SyncsEndTheirOps, SyncsOfNothingEndNone, WritesQueueTheirOps};

/// At the start no op stands.
pub fn groups_begin()
    ensures { GroupsBegin }
{}

/// A sync queues the ops of its index, and ends them with all that stood before: each op that the head is to do is one
/// that was admitted, and it is a flush just where that one is.
pub fn syncs_end_their_ops()
    ensures { SyncsEndTheirOps }
{}

/// Where nothing has changed since the last index, a sync has no op to end.
pub fn syncs_of_nothing_end_none()
    ensures { SyncsOfNothingEndNone }
{}

/// A write queues the blocks of its bytes.
pub fn writes_queue_their_ops()
    ensures { WritesQueueTheirOps }
{}

/// What asks nothing of the tape leaves the ops, and so does each event that admits nothing, but for a step that does
/// one.
pub fn others_keep_groups()
    ensures { OthersKeepGroups }
{}

/// Where no sync has to be answered first, the events of a write and of a sync may come.
pub fn ops_may_come()
    ensures { OpsMayCome }
{}

/// And so may the requests of a read, one for each of its blocks.
pub fn reads_may_want()
    ensures { ReadsMayWant }
{}
