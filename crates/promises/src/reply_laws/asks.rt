//! What the events of a volume tell of the blocks that are asked for, of writes that are put off and of the ops of each
//! sync, over each of its calls.

ghost use Rattle.promises.specs.ReplyLaws.Asks.{AskingBegins, DrainTurnsAskTruly, QueueTheirOps, SubmissionsAskTruly};
ghost use Rattle.promises.specs.ReplyLaws.Asks.{TurnsAskTruly};

use crate::serving_promise::Serve;

/// The events of a submission queue the places of its ops, in order.
pub fn submissions_queue_their_ops()
    ensures { QueueTheirOps }
{}

/// A volume of which nothing was asked yet has nothing to tell.
pub fn asking_begins<S: Serve>()
    ensures { AskingBegins S.seen }
{}

/// A submission that leaves a volume true keeps what its events tell.
pub fn submissions_ask_truly<S: Serve>()
    ensures { SubmissionsAskTruly S.seen }
{}

/// So does a turn.
pub fn turns_ask_truly<S: Serve>()
    ensures { TurnsAskTruly S.seen }
{}

/// And a turn of a session that drains.
pub fn drain_turns_ask_truly<S: Serve>()
    ensures { DrainTurnsAskTruly S.seen }
{}
