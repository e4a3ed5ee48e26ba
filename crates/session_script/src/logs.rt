ghost use Rattle.std.specs.Prelude.{◌≡◌, IfOk};

use crate::kept::KeptReply;
use plain_tree::{Answer, Placed};
use std::alloc::Global;
use tape_types::{List, NoMemory, Place, Twin};

/// What a session is told of a call.
#[derive(Drop)]
pub enum Reply {
    /// What the tree answers.
    Answer(Answer),
    /// There is no space for it: it needs so many positions, and there are so many.
    Full { need: u64, limit: u64 },
    /// The drive failed: its count of faults before and after.
    Fault(Twin),
    NoMemory,
}

impl Reply {
    /// A second reply that equals this one.
    pub fn try_clone(&self, alloc: Global) -> Result<Reply, NoMemory>
        ensures { IfOk result (λ copy. copy ≡ self.now) }
    {
        match self {
            Reply::Answer(answer) => Ok(Reply::Answer(answer.try_clone(alloc)?)),
            Reply::Full { need, limit } => Ok(Reply::Full {
                need: *need,
                limit: *limit,
            }),
            Reply::Fault(counts) => Ok(Reply::Fault(*counts)),
            Reply::NoMemory => Ok(Reply::NoMemory),
        }
    }
}

/// The place of a sync, and the drive's count of commands when the sync was answered.
#[derive(Clone, Copy)]
pub struct Ack {
    pub place: u64,
    pub command: u64,
}

/// What happened to requests, ops and sessions while a volume was served.
#[derive(Clone, Copy)]
pub enum Event {
    Wants {
        ticket: u64,
        place: Place,
    },
    Queues {
        place: Place,
    },
    Syncs {
        ticket: u64,
    },
    Synced {
        ticket: u64,
    },
    Drains {
        who: u16,
    },
    Rests {
        who: u16,
    },
    Served {
        ticket: u64,
        place: Place,
        fault: Option<Twin>,
    },
    Worked {
        place: Place,
        fault: Option<Twin>,
    },
}

/// What a run did. Each placement of the history has the reply at the same position; of a volume that was served, a long
/// one may be gone.
#[derive(Drop)]
pub struct Log {
    pub history: List<Placed>,
    pub replies: List<KeptReply>,
    pub acks: List<Ack>,
    pub events: List<Event>,
}
