ghost use Rattle.std.specs.Prelude.{◌≡◌, IfOk};
ghost use Rattle.file_tree.specs.Carried.{carried_of, index_of, lock_of, told_lock};

use index_model::{Index, Node, Policy, Spot, TextList};
use ltfs_documents::doc_fields::LockState as ToldState;
use plain_tree::LockState;
use std::alloc::Global;
use tape_types::{List, Moment, NoMemory, Text};

/// What each index of a volume tells as the one before it did, beside the tree: no call changes it.
#[derive(Drop)]
pub struct Carried {
    pub comment: Option<Text>,
    /// Whether the policy may be changed.
    pub allow: bool,
    pub policy: Option<Policy>,
}

/// What an index tells of itself: who wrote it, of which volume, when, and where it stands.
#[derive(Drop)]
pub struct Heading {
    pub creator: Text,
    pub uuid: u128,
    pub generation: u64,
    pub updated: Moment,
    pub here: Spot,
    pub back: Option<Spot>,
}

impl Carried {
    /// What an index carries on.
    pub fn of_index(alloc: Global, index: &Index) -> Result<Carried, NoMemory>
        ensures { IfOk result (λ carried. carried ≡ carried_of index.now) }
    {
        let comment = text_copy(alloc, &index.comment)?;
        let policy = policy_copy(alloc, &index.policy)?;
        Ok(Carried {
            comment,
            allow: index.allow,
            policy,
        })
    }

    /// The index with this heading, these facts, this lock state and these nodes.
    pub fn to_index(
        &self,
        alloc: Global,
        heading: Heading,
        lock: LockState,
        highest: u64,
        nodes: List<Node>,
    ) -> Result<Index, NoMemory>
        ensures { IfOk result (λ index. index ≡ index_of heading self.now lock highest nodes) }
    {
        let comment = text_copy(alloc, &self.comment)?;
        let policy = policy_copy(alloc, &self.policy)?;
        Ok(Index {
            creator: heading.creator,
            comment,
            uuid: heading.uuid,
            generation: heading.generation,
            updated: heading.updated,
            here: heading.here,
            back: heading.back,
            allow: self.allow,
            policy,
            lock: told_lock(lock),
            highest,
            nodes,
        })
    }
}

/// The lock state that an index tells.
pub fn lock_of(told: Option<ToldState>) -> LockState
    ensures { result ≡ lock_of told }
{
    match told {
        None => LockState::Absent,
        Some(ToldState::Unlocked) => LockState::Unlocked,
        Some(ToldState::Locked) => LockState::Locked,
        Some(ToldState::PermLocked) => LockState::PermLocked,
    }
}

/// What an index tells of a lock state.
pub fn told_lock(state: LockState) -> Option<ToldState>
    ensures { result ≡ told_lock state }
{
    match state {
        LockState::Absent => None,
        LockState::Unlocked => Some(ToldState::Unlocked),
        LockState::Locked => Some(ToldState::Locked),
        LockState::PermLocked => Some(ToldState::PermLocked),
    }
}

fn text_copy(alloc: Global, text: &Option<Text>) -> Result<Option<Text>, NoMemory>
    ensures { IfOk result (λ copy. copy ≡ text.now) }
{
    match text {
        Some(text) => Ok(Some(text.try_clone(alloc)?)),
        None => Ok(None),
    }
}

fn policy_copy(alloc: Global, policy: &Option<Policy>) -> Result<Option<Policy>, NoMemory>
    ensures { IfOk result (λ copy. copy ≡ policy.now) }
{
    match policy {
        Some(policy) => Ok(Some(Policy {
            size: policy.size,
            names: names_copy(alloc, &policy.names)?,
        })),
        None => Ok(None),
    }
}

fn names_copy(alloc: Global, names: &TextList) -> Result<TextList, NoMemory>
    ensures { IfOk result (λ copy. copy ≡ names.now) }
{
    let mut copy = TextList::new(alloc);
    for at in 0..names.len() {
        copy.push(names.get(at))?;
    }
    Ok(copy)
}
