//! What a served volume is made of.

use block_cache::BlockCache;
use event_journal::{Placements, Trail};
use head_core::Head;
use head_queue::Queue;
use held_volume::Stock;
use tape_drive::Drive;
use waiting_reads::Readings;

/// The head over the drive, what is held of the volume, its events, the requests that wait, its placements, and the
/// reads that wait; from which place of the history on files may go to the index partition; and the blocks that were read
/// and are kept.
#[derive(Drop)]
pub struct Parts<D: Drive> {
    pub head: Head<D>,
    pub stock: Stock,
    pub trail: Trail,
    pub queue: Queue,
    pub placements: Placements,
    pub reads: Readings,
    pub on: Option<u64>,
    pub cache: BlockCache,
}
