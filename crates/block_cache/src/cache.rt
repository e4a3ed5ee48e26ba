//! A cache of blocks.

ghost use Rattle.std.specs.Prelude.{◌≡◌, ◌⊎◌, true, [], length, IfOk, option_copied};
ghost use Rattle.block_cache.specs.Kept.{AreKept, bytes_at, is_cached, used, used_all, with_block};

use lru::LruCache;
use std::alloc::Global;
use std::marker::Model;
use std::num::NonZeroUsize;
use tape_types::{Bytes, NoMemory, Place};

/// At most 64 blocks that were read, each with its place, the one that was used last first; and where memory for more
/// comes from.
#[derive(Drop)]
pub struct BlockCache {
    blocks: LruCache<Place, Bytes>,
    alloc: Global,
}

impl Model for BlockCache {
    ghost use Rattle.std.specs.Prelude.{◌≡◌, List};
    ghost use Rattle.block_cache.specs.Kept.{Kept};

    ghost Value = { List Kept };

    ghost view = { λ a. a.blocks.entries };

    ghost invariant = { λ a. a.blocks.cap ≡ 64 };
}

impl BlockCache {
    /// No block, and room for the table of 64.
    pub fn new(alloc: Global) -> Result<BlockCache, NoMemory>
        ensures { IfOk result (λ cache. cache ≡ []) }
    {
        let Some(most) = NonZeroUsize::new(64) else {
            unreachable!();
        };
        let blocks = LruCache::new(alloc, most)?;
        Ok(BlockCache { blocks, alloc })
    }

    /// The block at a place, where it is kept. It doesn't count as used.
    pub fn find(&self, place: Place) -> Option<&Bytes>
        ensures { option_copied result ≡ bytes_at self.now place }
    {
        self.blocks.peek(&place)
    }

    /// The block at a place was used: where it is kept it comes first.
    pub fn used(&mut self, place: Place)
        ensures { self.new ≡ used self.old place }
    {
        // At most so many blocks are kept as there may be.
        let _count = self.blocks.len();
        let _there = self.blocks.promote(&place);
    }

    /// Keeps a block that was read, or changes nothing where there is no memory for it. A block of a place that is kept
    /// needs none.
    pub fn keep(&mut self, place: Place, bytes: Bytes)
        ensures kept { (self.new ≡ with_block place bytes self.old) ⊎ (self.new ≡ self.old) }
        ensures again { is_cached self.old place ≡ true → self.new ≡ with_block place bytes self.old }
    {
        // At most so many blocks are kept as there may be.
        let _count = self.blocks.len();
        match self.blocks.put(place, bytes) {
            Ok(_) => (),
            Err(_) => (),
        }
    }

    /// Keeps a copy of a block that was read, or changes nothing where there is no memory for it.
    pub fn keep_copy(&mut self, place: Place, bytes: &[u8])
        ensures { (self.new ≡ with_block place bytes.now self.old) ⊎ (self.new ≡ self.old) }
    {
        let mut copy = Bytes::new(self.alloc);
        if copy.extend(bytes).is_ok() {
            self.keep(place, copy);
        }
    }

    /// The blocks at these places were used, one after the other.
    #[tactic(auto, using(crate::proofs::UseLemmas::used_next, crate::proofs::UseLemmas::used_ends))]
    pub fn used_all(&mut self, places: &[Place])
        ensures { self.new ≡ used_all self.old places.now }
    {
        for place in places {
            self.used(*place);
        }
    }

    /// How many blocks are kept.
    #[tactic(auto, using(crate::proofs::Crossing::cache_send))]
    pub fn len(&self) -> usize
        ensures count { result ≡ length self.now }
        ensures kept { AreKept self.now }
    {
        self.blocks.len()
    }
}
