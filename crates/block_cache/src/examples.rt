//! Trials and laws of the definitions.

ghost use Rattle.std.specs.Prelude.{◌≡◌, true, false, [], ◌∷◌, None, Some, codes, length, map};
ghost use Rattle.std.specs.List.{range_with_len};
ghost use Rattle.block_cache.specs.Kept.{AreKept, bytes_at, is_cached, used, used_all, with_block};
ghost use Rattle.block_cache.specs.Laws.{CachesStay, KeepsFind, UsesReorder};
ghost use Rattle.block_cache.specs.Worked.{dp, full, full_after_63, full_with_100, hello, ip, one};

/// Which block stands first, and which one makes room.
#[tactic(auto, using(crate::proofs::WorkedLemmas::twice_isnt, crate::proofs::WorkedLemmas::full_is))]
pub fn the_definitions_tell_caches()
    ensures uses_first { used full (dp 63) ≡ full_after_63 }
    ensures not_kept { used (one 3 ∷ hello ∷ []) (dp 8) ≡ one 3 ∷ hello ∷ [] }
    ensures evicts_last { with_block (dp 100) (100 ∷ []) full_after_63 ≡ full_with_100 }
    ensures keeps_64 { length (with_block (dp 63) (63 ∷ []) (map one (range_with_len 0 63))) ≡ 64 }
    ensures again_the_same { with_block (dp 7) (codes "hello") (hello ∷ one 3 ∷ []) ≡ hello ∷ one 3 ∷ [] }
    ensures again_to_front { with_block (dp 7) (codes "hello") (one 3 ∷ hello ∷ []) ≡ hello ∷ one 3 ∷ [] }
    ensures again_when_full { with_block (dp 63) (63 ∷ []) full ≡ full_after_63 }
    ensures each_once { used_all (one 1 ∷ one 2 ∷ one 3 ∷ []) (dp 3 ∷ dp 2 ∷ []) ≡ one 2 ∷ one 3 ∷ one 1 ∷ [] }
    ensures cached { is_cached (one 3 ∷ hello ∷ []) (dp 7) ≡ true }
    ensures other_partition { is_cached (hello ∷ []) (ip 7) ≡ false }
    ensures found { bytes_at (one 3 ∷ hello ∷ []) (dp 7) ≡ Some (codes "hello") }
    ensures not_found { bytes_at (one 3 ∷ hello ∷ []) (ip 7) ≡ None }
    ensures too_many { ¬ AreKept (one 100 ∷ full) }
    ensures twice { ¬ AreKept (hello ∷ one 3 ∷ (dp 7, codes "world") ∷ []) }
    ensures full_is { AreKept full }
{}

/// A cache begins empty, and what is true of it stays true.
#[tactic(auto, using(crate::proofs::LawLemmas::caches_stay))]
pub fn caches_stay()
    ensures { CachesStay }
{}

/// A use changes the order alone.
#[tactic(auto, using(crate::proofs::LawLemmas::uses_reorder))]
pub fn uses_reorder()
    ensures { UsesReorder }
{}

/// A block that is kept is found, and no other comes or goes while there is room.
#[tactic(auto, using(crate::proofs::LawLemmas::keeps_find))]
pub fn kept_blocks_are_found()
    ensures { KeepsFind }
{}
