//! Trials and laws of the blocks that are kept.

ghost use Rattle.std.specs.Prelude.{◌≡◌, ◌++◌, ℕ, List, [], ◌∷◌, Option, Some, codes, map};
ghost use Rattle.std.specs.List.{range_with_len};
ghost use Rattle.session_script.specs.declared.logs.Event.{Event};
ghost use Rattle.session_script.specs.declared.logs.Event.TheVariants.{Wants, Served};
ghost use Rattle.tape_types.specs.declared.cartridges.Cartridge.{Cartridge};
ghost use Rattle.tape_types.specs.declared.cartridges.Place.{Place};
ghost use Rattle.head_queue.specs.EventLaws.Rows.{dp, one_sync};
ghost use Rattle.block_cache.specs.Kept.{Kept};
ghost use Rattle.block_cache.specs.Worked.{full, hello, one};
ghost use Rattle.promises.specs.ServingPromise.Cached.{AreOnTape, IsCache, KeepsBlock, KeepsBlocks, ReadsBlocks, asked};
ghost use Rattle.promises.specs.ServingPromise.Cached.{found};
ghost use Rattle.promises.specs.ServingPromise.Keeping.{fails_7, puts_7, reads_7, two_stand, with_hello};

/// Which reads, steps and kept blocks may be, and which may not.
#[tactic(auto, using(crate::proofs::ServingPromise::CacheFacts::never_read_isnt, crate::proofs::ServingPromise::CacheFacts::one_is))]
pub fn the_definitions_tell_kept_blocks()
    ensures all_held_or_kept { asked (dp 7 ∷ dp 8 ∷ dp 9 ∷ []) two_stand (one 9 ∷ []) ≡ [] }
    ensures some_asked { asked (dp 7 ∷ dp 9 ∷ dp 10 ∷ []) two_stand (one 9 ∷ []) ≡ dp 10 ∷ [] }
    ensures some_found { found (dp 7 ∷ dp 9 ∷ dp 10 ∷ []) two_stand (one 9 ∷ []) ≡ dp 9 ∷ [] }
    ensures second_read { ReadsBlocks (dp 7 ∷ []) one_sync [] (hello ∷ []) (hello ∷ []) }
    ensures second_read_again { ¬ ReadsBlocks (dp 7 ∷ []) one_sync (Wants 4 (dp 7) ∷ []) (hello ∷ []) (hello ∷ []) }
    ensures unread { (new : List Kept) → ¬ ReadsBlocks (dp 7 ∷ []) one_sync [] (one 3 ∷ []) new }
    ensures held { ReadsBlocks (dp 7 ∷ []) two_stand [] (one 3 ∷ hello ∷ []) (one 3 ∷ hello ∷ []) }
    ensures held_used { ¬ ReadsBlocks (dp 7 ∷ []) two_stand [] (one 3 ∷ hello ∷ []) (hello ∷ one 3 ∷ []) }
    ensures not_used { ¬ ReadsBlocks (dp 7 ∷ []) one_sync [] (one 3 ∷ hello ∷ []) (one 3 ∷ hello ∷ []) }
    ensures kept { KeepsBlock (Some with_hello) reads_7 [] (hello ∷ []) }
    ensures no_memory { KeepsBlock (Some with_hello) reads_7 (one 3 ∷ []) (one 3 ∷ []) }
    ensures stale { ¬ KeepsBlock (Some with_hello) reads_7 [] ((dp 7, codes "world") ∷ []) }
    ensures mark { (bytes : List ℕ)
        → ¬ KeepsBlock (Some with_hello) (Served 3 (dp 8) None) [] ((dp 8, bytes) ∷ []) }
    ensures torn { (bytes : List ℕ)
        → ¬ KeepsBlock (Some with_hello) (Served 3 (dp 9) None) [] ((dp 9, bytes) ∷ []) }
    ensures failed { ¬ KeepsBlock (Some with_hello) fails_7 [] (hello ∷ []) }
    ensures written { ¬ KeepsBlock (Some with_hello) puts_7 [] (hello ∷ []) }
    ensures first_dropped { ¬ KeepsBlock (Some with_hello) reads_7 full (hello ∷ map one (range_with_len 1 63)) }
    ensures too_many { ¬ IsCache [] (one 100 ∷ full) }
    ensures never_read { ¬ IsCache one_sync (hello ∷ one 3 ∷ []) }
    ensures one_is { IsCache one_sync (hello ∷ []) }
{}

/// What is true of the blocks that are kept stays true: none is at the beginning, and each read and each step of the
/// head keeps it.
#[tactic(auto, using(crate::proofs::ServingPromise::CacheLaws::none_yet, crate::proofs::ServingPromise::CacheLaws::steps_on_tape, crate::proofs::ServingPromise::CacheLaws::read_on_tape))]
pub fn kept_blocks_stay()
    ensures begins { IsCache [] [] }
    ensures step { (told : Option Cartridge) (trail added : List Event) (old new : List Kept) → IsCache trail old
        → KeepsBlocks told added old new → IsCache (trail ++ added) new }
    ensures read { (trail added : List Event) (blocks : List Place) (old new : List Kept) → IsCache trail old
        → ReadsBlocks blocks trail added old new → IsCache (trail ++ added) new }
    ensures step_on_tape { (c : Cartridge) (added : List Event) (old new : List Kept) → AreOnTape c old
        → KeepsBlocks (Some c) added old new → AreOnTape c new }
    ensures read_on_tape { (c : Cartridge) (trail added : List Event) (blocks : List Place) (old new : List Kept)
        → AreOnTape c old → ReadsBlocks blocks trail added old new → AreOnTape c new }
{}
