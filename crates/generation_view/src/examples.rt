//! A cartridge and indexes by hand, on which the definitions are tried.

ghost use Rattle.std.specs.Prelude.{◌≡◌, ◌+◌, ℕ, List, [], ◌∷◌, Some, None};
ghost use Rattle.index_model.specs.declared.errors.IndexErr.{IndexErr};
ghost use Rattle.index_model.specs.Grammar.{Stops};
ghost use Rattle.index_model.specs.declared.indexes.Index.{Index};
ghost use Rattle.content_laws.specs.Worked.{first_index, second_index};
ghost use Rattle.cartridge_meaning.specs.Pointers.{indexes_of, text_of};
ghost use Rattle.cartridge_meaning.specs.Worked.{cartridge, index, label, on_b, third_index, two};
ghost use Rattle.tape_types.specs.declared.cartridges.Cartridge.{Cartridge};
ghost use Rattle.cartridge_meaning.specs.Meaning.{Found};
ghost use Rattle.generation_view.specs.Chain.{AreLinks, Breaks, IsBefore, IsBrokenBehind, IsBrokenOnWay, IsChain};
ghost use Rattle.generation_view.specs.Chain.{IsOlder, IsWayTo, LacksGeneration, behind, last_generation};
ghost use Rattle.generation_view.specs.Worked.{Reads, all_three, crossed, file, middle, newest, oldest, three};
ghost use Rattle.generation_view.specs.declared.errors.BreakWhy.TheVariants.{Text, Volume, Pointer, Rises, Extent};

/// What is asked of the links of a chain beside what a mount asks of the last index.
pub fn the_definitions_tell_links()
    ensures newest { IsOlder (index 2 (on_b 9) None) None }
    ensures older { IsOlder (index 1 (on_b 5) None) (Some 2) }
    ensures same { ¬ IsOlder (index 2 (on_b 5) None) (Some 2) }
    ensures newer { ¬ IsOlder (index 3 (on_b 5) None) (Some 2) }
    ensures to_its_mark { IsBefore label cartridge second_index (file 2 98 7 0 4096) }
    ensures past_its_mark { ¬ IsBefore label cartridge second_index (file 2 98 7 0 4097) }
    ensures on_its_mark { ¬ IsBefore label cartridge second_index (file 2 98 8 0 1) }
    ensures in_itself { ¬ IsBefore label cartridge second_index (file 2 98 9 0 1) }
    ensures behind_an_older_one { IsBefore label cartridge second_index (file 2 98 5 0 1) }
    ensures of_an_older_one { ¬ IsBefore label cartridge first_index (file 2 98 7 0 1) }
    ensures past_the_other_end { ¬ IsBefore label cartridge second_index (file 2 97 4 0 1) }
    ensures no_bytes { IsBefore label cartridge second_index (file 2 97 4 0 0) }
{}

/// What stands behind some links, and what breaks there is measured by.
pub fn the_definitions_tell_what_is_behind()
    ensures all { indexes_of three.dp ≡ all_three }
    ensures none { behind two [] ≡ two }
    ensures one { behind two (index 2 (on_b 9) None ∷ []) ≡ first_index ∷ [] }
    ensures both { behind two (index 2 (on_b 9) None ∷ index 1 (on_b 5) None ∷ []) ≡ [] }
    ensures first { last_generation None [] ≡ None }
    ensures second { last_generation None (index 2 (on_b 9) None ∷ []) ≡ Some 2 }
    ensures too_many { (i : Index) → ¬ AreLinks label cartridge None [] (i ∷ []) }
{}

/// The chain of a cartridge with three indexes, and the ways along it.
pub fn the_definitions_tell_chains()
    ensures whole { (r : Reads newest middle oldest) → IsChain three r.found (newest ∷ middle ∷ oldest ∷ []) }
    ensures newest { (r : Reads newest middle oldest) → IsWayTo three r.found 4 [] newest }
    ensures middle { (r : Reads newest middle oldest) → IsWayTo three r.found 2 (newest ∷ []) middle }
    ensures oldest { (r : Reads newest middle oldest) → IsWayTo three r.found 1 (newest ∷ middle ∷ []) oldest }
    ensures gap { (r : Reads newest middle oldest) → LacksGeneration three r.found 3 }
    ensures above { (r : Reads newest middle oldest) → LacksGeneration three r.found 7 }
    ensures below { (r : Reads newest middle oldest) → LacksGeneration three r.found 0 }
{}

/// Where the chain of that cartridge breaks, and for which reason.
pub fn the_definitions_tell_breaks()
    ensures text { (r : Found three) (e : IndexErr) → r.labels.ip ≡ label → Stops (text_of third_index) e
        → IsBrokenBehind three r [] 12 (Text e) }
    ensures volume { (r : Reads newest (record middle { uuid = 8; back = None }) oldest)
        → IsBrokenBehind three r.found (newest ∷ []) 9 Volume }
    ensures skips { (r : Reads (index 4 (on_b 12) (Some (on_b 5))) middle oldest)
        → IsBrokenBehind three r.found [] 12 Pointer }
    ensures mark { (r : Reads (index 4 (on_b 11) (Some (on_b 9))) middle oldest)
        → IsBrokenBehind three r.found [] 12 Pointer }
    ensures pointer_first { (r : Reads newest (index 5 (on_b 9) None) oldest)
        → IsBrokenBehind three r.found (newest ∷ []) 9 Pointer }
    ensures same { (r : Reads newest (index 4 (on_b 9) (Some (on_b 5))) oldest)
        → IsBrokenBehind three r.found (newest ∷ []) 9 Rises }
    ensures extent { (r : Reads newest crossed oldest) → IsBrokenBehind three r.found (newest ∷ []) 9 (Extent 3) }
    ensures not_so_far { (r : Reads newest (index 4 (on_b 9) (Some (on_b 5))) oldest)
        → IsWayTo three r.found 4 [] newest }
    ensures on_way { (r : Reads newest (index 4 (on_b 9) (Some (on_b 5))) oldest)
        → IsBrokenOnWay three r.found 1 9 Rises }
{}
