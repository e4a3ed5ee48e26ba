ghost use Rattle.std.specs.Prelude.{◌≡◌, ℕ, List, Some, Contains};
ghost use Rattle.std.specs.FinMap as fin;
ghost use Rattle.std.specs.List.Sorted.{IsPermutation};
ghost use Rattle.tape_types.specs.declared.node_keys.xattrs.Xattr.{Xattr};
ghost use Rattle.tape_types.specs.NodeKeys.Keys.{KeyMap, entries_of, map_of, list_of, IsAscending, AreKeysApart};

/// Of the lists that say a map, one ascends; where no key stands twice the order says nothing.
#[tactic(auto, using(crate::proofs::NodeKeys::Ordered::entries_are, crate::proofs::NodeKeys::Ordered::one_list, crate::proofs::NodeKeys::SortLemmas::same_map))]
pub fn lists_say_maps()
    ensures ascending { (xattrs : List Xattr) → IsAscending xattrs → fin.entries (map_of xattrs) ≡ entries_of xattrs }
    ensures one { (one other : List Xattr) → IsAscending one → IsAscending other
        → map_of one ≡ map_of other → one ≡ other }
    ensures any { (one other : List Xattr) → IsPermutation one other → AreKeysApart one
        → map_of one ≡ map_of other }
{}

/// A map says one list, which ascends and says this map; and what a list's map has is in the list.
#[tactic(auto, using(crate::proofs::NodeKeys::ListLaws::list_entries, crate::proofs::NodeKeys::ListLaws::list_ascends, crate::proofs::NodeKeys::ListLaws::list_apart, crate::proofs::NodeKeys::ListLaws::map_back, crate::proofs::NodeKeys::ListLaws::in_list))]
pub fn maps_say_lists()
    ensures entries { (keys : KeyMap) → entries_of (list_of keys) ≡ fin.entries keys }
    ensures ascends { (keys : KeyMap) → IsAscending (list_of keys) }
    ensures apart { (keys : KeyMap) → AreKeysApart (list_of keys) }
    ensures again { (keys : KeyMap) → map_of (list_of keys) ≡ keys }
    ensures told { (xattrs : List Xattr) (key value : List ℕ) → fin.get (map_of xattrs) key ≡ Some value
        → Contains xattrs (record { key = key; value = value }) }
{}
