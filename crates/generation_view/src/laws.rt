//! Laws of chains.

ghost use Rattle.std.specs.Prelude.{◌≡◌, ◌⊎◌, ℕ, ◌≤◌, ◌<◌, List, [], ◌∷◌, Option, Some, None, length};
ghost use Rattle.tape_types.specs.declared.cartridges.Cartridge.{Cartridge};
ghost use Rattle.plain_tree.specs.Tree.{Tree};
ghost use Rattle.index_model.specs.declared.indexes.Index.{Index};
ghost use Rattle.ltfs_label.specs.declared.Label.{Label};
ghost use Rattle.content_laws.specs.Readings.{Construct};
ghost use Rattle.cartridge_meaning.specs.Meaning.{Found, ip_end};
ghost use Rattle.cartridge_meaning.specs.Pointers.{IsOfVolume, PointsOnDp, indexes_of};
ghost use Rattle.generation_view.specs.Chain.{AreLinks, Breaks, GenTree, IsBrokenBehind, IsBrokenOnWay, IsChain};
ghost use Rattle.generation_view.specs.Chain.{IsLink, IsWayTo, LacksGeneration};
ghost use Rattle.generation_view.specs.declared.errors.BreakWhy.{BreakWhy};

/// An index is a link, in one way, or breaks the chain, for one reason.
pub fn indexes_link_or_break()
    ensures link { (label : Label) (c : Cartridge) (k : Construct) (older : List Construct) (after : Option ℕ)
        (i j : Index) → IsLink label c k older after i → IsLink label c k older after j → i ≡ j }
    ensures reason { (label : Label) (c : Cartridge) (k : Construct) (older : List Construct) (after : Option ℕ)
        (why other : BreakWhy) → Breaks label c k older after why → Breaks label c k older after other → why ≡ other }
    ensures never_both { (label : Label) (c : Cartridge) (k : Construct) (older : List Construct) (after : Option ℕ)
        (why : BreakWhy) (i : Index) → Breaks label c k older after why → IsLink label c k older after i → ⊥ }
    ensures one { (label : Label) (c : Cartridge) (k : Construct) (older : List Construct) (after : Option ℕ)
        → ((i : Index) × IsLink label c k older after i) ⊎ ((why : BreakWhy) × Breaks label c k older after why) }
{}

/// Each cartridge that mounts has one chain, which is whole or breaks at one index for one reason.
pub fn chains_end_in_one_way()
    ensures links { (label : Label) (c : Cartridge) (after : Option ℕ) (ks : List Construct) (one other : List Index)
        → AreLinks label c after ks one → AreLinks label c after ks other → length one ≡ length other → one ≡ other }
    ensures whole { (c : Cartridge) (found : Found c) (links others : List Index)
        → IsChain c found links → IsChain c found others → links ≡ others }
    ensures broken { (c : Cartridge) (found : Found c) (newer others : List Index) (block other : ℕ)
        (why reason : BreakWhy) → IsBrokenBehind c found newer block why → IsBrokenBehind c found others other reason
        → (newer ≡ others) × (block ≡ other) × (why ≡ reason) }
    ensures never_both { (c : Cartridge) (found : Found c) (links newer : List Index) (block : ℕ) (why : BreakWhy)
        → IsChain c found links → IsBrokenBehind c found newer block why → ⊥ }
    ensures one { (c : Cartridge) (found : Found c) → ((links : List Index) × IsChain c found links)
        ⊎ ((newer : List Index) × (block : ℕ) × (why : BreakWhy) × IsBrokenBehind c found newer block why) }
{}

/// A generation has one tree.
pub fn generations_have_one_tree()
    ensures way { (c : Cartridge) (found : Found c) (g : ℕ) (newer others : List Index) (i j : Index)
        → IsWayTo c found g newer i → IsWayTo c found g others j → i ≡ j }
    ensures tree { (c : Cartridge) (found : Found c) (g : ℕ) (tree other : Tree)
        → GenTree c found g tree → GenTree c found g other → tree ≡ other }
{}

/// Of each number the way leads to an index of that generation, or is sound and has none, or breaks; and one of these
/// alone.
pub fn each_generation_has_one_answer()
    ensures one { (c : Cartridge) (found : Found c) (g : ℕ)
        → ((newer : List Index) × (index : Index) × IsWayTo c found g newer index × (index.generation ≡ g))
        ⊎ (LacksGeneration c found g ⊎ ((block : ℕ) × (why : BreakWhy) × IsBrokenOnWay c found g block why)) }
    ensures has_or_lacks { (c : Cartridge) (found : Found c) (g : ℕ) (newer : List Index) (index : Index)
        → IsWayTo c found g newer index → index.generation ≡ g → LacksGeneration c found g → ⊥ }
    ensures way_or_broken { (c : Cartridge) (found : Found c) (g : ℕ) (newer : List Index) (index : Index) (block : ℕ)
        (why : BreakWhy) → IsWayTo c found g newer index → IsBrokenOnWay c found g block why → ⊥ }
    ensures lacks_or_broken { (c : Cartridge) (found : Found c) (g block : ℕ) (why : BreakWhy)
        → LacksGeneration c found g → IsBrokenOnWay c found g block why → ⊥ }
{}

/// Of a cartridge that mounts, the newest index of the data partition is of the volume, and its pointers are right: the
/// chain can break there by an extent alone.
pub fn chains_begin_as_mounts_do()
    ensures { (c : Cartridge) (found : Found c) (k : Construct) (older : List Construct)
        → indexes_of c.dp ≡ k ∷ older
        → (index : Index) × (found.on_dp ≡ Some index) × IsOfVolume found.labels.ip k index
        × PointsOnDp found.labels.ip k older index }
{}

/// Links stay links where the index partition's end moves on; and an index of a greater generation that is put behind
/// them, and is a link by itself, makes the chain longer by one.
pub fn chains_go_on()
    ensures stay { (label : Label) (c d : Cartridge) (after : Option ℕ) (ks : List Construct) (links : List Index)
        → ip_end c ≤ ip_end d → AreLinks label c after ks links → AreLinks label d after ks links }
    ensures one_more { (label : Label) (c : Cartridge) (k : Construct) (older : List Construct) (index last : Index)
        (links : List Index) → IsLink label c k older None index → last.generation < index.generation
        → AreLinks label c None older (last ∷ links) → AreLinks label c None (k ∷ older) (index ∷ last ∷ links) }
{}
