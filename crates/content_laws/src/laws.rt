//! Laws of the content of a partition.

ghost use Rattle.std.specs.Prelude.{◌≡◌, ◌≢◌, ◌⊎◌, ◌+◌, ◌≤◌, ℕ, List, [], ◌∷◌, ◌++◌, length, map, take};
ghost use Rattle.tape_types.specs.declared.cartridges.Item.{Item};
ghost use Rattle.tape_types.specs.declared.cartridges.Item.TheVariants.{Block, Mark, Torn};
ghost use Rattle.content_laws.specs.Readings.{Construct, HasForm, IsIndexAt, LacksForm, after_of, front};
ghost use Rattle.content_laws.specs.Content.{Bad, Data, content, content_of};
ghost use Rattle.content_laws.specs.Ends.{EndsWith, end_dp, end_ip, kept_on_ip};

/// Each partition has the form in one way, or lacks it at one place, and never both.
pub fn partitions_are_read_in_one_way()
    ensures one_form { (items : List Item) (r s : HasForm items)
        → (r.groups ≡ s.groups) × (r.lead ≡ s.lead) × (r.begun ≡ s.begun) }
    ensures one_place { (items : List Item) (at other : ℕ) → LacksForm items at → LacksForm items other → at ≡ other }
    ensures never_both { (items : List Item) (at : ℕ) → HasForm items → LacksForm items at → ⊥ }
    ensures either { (items : List Item) → HasForm items ⊎ ((at : ℕ) × LacksForm items at) }
{}

/// What is read item by item is that form, or stops at that place.
pub fn what_is_read_is_the_form()
    ensures form { (items : List Item) (r : HasForm items) → content items ≡ content_of r.groups r.lead r.begun }
    ensures stops { (items : List Item) (at : ℕ) → LacksForm items at → (content items).phase ≡ Bad at }
{}

/// An index is there as long as nothing up to its end is overwritten.
pub fn indexes_stay()
    ensures torn { (items : List Item) → content (items ++ Torn ∷ []) ≡ content items }
    ensures cut { (items : List Item) (at : ℕ) → end_dp (content items).constructs ≤ at
        → (content (take at items)).constructs ≡ (content items).constructs }
    ensures agreed { (items others : List Item) (k : Construct) (newer older : List Construct) (at : ℕ)
        → (content items).constructs ≡ newer ++ k ∷ older → after_of k ≤ at → take at items ≡ take at others
        → (more : List Construct) × ((content others).constructs ≡ more ++ k ∷ older) }
    ensures replaced { (items : List Item) → ((at : ℕ) → (content items).phase ≢ Bad at)
        → (since : ℕ) × (content (take (end_ip (content items)) items) ≡ record {
          pos = end_ip (content items);
          phase = Data since;
          constructs = kept_on_ip (content items);
        }) }
{}

/// What is appended behind data.
pub fn content_grows()
    ensures blocks { (items : List Item) (blocks : List (List ℕ)) (since : ℕ) → front items ≡ items → 4 ≤ length items
        → (content items).phase ≡ Data since
        → content (items ++ map Block blocks) ≡ record {
          pos = length items + length blocks;
          phase = Data (since + length blocks);
          constructs = (content items).constructs;
        } }
    ensures index { (items : List Item) (blocks : List (List ℕ)) (since : ℕ) → front items ≡ items → 4 ≤ length items
        → (content items).phase ≡ Data since → blocks ≢ []
        → content (items ++ (Mark ∷ (map Block blocks ++ Mark ∷ []))) ≡ record {
          pos = length items + length blocks + 2;
          phase = Data 0;
          constructs = record { mark = length items; blocks = blocks } ∷ (content items).constructs;
        } }
{}

/// The next item of a partition goes behind its labels, and within its front or directly behind it.
pub fn ends_are_within()
    ensures dp { (items : List Item) → 4 ≤ length (front items)
        → (4 ≤ end_dp (content items).constructs) × (end_dp (content items).constructs ≤ length (front items)) }
    ensures ip { (items : List Item) → 4 ≤ length (front items)
        → (4 ≤ end_ip (content items)) × (end_ip (content items) ≤ length (front items)) }
{}

/// Each index of a partition stands there between its marks, and where one stands it has these blocks alone. Of a
/// partition that ends with its last index no item is torn.
pub fn partitions_end_with_their_last_index()
    ensures stands { (items : List Item) (newer : List Construct) (k : Construct) (older : List Construct)
        → HasForm items → (content items).constructs ≡ newer ++ k ∷ older → IsIndexAt items k.mark k.blocks }
    ensures one { (items : List Item) (mark : ℕ) (blocks others : List (List ℕ)) → IsIndexAt items mark blocks
        → IsIndexAt items mark others → blocks ≡ others }
    ensures whole { (items : List Item) (k : Construct) (older : List Construct) → 4 ≤ length (front items)
        → (content items).constructs ≡ k ∷ older → EndsWith items k → front items ≡ items }
{}
