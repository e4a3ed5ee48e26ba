//! What the gates of the two slots do, and that a header has one value at most.
ghost use Rattle.std.specs.Prelude.{ℕ, ◌≡◌, ◌⊎◌, List, ◌∷◌, ◌++◌, length, Some};
ghost use Rattle.byte_disk.specs.Files.{Files};
ghost use Rattle.image_slots.specs.Sides.{chosen};
ghost use Rattle.image_slots.specs.Slots.{HasValue, IsOpen, Stores};
ghost use Rattle.image_slots.specs.State.{KnownAreLeft};

use byte_disk::ByteDisk;

/// A header has a value exactly where one is chosen, and that one alone. A disk has one value at most.
pub fn values_are_chosen()
    ensures found { (cm v : List ℕ) → chosen cm ≡ Some v → HasValue cm v }
    ensures only { (cm v : List ℕ) → HasValue cm v → chosen cm ≡ Some v }
    ensures one { (cm v w : List ℕ) → HasValue cm v → HasValue cm w → v ≡ w }
    ensures one_stored { (d : Files) (v w : List ℕ) → Stores d v → Stores d w → v ≡ w }
{}

/// What stands in a slot whose gate is closed says nothing: its value can be written.
pub fn closed_slots_say_nothing()
    ensures second { (a b c : List ℕ) → length a ≡ 256 → length b ≡ 256 → length c ≡ 256
        → ¬ (IsOpen b) → ¬ (IsOpen c) → chosen (a ++ b) ≡ chosen (a ++ c) }
    ensures first { (a b c : List ℕ) → length a ≡ 256 → length b ≡ 256 → length c ≡ 256
        → ¬ (IsOpen b) → ¬ (IsOpen c) → chosen (b ++ a) ≡ chosen (c ++ a) }
{}

/// Over a value that stands, a gate of any byte is as good as one of 00h, which is the header before, or of 01h, which
/// is the header after.
pub fn a_gate_is_before_or_after()
    ensures second { (a value : List ℕ) (gate : ℕ) → length a ≡ 256 → length value ≡ 255
        → (chosen (a ++ gate ∷ value) ≡ chosen (a ++ 0 ∷ value))
        ⊎ (chosen (a ++ gate ∷ value) ≡ chosen (a ++ 1 ∷ value)) }
    ensures first { (a value : List ℕ) (gate : ℕ) → length a ≡ 256 → length value ≡ 255
        → (chosen ((gate ∷ value) ++ a) ≡ chosen ((0 ∷ value) ++ a))
        ⊎ (chosen ((gate ∷ value) ++ a) ≡ chosen ((1 ∷ value) ++ a)) }
{}

/// Over any disk that tells what it holds: a value that is known is the one that reads, and the one that every crash
/// leaves.
pub fn known_values_are_left<B: ByteDisk>()
    ensures { KnownAreLeft B.ByteDisk }
{}
