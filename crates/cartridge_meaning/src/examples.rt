//! Indexes and extents by hand, on which the definitions are tried.

ghost use Rattle.std.specs.Prelude.{◌≡◌, ℕ, List, [], ◌∷◌, true, Option, Some, None};
ghost use Rattle.tape_types.specs.declared.cartridges.Cartridge.{Cartridge};
ghost use Rattle.tape_types.specs.declared.cartridges.Note.{Note};
ghost use Rattle.tape_types.specs.declared.cartridges.Item.TheVariants.{Block, Mark, Torn};
ghost use Rattle.cartridge_meaning.specs.Labels.{AreOfOneVolume, HasSomeLabel, HasSomeRecord};
ghost use Rattle.tape_types.specs.declared.cartridges.Part.TheVariants.{Ip, Dp};
ghost use Rattle.index_model.specs.declared.indexes.Spot.{Spot};
ghost use Rattle.index_model.specs.declared.nodes.NodeKind.TheVariants.{File};
ghost use Rattle.cartridge_meaning.specs.Meaning.{Fits, FitsKind, dp_end, ip_end};
ghost use Rattle.cartridge_meaning.specs.Mounts.{chosen_place, last_place};
ghost use Rattle.cartridge_meaning.specs.Notes.{HasHonestNotes};
ghost use Rattle.cartridge_meaning.specs.Pointers.{PointsBack, PointsOnDp, PointsOnIp, chosen, last_block, newest_spot};
ghost use Rattle.content_laws.specs.Worked.{first_index, second_index};
ghost use Rattle.cartridge_meaning.specs.Worked.{cartridge, extent, in_data, in_index, index, label, last, on_a, on_b};
ghost use Rattle.cartridge_meaning.specs.Worked.{IsClosed, note, third_index, two};

/// Which index is chosen, and where it stands: that of the greater generation, and on a tie the data partition's. Where
/// the partitions end.
pub fn the_definitions_tell_the_choice()
    ensures tie { chosen (Some (index 2 (on_a 5) None)) (Some last) ≡ Some last }
    ensures newer_ip { chosen (Some (index 3 (on_a 5) None)) (Some last) ≡ Some (index 3 (on_a 5) None) }
    ensures newer_dp { chosen (Some (index 1 (on_a 5) None)) (Some last) ≡ Some last }
    ensures no_ip { chosen None (Some last) ≡ Some last }
    ensures no_dp { chosen (Some (index 2 (on_a 5) None)) None ≡ Some (index 2 (on_a 5) None) }
    ensures tie_place { chosen_place (Some (index 2 (on_a 5) None)) (Some last) cartridge
        ≡ Some (record { part = Dp; pos = 9 }) }
    ensures newer_ip_place { chosen_place (Some (index 3 (on_a 5) None)) (Some last) cartridge
        ≡ Some (record { part = Ip; pos = 5 }) }
    ensures no_ip_place { chosen_place None (Some last) cartridge ≡ Some (record { part = Dp; pos = 9 }) }
    ensures no_dp_place { chosen_place (Some (index 2 (on_a 5) None)) None cartridge
        ≡ Some (record { part = Ip; pos = 5 }) }
    ensures ip_end { ip_end cartridge ≡ 4 }
    ensures dp_end { dp_end cartridge ≡ 11 }
{}

/// Where an index points to.
pub fn the_definitions_tell_pointers()
    ensures last { last_block two ≡ Some 9 }
    ensures newest { newest_spot label two ≡ Some (on_b 9) }
    ensures dp { PointsOnDp label second_index (first_index ∷ []) (index 2 (on_b 9) (Some (on_b 5))) }
    ensures dp_first { PointsOnDp label first_index [] (index 1 (on_b 5) None) }
    ensures dp_elsewhere { ¬ PointsOnDp label second_index (first_index ∷ []) (index 2 (on_b 8) (Some (on_b 5))) }
    ensures dp_on_ip { ¬ PointsOnDp label second_index (first_index ∷ []) (index 2 (on_a 9) (Some (on_b 5))) }
    ensures dp_skips { ¬ PointsOnDp label third_index two (index 3 (on_b 12) (Some (on_b 5))) }
    ensures dp_none { ¬ PointsOnDp label second_index (first_index ∷ []) (index 2 (on_b 9) None) }
    ensures ip { PointsOnIp label first_index two (Some last) (index 2 (on_a 5) (Some (on_b 9))) }
    ensures ip_on_dp { ¬ PointsOnIp label first_index two (Some last) (index 2 (on_b 5) (Some (on_b 9))) }
{}

/// Where an index of the index partition points back to, by its generation.
pub fn the_definitions_tell_back_pointers()
    ensures equal { PointsBack label (index 2 (on_a 5) (Some (on_b 9))) two (Some last) }
    ensures equal_older { ¬ PointsBack label (index 2 (on_a 5) (Some (on_b 5))) two (Some last) }
    ensures newer { PointsBack label (index 3 (on_a 5) (Some (on_b 9))) two (Some last) }
    ensures newer_older { ¬ PointsBack label (index 3 (on_a 5) (Some (on_b 5))) two (Some last) }
    ensures older { PointsBack label (index 1 (on_a 5) (Some (on_b 5))) two (Some last) }
    ensures older_last { PointsBack label (index 1 (on_a 5) (Some (on_b 9))) two (Some last) }
    ensures older_mark { ¬ PointsBack label (index 1 (on_a 5) (Some (on_b 8))) two (Some last) }
    ensures older_on_ip { ¬ PointsBack label (index 1 (on_a 5) (Some (on_a 5))) two (Some last) }
    ensures older_none { ¬ PointsBack label (index 1 (on_a 5) None) two (Some last) }
    ensures no_dp { PointsBack label (index 1 (on_a 5) None) [] None }
    ensures no_dp_back { ¬ PointsBack label (index 1 (on_a 5) (Some (on_b 5))) [] None }
{}

/// Which extents lie before the ends, 8 of the index partition and 11 of the data partition.
pub fn the_definitions_tell_extents()
    ensures to_the_end { Fits label 8 11 (extent 98 9 0 8192) }
    ensures past_the_end { ¬ Fits label 8 11 (extent 98 9 0 8193) }
    ensures begun_later { ¬ Fits label 8 11 (extent 98 9 1 8192) }
    ensures to_its_own_end { Fits label 8 11 (extent 97 7 0 4096) }
    ensures to_the_other_end { ¬ Fits label 8 11 (extent 97 9 0 8192) }
    ensures behind_labels { Fits label 8 11 (extent 98 4 0 1) }
    ensures in_labels { ¬ Fits label 8 11 (extent 98 3 0 1) }
    ensures past_a_block { ¬ Fits label 8 11 (extent 98 4 4096 1) }
    ensures other_letter { ¬ Fits label 8 11 (extent 99 4 0 1) }
    ensures no_bytes { FitsKind label 8 11 (File 0 (extent 99 3 4096 0 ∷ [])) }
    ensures some_byte { ¬ FitsKind label 8 11 (File 0 (extent 99 3 4096 1 ∷ [])) }
{}

/// Which labels are of one volume: those that differ in their location alone.
pub fn the_definitions_tell_labels()
    ensures both { AreOfOneVolume in_index in_data }
    ensures both_in_index { ¬ AreOfOneVolume in_index in_index }
    ensures turned { ¬ AreOfOneVolume in_data in_index }
    ensures one_letter { ¬ AreOfOneVolume (record in_index { dpart = 97 }) (record in_index { dpart = 97 }) }
    ensures other_uuid { ¬ AreOfOneVolume in_index (record in_data { uuid = 8 }) }
    ensures other_blocks { ¬ AreOfOneVolume in_index (record in_data { block = 8192 }) }
    ensures other_index { ¬ AreOfOneVolume in_index (record in_data { index = 99 }) }
    ensures other_data { ¬ AreOfOneVolume in_index (record in_data { dpart = 99; location = 99 }) }
    ensures other_compression { ¬ AreOfOneVolume in_index (record in_data { compression = true }) }
    ensures other_creator { ¬ AreOfOneVolume in_index (record in_data { creator = 65 ∷ [] }) }
    ensures no_mark { (bytes text : List ℕ) → ¬ HasSomeLabel (Block bytes ∷ Mark ∷ Block text ∷ Block text ∷ []) }
    ensures no_label { (bytes : List ℕ) → ¬ HasSomeLabel (Block bytes ∷ Mark ∷ Mark ∷ Mark ∷ []) }
    ensures no_first_mark { (bytes : List ℕ) → ¬ HasSomeRecord (Block bytes ∷ Torn ∷ []) }
{}

/// Which notes are honest: those that name the last index of their partition, its generation and its place; of a volume
/// change reference that has passed, or of another volume, whatever else they say; and of a cartridge without labels
/// any. The last index of the data partition points back rightly.
pub fn the_definitions_tell_honest_notes()
    ensures right { (c : Cartridge) → IsClosed c None (note 3 2 5 7) → HasHonestNotes c }
    ensures behind { (c : Cartridge) (back : Option Spot) → IsClosed c back (note 2 1 9 7) → HasHonestNotes c }
    ensures other_volume { (c : Cartridge) (back : Option Spot) → IsClosed c back (note 4 1 9 8) → HasHonestNotes c }
    ensures ahead { (c : Cartridge) → IsClosed c None (note 4 2 5 7) → ¬ HasHonestNotes c }
    ensures other_block { (c : Cartridge) → IsClosed c None (note 3 2 6 7) → ¬ HasHonestNotes c }
    ensures other_generation { (c : Cartridge) → IsClosed c None (note 3 1 5 7) → ¬ HasHonestNotes c }
    ensures wrong_back { (c : Cartridge) → IsClosed c (Some (on_b 4)) (note 3 2 5 7) → ¬ HasHonestNotes c }
    ensures blank { (vcr : ℕ) (ip dp : Note)
        → HasHonestNotes (record { ip = []; dp = []; vcr = vcr; note_ip = ip; note_dp = dp }) }
{}
