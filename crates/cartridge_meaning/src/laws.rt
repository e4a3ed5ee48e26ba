//! Laws of what a cartridge stands for.

ghost use Rattle.std.specs.Prelude.{◌≡◌, ◌≢◌, ◌⊎◌, ◌≤◌, ◌<◌, ◌+◌, ℕ, List, [], ◌∷◌, ◌++◌, Some, IfSome, length, take};
ghost use Rattle.std.specs.List.{AllByRecursion};
ghost use Rattle.tape_types.specs.declared.cartridges.Cartridge.{Cartridge};
ghost use Rattle.tape_types.specs.declared.cartridges.Note.TheVariants.{Absent};
ghost use Rattle.tape_types.specs.declared.cartridges.Part.{Part};
ghost use Rattle.tape_types.specs.declared.cartridges.Place.{Place};
ghost use Rattle.tape_types.specs.Cartridges.{items_of, note_of};
ghost use Rattle.coherency.specs.Notes.{HasValues};
ghost use Rattle.coherency.specs.declared.Coherency.{Coherency};
ghost use Rattle.plain_tree.specs.Tree.{Tree};
ghost use Rattle.index_model.specs.Grammar.{IndexText, Stops as StopsIndex};
ghost use Rattle.index_model.specs.declared.errors.IndexErr.{IndexErr};
ghost use Rattle.index_model.specs.Valid.{IsValid};
ghost use Rattle.index_model.specs.declared.indexes.Index.{Index};
ghost use Rattle.ltfs_label.specs.Grammar.{LabelText};
ghost use Rattle.ltfs_label.specs.Reading.{Stops as StopsLabel};
ghost use Rattle.ltfs_label.specs.Values.{LabelValue};
ghost use Rattle.ltfs_label.specs.declared.errors.LabelErr.{LabelErr};
ghost use Rattle.index_model.specs.declared.nodes.Node.{Node};
ghost use Rattle.ltfs_label.specs.declared.Label.{Label};
ghost use Rattle.content_laws.specs.Readings.{Construct, IsIndexAt};
ghost use Rattle.content_laws.specs.Ends.{EndsWithLast};
ghost use Rattle.cartridge_meaning.specs.Carried.{Carried};
ghost use Rattle.cartridge_meaning.specs.Faults.{MountFault};
ghost use Rattle.cartridge_meaning.specs.Kept.{Keeps};
ghost use Rattle.cartridge_meaning.specs.Labels.{HasLabels};
ghost use Rattle.cartridge_meaning.specs.Meaning.{FitsNode, Found, IsConsistent, IsTreeOf, Reads};
ghost use Rattle.cartridge_meaning.specs.Mounts.{IsDpDone, IsIpDone, Mounts, chosen_place};
ghost use Rattle.cartridge_meaning.specs.Notes.{AreNoted, HasHonestNotes, IsCoherent, IsHonest, IsHonestNote};
ghost use Rattle.cartridge_meaning.specs.Notes.{TellsOfLast};
ghost use Rattle.cartridge_meaning.specs.Pointers.{PointsBack, indexes_of, letter_of};
ghost use Rattle.cartridge_meaning.specs.declared.errors.MountErr.{MountErr};
ghost use Rattle.cartridge_meaning.specs.declared.labels.Labels.{Labels};
ghost use Rattle.cartridge_meaning.specs.declared.mounted.Mounted.{Mounted};

/// A cartridge is read in one way: it has one pair of labels, one last index of each partition, one that is chosen, and
/// it stands for one tree.
pub fn cartridges_read_in_one_way()
    ensures labels { (c : Cartridge) (a b : Found c) → a.labels ≡ b.labels }
    ensures on_dp { (c : Cartridge) (a b : Found c) → a.on_dp ≡ b.on_dp }
    ensures on_ip { (c : Cartridge) (a b : Found c) → a.on_ip ≡ b.on_ip }
    ensures index { (c : Cartridge) (a b : Found c) → a.index ≡ b.index }
    ensures facts { (c : Cartridge) (facts others : Carried) (tree other : Tree) (generation another : ℕ)
        → Reads c facts tree generation → Reads c others other another → facts ≡ others }
    ensures tree { (c : Cartridge) (facts others : Carried) (tree other : Tree) (generation another : ℕ)
        → Reads c facts tree generation → Reads c others other another → tree ≡ other }
    ensures generation { (c : Cartridge) (facts others : Carried) (tree other : Tree) (generation another : ℕ)
        → Reads c facts tree generation → Reads c others other another → generation ≡ another }
{}

/// A cartridge that doesn't mount is refused for one reason.
pub fn faults_are_told_in_one_way()
    ensures one_fault { (c : Cartridge) (e f : MountErr) → MountFault c e → MountFault c f → e ≡ f }
    ensures never_both { (c : Cartridge) (e : MountErr) → Found c → MountFault c e → ⊥ }
{}

/// What a cartridge stands for goes by its labels, its indexes, and what stands below its ends. So a cartridge that
/// keeps these reads alike, whatever else it has; and each piece of that by itself.
pub fn cartridges_alike_read_alike()
    ensures reads { (c d : Cartridge) (facts : Carried) (tree : Tree) (generation : ℕ)
        → Keeps c d → Reads c facts tree generation → Reads d facts tree generation }
    ensures labels { (c d : Cartridge) (labels : Labels)
        → take 4 c.ip ≡ take 4 d.ip → take 4 c.dp ≡ take 4 d.dp → HasLabels c labels → HasLabels d labels }
    ensures trees { (label : Label) (ip dp : ℕ) → label.index ≢ label.dpart
        → (c d : Cartridge) (index : Index) (tree : Tree)
        → AllByRecursion (FitsNode label ip dp) index.nodes → take ip c.ip ≡ take ip d.ip → take dp c.dp ≡ take dp d.dp
        → IsTreeOf label c index tree → IsTreeOf label d index tree }
    ensures extents { (label : Label) (ip dp further_ip further_dp : ℕ) → ip ≤ further_ip → dp ≤ further_dp
        → (nodes : List Node)
        → AllByRecursion (FitsNode label ip dp) nodes → AllByRecursion (FitsNode label further_ip further_dp) nodes }
    ensures pointers { (label : Label) (index old new : Index) (more dps : List Construct)
        → dps ≢ [] → index.generation < new.generation
        → PointsBack label index dps (Some old) → PointsBack label index (more ++ dps) (Some new) }
{}

/// The newest index is chosen, on a tie that of the data partition, and it points to the place where it stands.
pub fn the_newest_index_is_chosen()
    ensures on_ip { (c : Cartridge) (f : Found c) → IfSome f.on_ip (λ index. index.generation ≤ f.index.generation) }
    ensures on_dp { (c : Cartridge) (f : Found c) → IfSome f.on_dp (λ index. index.generation ≤ f.index.generation) }
    ensures tie { (c : Cartridge) (f : Found c) (index : Index)
        → f.on_dp ≡ Some index → index.generation ≡ f.index.generation → f.index ≡ index }
    ensures place { (c : Cartridge) (f : Found c) (place : Place) → chosen_place f.on_ip f.on_dp c ≡ Some place
        → f.index.here ≡ record { letter = letter_of f.labels.ip place.part; block = place.pos } }
{}

/// Notes tell of one index of each partition. One that is ahead of its cartridge isn't honest, and notes that are
/// honest and coherent tell of the last indexes.
pub fn notes_tell_of_the_last_indexes()
    ensures generation { (c : Cartridge) (label : Label) (part : Part) (note other : Coherency)
        → TellsOfLast c label part note → TellsOfLast c label part other → note.generation ≡ other.generation }
    ensures block { (c : Cartridge) (label : Label) (part : Part) (note other : Coherency)
        → TellsOfLast c label part note → TellsOfLast c label part other → note.block ≡ other.block }
    ensures ahead { (c : Cartridge) (label : Label) (part : Part) (note : Coherency)
        → HasValues (note_of part c) note → note.uuid ≡ label.uuid → c.vcr < note.vcr → ¬ IsHonestNote c label part }
    ensures honest { (c : Cartridge) (labels : Labels)
        → HasLabels c labels → IsHonest c → IsCoherent c → AreNoted c labels.ip }
    ensures coherent { (c : Cartridge) (labels : Labels) → HasLabels c labels → AreNoted c labels.ip → IsCoherent c }
{}

/// With an honest note of the cartridge's volume change reference the last index of its partition stands behind the
/// mark in front of the place that the note names. So where a mark, blocks, a mark and the end stand there, the
/// partition ends with its last index, which has just these blocks; and where it ends with that, these stand there.
pub fn notes_tell_how_partitions_end()
    ensures stands { (c : Cartridge) (label : Label) (part : Part) (note : Coherency) → IsHonestNote c label part
        → HasValues (note_of part c) note → note.uuid ≡ label.uuid → note.vcr ≡ c.vcr
        → (k : Construct) × (older : List Construct) × (indexes_of (items_of part c) ≡ k ∷ older)
        × (k.mark + 1 ≡ note.block) × IsIndexAt (items_of part c) k.mark k.blocks }
    ensures ends { (c : Cartridge) (label : Label) (part : Part) (note : Coherency) → IsHonestNote c label part
        → HasValues (note_of part c) note → note.uuid ≡ label.uuid → note.vcr ≡ c.vcr
        → (mark : ℕ) (blocks : List (List ℕ)) → mark + 1 ≡ note.block → IsIndexAt (items_of part c) mark blocks
        → length (items_of part c) ≡ mark + length blocks + 2
        → EndsWithLast (items_of part c) (indexes_of (items_of part c))
        × ((k : Construct) (older : List Construct) → indexes_of (items_of part c) ≡ k ∷ older → k.blocks ≡ blocks) }
    ensures only { (c : Cartridge) (label : Label) (part : Part) (note : Coherency) → IsHonestNote c label part
        → HasValues (note_of part c) note → note.uuid ≡ label.uuid → note.vcr ≡ c.vcr
        → EndsWithLast (items_of part c) (indexes_of (items_of part c))
        → (mark : ℕ) × (blocks : List (List ℕ)) × (mark + 1 ≡ note.block) × IsIndexAt (items_of part c) mark blocks
        × (length (items_of part c) ≡ mark + length blocks + 2) }
{}

/// An honest cartridge has honest notes, and a cartridge with labels and honest notes is honest. Notes are honest where
/// they are absent, and where there are no labels.
pub fn honest_cartridges_have_honest_notes()
    ensures honest { (c : Cartridge) → IsHonest c → HasHonestNotes c }
    ensures labelled { (c : Cartridge) (labels : Labels) → HasLabels c labels → HasHonestNotes c → IsHonest c }
    ensures absent { (c : Cartridge) → c.note_ip ≡ Absent → c.note_dp ≡ Absent → HasHonestNotes c }
    ensures unlabelled { (c : Cartridge) → ((labels : Labels) → ¬ HasLabels c labels) → HasHonestNotes c }
{}

/// Each text is that of an index or stops, and that of a label or stops.
pub fn texts_are_read_or_stop()
    ensures index { (text : List ℕ) → ((index : Index) × IndexText text index) ⊎ ((e : IndexErr) × StopsIndex text e) }
    ensures label { (text : List ℕ) → ((label : LabelValue) × LabelText text label)
        ⊎ ((e : LabelErr) × StopsLabel text e) }
{}

/// Each cartridge is read, or refused: one of the checks of a mount fails, or none does.
pub fn each_cartridge_reads_or_is_refused()
    ensures { (c : Cartridge) → Found c ⊎ ((e : MountErr) × MountFault c e) }
{}

/// A mount has one outcome, with the label of the index partition.
pub fn cartridges_mount_in_one_way()
    ensures one { (c : Cartridge) (m n : Mounted) → Mounts c m → Mounts c n → m ≡ n }
    ensures label { (c : Cartridge) (m : Mounted) → Mounts c m → m.label.location ≡ m.label.index }
{}

/// The chosen index is a valid one of the volume, and where a close has nothing left to do the cartridge is consistent.
pub fn what_is_found_is_right()
    ensures valid { (c : Cartridge) (f : Found c) → IsValid f.index }
    ensures uuid { (c : Cartridge) (f : Found c) → f.index.uuid ≡ f.labels.ip.uuid }
    ensures done { (c : Cartridge) (f : Found c) → IsDpDone c f → IsIpDone c f → IsConsistent c }
{}
