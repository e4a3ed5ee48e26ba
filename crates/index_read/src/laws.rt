//! Laws of documents: they are read in one way, as valid indexes, and what is written is read back.

ghost use Rattle.std.specs.Prelude.{◌≡◌, ◌<◌, ◌^◌, ℕ, List, length};
ghost use Rattle.index_model.specs.declared.errors.IndexErr.{IndexErr};
ghost use Rattle.index_model.specs.declared.indexes.Index.{Index};
ghost use Rattle.index_model.specs.Canonical.{canonical};
ghost use Rattle.index_model.specs.Grammar.{IndexText, Stops};
ghost use Rattle.index_model.specs.Valid.{IsValid};
ghost use Rattle.index_model.specs.Values.{IndexValue, Tells};
ghost use Rattle.index_read.specs.Links.{AreLinksShort};

/// A text is that of one index at most, it stops at one place at most and for one reason, and
/// none does both.
pub fn texts_are_read_in_one_way()
    ensures one_index { (text : List ℕ) (a b : Index) → IndexText text a → IndexText text b → a ≡ b }
    ensures never_both { (text : List ℕ) (index : Index) (e : IndexErr) → IndexText text index → Stops text e → ⊥ }
    ensures one_refusal { (text : List ℕ) (e f : IndexErr) → Stops text e → Stops text f → e ≡ f }
{}

/// The document that is written of a valid index is that index's (LTFS 2.4 on the index), where
/// it has fewer than 2^64 bytes, as each in memory has; and also where the text of each link has.
pub fn documents_read_back()
    ensures in_memory { (index : Index) (v : IndexValue) → IsValid index → Tells index v →
        length (canonical v) < 2 ^ 64 → IndexText (canonical v) index }
    ensures short_links { (index : Index) (v : IndexValue) → IsValid index → Tells index v →
        AreLinksShort index.nodes → IndexText (canonical v) index }
{}

/// A text that is an index's is a valid index's.
pub fn indexes_read_are_valid()
    ensures { (text : List ℕ) (index : Index) → IndexText text index → IsValid index }
{}
