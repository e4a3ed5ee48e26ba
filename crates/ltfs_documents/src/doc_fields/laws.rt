//! What is written is read again.

ghost use Rattle.std.specs.Prelude.{◌≡◌, ◌≤◌, ◌<◌, ◌+◌, ◌^◌, ◌++◌, ◌∷◌, ◌↔◌, [], ℕ, List, Bool, length, drop, true};
ghost use Rattle.std.specs.Prelude.{false, Ok, Some};
ghost use Rattle.ltfs_documents.specs.declared.doc_fields.starts.Attribute.{Attribute};
ghost use Rattle.ltfs_documents.specs.declared.doc_fields.tags.Tag.{Tag};
ghost use Rattle.ltfs_documents.specs.declared.doc_fields.values.LockState.{LockState};
ghost use Rattle.ltfs_documents.specs.DocFields.EndTag.{end_at};
ghost use Rattle.ltfs_documents.specs.DocFields.Numbers.{is_digit, number_at};
ghost use Rattle.ltfs_documents.specs.DocFields.Reading.{ReadsBack};
ghost use Rattle.ltfs_documents.specs.DocFields.Spelled.{BeginsWithReference, IsReference, IsVersion};
ghost use Rattle.ltfs_documents.specs.DocFields.StartTag.{is_version, start_at};
ghost use Rattle.ltfs_documents.specs.DocFields.Texts.{IsWritable, reference, text_at};
ghost use Rattle.ltfs_documents.specs.DocFields.Values.{bool_at, letter_at, lock_at, lock_word, time_at, uuid_at};
ghost use Rattle.ltfs_documents.specs.DocFields.Written.{bool_text, end_text, escape, may_have, start_text};
ghost use Rattle.std.specs.Fmt.{decimal};
ghost use Rattle.tape_types.specs.Times.{civil_of, time_text};
ghost use Rattle.tape_types.specs.Uuids.{uuid_text};
ghost use Rattle.tape_types.specs.declared.moments.Moment.{Moment};

/// A tag that is written is read again wherever it stands, and the place behind it is given. A
/// start tag may have the attribute with which its element is written.
pub fn tags_read_back()
    ensures starts { (text rest : List ℕ) (at : ℕ) (tag : Tag) (a : Attribute) → may_have tag a ≡ true →
        drop at text ≡ start_text tag a ++ rest →
        start_at text at
        ≡ Ok (record { tag = tag; attribute = a; empty = false; next = at + length (start_text tag a) }) }
    ensures ends { (text rest : List ℕ) (at : ℕ) (tag : Tag) → drop at text ≡ end_text tag ++ rest →
        end_at text at tag ≡ Ok (at + length (end_text tag)) }
{}

/// A value that is written is read again wherever it stands, and the place behind it is given.
/// Behind a number no digit may stand.
pub fn values_read_back()
    ensures numbers { (text rest : List ℕ) (at n c : ℕ) → n < 2 ^ 64 → is_digit c ≡ false →
        drop at text ≡ decimal n ++ c ∷ rest → number_at text at ≡ Ok (n, at + length (decimal n)) }
    ensures truths { (is : Bool) → ReadsBack bool_at (bool_text is) is }
    ensures letters { (b : ℕ) → 97 ≤ b → b ≤ 122 → ReadsBack letter_at (b ∷ []) b }
    ensures locks { (state : LockState) → ReadsBack lock_at (lock_word state) state }
    ensures times { (text rest : List ℕ) (at : ℕ) (m : Moment) → drop at text ≡ time_text m ++ rest →
        time_at text at ≡ Ok (civil_of m, at + 30) }
    ensures uuids { (text rest : List ℕ) (at uuid : ℕ) → uuid < 2 ^ 128 → drop at text ≡ uuid_text uuid ++ rest →
        uuid_at text at ≡ Ok (uuid, at + 36) }
{}

/// A text of characters that a document may have is read again where it stands in front of a
/// `<`, and the place of that is given.
pub fn texts_read_back()
    ensures { (text rest words : List ℕ) (at : ℕ) → IsWritable words → drop at text ≡ escape words ++ 60 ∷ rest →
        text_at text at ≡ Ok (words, at + length (escape words)) }
{}

/// A version is read where it is spelled `2.`, a digit up to 4, a point, and one to three digits.
pub fn versions_are_spelled()
    ensures { (v : List ℕ) → (is_version v ≡ true) ↔ IsVersion v }
{}

/// A reference is read where one is spelled, and nowhere else.
pub fn references_are_spelled()
    ensures read { (word rest : List ℕ) (c : ℕ) → IsReference word c →
        reference (word ++ rest) ≡ Some (c, length word) }
    ensures only { (bytes : List ℕ) (c taken : ℕ) → reference bytes ≡ Some (c, taken) →
        BeginsWithReference bytes c taken }
{}
