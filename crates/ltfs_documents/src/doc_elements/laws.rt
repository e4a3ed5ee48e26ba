//! Laws of documents: each text is one, or stops, and in one way; what is written of an attribute is read again.

ghost use Rattle.std.specs.Prelude.{◌≡◌, ◌≤◌, ◌⊎◌, ◌+◌, ◌∷◌, ◌++◌, ℕ, List, IsUtf8, Ok, Some, drop, length, true};
ghost use Rattle.std.specs.List.{AllByRecursion};
ghost use Rattle.base64.specs.Engines.{standard};
ghost use Rattle.base64.specs.GeneralPurpose.{IsBytes, encode_of};
ghost use Rattle.tape_types.specs.NodeKeys.Keys.{is_key};
ghost use Rattle.ltfs_documents.specs.declared.doc_fields.starts.Start.{Start};
ghost use Rattle.ltfs_documents.specs.DocFields.Written.{escape};
ghost use Rattle.ltfs_documents.specs.LtfsText.Names.{written};
ghost use Rattle.ltfs_documents.specs.declared.doc_elements.errors.PieceErr.{PieceErr};
ghost use Rattle.ltfs_documents.specs.declared.doc_elements.schema.Form.TheVariants as form;
ghost use Rattle.ltfs_documents.specs.declared.doc_elements.schema.Container.{Container as ThePlace};
ghost use Rattle.ltfs_documents.specs.DocElements.Documents.{Accepts, IsAccepted, IsStopped, StopsAt};
ghost use Rattle.ltfs_documents.specs.DocElements.Elements.{IsMade, IsTimedPiece};
ghost use Rattle.ltfs_documents.specs.DocElements.Pieces.{Piece as ThePiece, bytes, from_base64, value_in};
ghost use Rattle.ltfs_documents.specs.DocElements.Pieces.{without_space, words};
ghost use Rattle.ltfs_documents.specs.DocElements.Written.{bytes_text, bytes_type, encoding};

/// A text is a whole document of a root or stops, never both, and each in one way.
pub fn texts_are_read_in_one_way()
    ensures some { (doc : ThePlace) (text : List ℕ) → IsAccepted doc text ⊎ IsStopped doc text }
    ensures never_both { (doc : ThePlace) (text : List ℕ) (ps : List ThePiece) (e : PieceErr) → IsUtf8 text →
        Accepts doc text ps → StopsAt doc text e → ⊥ }
    ensures one_document { (doc : ThePlace) (text : List ℕ) (ps qs : List ThePiece) → Accepts doc text ps →
        Accepts doc text qs → ps ≡ qs }
    ensures one_refusal { (doc : ThePlace) (text : List ℕ) (e f : PieceErr) → StopsAt doc text e →
        StopsAt doc text f → e ≡ f }
{}

/// What is read piece by piece is what elements inside one another spell.
pub fn pieces_are_elements()
    ensures made { (doc : ThePlace) (text : List ℕ) (ps : List ThePiece) → IsUtf8 text → Accepts doc text ps →
        IsMade doc text ps }
    ensures only { (doc : ThePlace) (text : List ℕ) (ps : List ThePiece) → IsMade doc text ps → Accepts doc text ps }
    ensures timed { (doc : ThePlace) (text : List ℕ) (ps : List ThePiece) → Accepts doc text ps →
        AllByRecursion IsTimedPiece ps }
{}

/// The key and the bytes of an extended attribute that are written are read again behind the start tag that is written
/// with them. A text in base64 that is read is, but for its white space, the one text of its bytes.
pub fn attributes_read_back()
    ensures keys { (key text rest : List ℕ) (from : ℕ) (start : Start) → IsUtf8 key → is_key key ≡ true →
        start.attribute ≡ encoding (written key) → drop start.next text ≡ escape (written key).text ++ 60 ∷ rest →
        value_in form.Key from start text ≡ Ok (words key, start.next + length (escape (written key).text)) }
    ensures values { (bs text rest : List ℕ) (from : ℕ) (start : Start) → IsBytes bs →
        start.attribute ≡ bytes_type bs → drop start.next text ≡ bytes_text bs ++ 60 ∷ rest →
        value_in form.Value from start text ≡ Ok (bytes bs, start.next + length (bytes_text bs)) }
    ensures one_text { (text bs : List ℕ) → IsBytes text → from_base64 text ≡ Some bs →
        without_space text ≡ encode_of standard bs }
{}
