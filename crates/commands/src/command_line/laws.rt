//! Laws of the forms of words.

ghost use Rattle.std.specs.Prelude.{◌≡◌, ℕ, true, false, List, [], ◌∷◌, ◌++◌, codes, None, Some, map, String};
ghost use Rattle.std.specs.Prelude.{string_bytes};
ghost use Rattle.std.specs.Global.{Global};
ghost use Rattle.tape_types.specs.Times.{time_text};
ghost use Rattle.tape_types.specs.declared.moments.Moment.{Moment};
ghost use Rattle.tape_edge.specs.Clocks.{IsSince1970};
ghost use Rattle.commands.specs.CommandLine.Forms.{IsGenerations, IsLabel, IsListWords, IsMakeWords, IsPlainWords};
ghost use Rattle.commands.specs.CommandLine.Forms.{IsServeWords, count_told};

/// The plain forms of the commands are forms, with either spelling of an option and in no other number, and no other
/// word may stand behind them.
pub fn words_are_forms()
    ensures plain { (words : List (String Global)) → map string_bytes words ≡ codes "plain" ∷ []
        → IsPlainWords words None }
    ensures apart { (words : List (String Global)) (at : Moment) → IsSince1970 at
        → map string_bytes words ≡ codes "plain" ∷ codes "--at" ∷ time_text at ∷ [] → IsPlainWords words (Some at) }
    ensures joined { (words : List (String Global)) (at : Moment) → IsSince1970 at
        → map string_bytes words ≡ codes "plain" ∷ (codes "--at=" ++ time_text at) ∷ [] → IsPlainWords words (Some at) }
    ensures label { (words : List (String Global)) (folder : List ℕ)
        → map string_bytes words ≡ codes "label" ∷ folder ∷ [] → IsLabel words }
    ensures list { (words : List (String Global)) (folder : List ℕ)
        → map string_bytes words ≡ codes "list" ∷ folder ∷ [] → IsListWords words false }
    ensures list_all { (words : List (String Global)) (folder : List ℕ)
        → map string_bytes words ≡ codes "list" ∷ folder ∷ codes "--all" ∷ [] → IsListWords words true }
    ensures generations { (words : List (String Global)) (folder : List ℕ)
        → map string_bytes words ≡ codes "generations" ∷ folder ∷ [] → IsGenerations words }
    ensures serve { (words : List (String Global)) (folder : List ℕ)
        → map string_bytes words ≡ codes "serve" ∷ folder ∷ [] → IsServeWords words None }
    ensures serve_apart { (words : List (String Global)) (folder : List ℕ) (at : Moment) → IsSince1970 at
        → map string_bytes words ≡ codes "serve" ∷ folder ∷ codes "--at" ∷ time_text at ∷ []
        → IsServeWords words (Some at) }
    ensures serve_joined { (words : List (String Global)) (folder : List ℕ) (at : Moment) → IsSince1970 at
        → map string_bytes words ≡ codes "serve" ∷ folder ∷ (codes "--at=" ++ time_text at) ∷ []
        → IsServeWords words (Some at) }
    ensures make { (words : List (String Global)) (folder number : List ℕ) (count : ℕ)
        → count_told (Some number) ≡ Some count → map string_bytes words ≡ codes "make" ∷ folder ∷ number ∷ []
        → IsMakeWords words count None }
    ensures make_apart { (words : List (String Global)) (folder number : List ℕ) (count : ℕ) (at : Moment)
        → count_told (Some number) ≡ Some count → IsSince1970 at
        → map string_bytes words ≡ codes "make" ∷ folder ∷ codes "--at" ∷ time_text at ∷ number ∷ []
        → IsMakeWords words count (Some at) }
    ensures make_joined { (words : List (String Global)) (folder number : List ℕ) (count : ℕ) (at : Moment)
        → count_told (Some number) ≡ Some count → IsSince1970 at
        → map string_bytes words ≡ codes "make" ∷ folder ∷ number ∷ (codes "--at=" ++ time_text at) ∷ []
        → IsMakeWords words count (Some at) }
{}
