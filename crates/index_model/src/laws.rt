ghost use Rattle.std.specs.Prelude.{◌≡◌, ℕ, ◌<◌, List, Some};
ghost use Rattle.index_model.specs.declared.faults.Fault.{Fault};
ghost use Rattle.index_model.specs.declared.indexes.Index.{Index};
ghost use Rattle.index_model.specs.declared.nodes.Node.{Node};
ghost use Rattle.index_model.specs.Order.{AreInOrder, LiesIn};
ghost use Rattle.index_model.specs.Places.{IsAt};
ghost use Rattle.index_model.specs.Refusals.{IsToldOf};
ghost use Rattle.index_model.specs.Valid.{Agrees};
ghost use Rattle.index_model.specs.Values.{IndexValue, Tells};

/// Of an index one fault is told, or none, which is where its nodes agree.
pub fn one_fault_is_told()
    ensures one { (index : Index) (a b : Fault) → IsToldOf index a → IsToldOf index b → a ≡ b }
    ensures agrees { (index : Index) (a : Fault) → IsToldOf index a → ¬ Agrees index }
    ensures no_fault { (index : Index) → ((a : Fault) → ¬ IsToldOf index a) → Agrees index }
{}

/// In the order of the document all that lies in a directory stands together, directly behind
/// it.
pub fn directories_stand_together()
    ensures { (nodes : List Node) (upper at later : ℕ) (node : Node) → AreInOrder nodes → upper < at → at < later →
        IsAt nodes later node → LiesIn nodes later upper → LiesIn nodes at upper }
{}

/// An index whose nodes stand in the order of the document tells one value.
pub fn indexes_tell_one_value()
    ensures some { (index : Index) → AreInOrder index.nodes → (v : IndexValue) × Tells index v }
    ensures one { (index : Index) (v w : IndexValue) → Tells index v → Tells index w → v ≡ w }
{}
