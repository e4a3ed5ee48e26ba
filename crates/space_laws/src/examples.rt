ghost use Rattle.std.specs.Prelude.{◌≡◌, Some, map, option_map};
ghost use Rattle.tape_types.specs.declared.moments.Moment.{Moment};
ghost use Rattle.tape_types.specs.declared.moments.Times.{Times};
ghost use Rattle.index_model.specs.Archive.{archive, archive_nodes};
ghost use Rattle.index_model.specs.Values.{all_nodes, value_of as node_value};
ghost use Rattle.space_laws.specs.Examples.{TellsHistories, TellsLocks, TellsSpace};
ghost use Rattle.space_laws.specs.Files.{value_of};

/// What is needed, what there is and what is admitted, in worked values.
#[tactic(auto, using(crate::proofs::SpaceFacts::tells_space))]
pub fn the_definitions_tell_space()
    ensures { TellsSpace }
{}

/// How a file lies, where its bytes go and what that needs, in worked histories.
pub fn the_definitions_tell_histories()
    ensures { (at : Moment) → TellsHistories at }
{}

/// What calls of attributes, read-only nodes and the lock ask, and which lock an index tells, in worked values.
pub fn the_definitions_tell_locks()
    ensures { (at : Moment) → TellsLocks at }
{}

/// The value of a small index lists the nodes of the index.
#[tactic(auto, using(crate::proofs::IndexFacts::archive_is_told))]
pub fn the_definitions_tell_an_index()
    ensures { (at : Moment) (times : Times)
        → option_map all_nodes (value_of (archive at times)) ≡ Some (map node_value (archive_nodes times)) }
{}
