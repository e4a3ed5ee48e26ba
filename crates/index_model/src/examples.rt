ghost use Rattle.std.specs.Prelude.{◌+◌, ◌^◌};
ghost use Rattle.tape_types.specs.declared.moments.Moment.{Moment};
ghost use Rattle.tape_types.specs.declared.moments.Times.{Times};
ghost use Rattle.index_model.specs.Archive.{archive, archive_nodes, index_of, late_node, long_file, node_in_file};
ghost use Rattle.index_model.specs.Archive.{one_name, shared_byte, touching, two_notes, with_file};
ghost use Rattle.index_model.specs.Extents.{AreFiles};
ghost use Rattle.index_model.specs.declared.nodes.NodeKind.TheVariants as kinds;
ghost use Rattle.index_model.specs.Order.{AreInOrder};
ghost use Rattle.index_model.specs.Refusals.{IsToldOf};
ghost use Rattle.index_model.specs.declared.faults.Fault.TheVariants as faults;
ghost use Rattle.index_model.specs.Valid.{IsValid};

/// The archive is valid, and of each index that is damaged in one way that fault is told.
pub fn the_definitions_tell_valid_from_damaged()
    ensures valid { (at : Moment) (times : Times) → IsValid (archive at times) }
    ensures touching { (times : Times) → AreFiles (with_file times (kinds.File 5 touching)) }
    ensures late { (times : Times) → ¬ AreInOrder (late_node times) }
    ensures in_file { (times : Times) → ¬ AreInOrder (node_in_file times) }
    ensures highest { (at : Moment) (times : Times) →
        IsToldOf (index_of at (2 ^ 62 + 1) (archive_nodes times)) (faults.Uid (2 ^ 62 + 1)) }
    ensures uid { (at : Moment) (times : Times) → IsToldOf (index_of at 3 (archive_nodes times)) (faults.Uid 4) }
    ensures name { (at : Moment) (times : Times) → IsToldOf (index_of at 3 (one_name times)) (faults.SameName 2) }
    ensures key { (at : Moment) (times : Times) → IsToldOf (index_of at 2 (two_notes times)) (faults.SameKey 2) }
    ensures long { (at : Moment) (times : Times) → IsToldOf (index_of at 2 (long_file times)) (faults.Extent 2) }
    ensures overlap { (at : Moment) (times : Times) → IsToldOf (index_of at 2 (shared_byte times)) (faults.Overlap 2) }
{}
