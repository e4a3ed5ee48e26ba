//! A small volume, on which the definitions are tried.

ghost use Rattle.std.specs.Prelude.{Some, None};
ghost use Rattle.index_model.specs.declared.indexes.Index.{Index};
ghost use Rattle.promises.specs.ImageLaws.Examples.{TellsAhead, TellsCovered, TellsImages, TellsIp, TellsLater};
ghost use Rattle.promises.specs.ImageLaws.Examples.{TellsNext};
ghost use Rattle.promises.specs.ImageLaws.Examples.{TellsRoles};
ghost use Rattle.promises.specs.ImageLaws.JobExamples.{TellsClose, TellsJobs};
ghost use Rattle.promises.specs.ImageLaws.Made.{CoveredIndex};
ghost use Rattle.promises.specs.ImageLaws.Worked.{entry, mounted};

/// Which index each image of a sync has, and how many placements that covers.
pub fn the_definitions_tell_a_sync()
    ensures images { (first second : CoveredIndex) → TellsImages (mounted first None) second }
    ensures covered { (first second : CoveredIndex) → TellsCovered (mounted first None) first second }
    ensures later { (first second third : CoveredIndex) → TellsLater (mounted first None) second third }
    ensures roles { (first : CoveredIndex) → TellsRoles (mounted first None) }
{}

/// Which ops may come next, what is flushed of the index partition, and when its index stays ahead.
pub fn the_definitions_tell_modes()
    ensures next { (first ahead : CoveredIndex) → TellsNext (mounted first None) (mounted first (Some ahead)) }
    ensures ip { (first : CoveredIndex) → TellsIp (mounted first None) }
    ensures ahead { (index : Index) → TellsAhead index }
{}

/// Which ops are admitted and where they go, and what a close makes of a small volume.
pub fn the_definitions_tell_jobs()
    ensures jobs { (e : CoveredIndex) → TellsJobs e }
    ensures close { (first second : CoveredIndex) → TellsClose first second }
{}
