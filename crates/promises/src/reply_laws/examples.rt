ghost use Rattle.std.specs.Prelude.{◌≡◌, Bool, [], ◌∷◌, codes, Some, None};
ghost use Rattle.tape_types.specs.declared.cartridges.Twin.{Twin};
ghost use Rattle.tape_types.specs.declared.moments.Moment.{Moment};
ghost use Rattle.plain_tree.specs.declared.calls.Answer.TheVariants.{Got, Synced};
ghost use Rattle.plain_tree.specs.declared.calls.Call.TheVariants.{Read, Sync};
ghost use Rattle.plain_tree.specs.declared.calls.Fate.TheVariants as fates;
ghost use Rattle.session_script.specs.declared.logs.Event.TheVariants.{Synced as Answered, Worked};
ghost use Rattle.session_script.specs.declared.logs.Reply.TheVariants as replies;
ghost use Rattle.tape_layout.specs.declared.ops.Op.TheVariants.{Flush, Mark};
ghost use Rattle.space_laws.specs.Histories.{given, path};
ghost use Rattle.space_laws.specs.Mount.{MountFacts};
ghost use Rattle.space_laws.specs.Standing.{first_standing};
ghost use Rattle.cartridge_meaning.specs.declared.mounted.Mounted.{Mounted};
ghost use Rattle.promises.specs.declared.serving_promise.answers.Submitted.TheVariants as submitted;
ghost use Rattle.promises.specs.ServingPromise.Served.{IsTrue};
ghost use Rattle.promises.specs.ReplyLaws.Sides.{IsReadyHere, SubmitsTruly, left_by, ops_here};
ghost use Rattle.promises.specs.ReplyLaws.Worked.{at_end, one_sync, silent, synced};

/// Replies that may come at once where a volume with one empty file begins, replies that may not, and the ops that are
/// left behind a step.
pub fn the_sides_tell_replies()
    ensures read_is { (m : MountFacts) (on : Bool) (at : Moment)
        → IsReadyHere (given at m []) on (first_standing (given at m [])) (Read path 0 5) at (replies.Answer (Got [])) }
    ensures other_bytes_isnt { (m : MountFacts) (on : Bool) (at : Moment)
        → ¬ IsReadyHere (given at m []) on (first_standing (given at m [])) (Read path 0 5) at
        (replies.Answer (Got (codes "d"))) }
    ensures fault_isnt { (m : MountFacts) (on : Bool) (at : Moment) (counts : Twin)
        → ¬ IsReadyHere (given at m []) on (first_standing (given at m [])) (Read path 0 5) at (replies.Fault counts) }
    ensures full_isnt { (m : MountFacts) (on : Bool) (at : Moment)
        → ¬ IsReadyHere (given at m []) on (first_standing (given at m [])) Sync at (replies.Full 0 0) }
    ensures synced_is { (m : MountFacts) (on : Bool) (at : Moment)
        → IsReadyHere (given at m []) on (first_standing (given at m [])) Sync at (replies.Answer Synced) }
    ensures sync_of_nothing { (m : MountFacts) (on : Bool) (at : Moment)
        → ops_here (given at m []) on (first_standing (given at m [])) fates.Done (Some Sync) at ≡ [] }
    ensures sync_stays_true { (mounted : Mounted) (at : Moment)
        → SubmitsTruly silent (one_sync mounted at) (synced mounted at) 1 0 (submitted.Ready (replies.Answer Synced)) }
    ensures it_is_true { (mounted : Mounted) (at : Moment) → IsTrue silent (synced mounted at) }
    ensures one_done { left_by (Worked (at_end 7) None ∷ Answered 2 ∷ []) (Mark (at_end 7) ∷ Flush (at_end 8) ∷ [])
        ≡ Flush (at_end 8) ∷ [] }
    ensures none_done { (counts : Twin)
        → left_by (Worked (at_end 7) (Some counts) ∷ []) (Mark (at_end 7) ∷ Flush (at_end 8) ∷ [])
        ≡ Mark (at_end 7) ∷ Flush (at_end 8) ∷ [] }
{}
