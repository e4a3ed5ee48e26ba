ghost use Rattle.std.specs.Prelude.{◌≡◌, ◌≢◌, ℕ, ◌++◌, [], ◌∷◌, None, Some, false, true};
ghost use Rattle.tape_types.specs.declared.moments.Moment.{Moment};
ghost use Rattle.session_script.specs.declared.logs.Event.TheVariants.{Drains, Rests, Synced, Syncs, Wants, Worked};
ghost use Rattle.plain_tree.specs.declared.calls.Fate.TheVariants as fates;
ghost use Rattle.tape_layout.specs.declared.ops.Op.TheVariants.{Flush};
ghost use Rattle.promises.specs.ServingPromise.Marks.{mark};
ghost use Rattle.promises.specs.declared.serving_promise.marks.MarkKind.TheVariants.{Places as places, Hands as hands};
ghost use Rattle.promises.specs.declared.serving_promise.marks.MarkKind.TheVariants.{Begins as begins, Rests as rests};
ghost use Rattle.head_queue.specs.EventLaws.Rows.{dp, queues, twin};
ghost use Rattle.head_queue.specs.EventLaws.Trail.{after_all};
ghost use Rattle.promises.specs.ServingPromise.Served.{IsOrderly, View};
ghost use Rattle.promises.specs.ServingPromise.Steps.{IsDrained};
ghost use Rattle.promises.specs.ServingPromise.Trials.{ack, done, fault, placed, synced};
ghost use Rattle.promises.specs.ServingPromise.Turning.{after_flush, before_flush, draining_view};
ghost use Rattle.promises.specs.ServingPromise.Turning.{drive_at, faulted, handed_marks};
ghost use Rattle.promises.specs.declared.serving_promise.answers.Drained.TheVariants as drained;
ghost use Rattle.promises.specs.declared.serving_promise.answers.Submitted.TheVariants as submitted;
ghost use Rattle.promises.specs.OrderLaws.Kept.{is_rising};
ghost use Rattle.promises.specs.OrderLaws.Phases.{is_course};
ghost use Rattle.promises.specs.OrderLaws.Rows.{IsKept, IsOrdered, a_course, at_once, drains_and_waits, fails, flushed};
ghost use Rattle.promises.specs.OrderLaws.Rows.{hand_of_another, served, session_drains, smaller, still, sync_stands};
ghost use Rattle.promises.specs.OrderLaws.Rows.{telling, to_flush, two_at_once, with_acks, with_events, with_history};
ghost use Rattle.promises.specs.OrderLaws.Rows.{with_marks, with_ops, with_replies, without_reply};
ghost use Rattle.promises.specs.OrderLaws.Sides.{HasOneMoment, IsAnswered, IsBrought, IsReplied};
ghost use Rattle.promises.specs.OrderLaws.Sides.{MayFollow, MovesOn, TurnsInOrder};

/// What a call shows beside what it adds, and damaged in one way.
pub fn the_definitions_tell_sides()
    ensures flush_is { (at : Moment)
        → TurnsInOrder (drive_at 33 (Some (dp 11))) (drive_at 34 (Some (dp 11))) (before_flush at)
        (after_flush at 34 handed_marks (Some 3)) flushed }
    ensures before_flush_isnt { (at : Moment)
        → ¬ MayFollow (before_flush at) (after_flush at 34 handed_marks (Some 3))
        (Synced 2 ∷ Worked (dp 11) None ∷ []) }
    ensures other_reply_isnt { (at : Moment) → ¬ IsReplied (to_flush at) flushed 2 done }
    ensures no_reply_isnt { (at : Moment) → ¬ IsBrought (to_flush at) flushed 2 None }
    ensures waits_still_is { (at : Moment) → IsBrought (to_flush at) [] 2 None }
    ensures early_reply_isnt { (at : Moment) → ¬ IsReplied (to_flush at) [] 2 synced }
    ensures fault_is { IsReplied sync_stands (fails 0 1) 2 (fault 0 1) }
    ensures other_fault_isnt { ¬ IsReplied sync_stands (fails 0 1) 2 (fault 0 2) }
    ensures synced_though_failed_isnt { ¬ IsReplied sync_stands (fails 0 1) 2 synced }
    ensures fault_of_nobody_isnt { ¬ IsReplied session_drains (fails 0 1) 2 (fault 0 1) }
    ensures rise_is { MovesOn (drive_at 30 None) (faulted 1 (drive_at 31 None)) (fails 0 1) }
    ensures no_rise_isnt { ¬ MovesOn (drive_at 30 None) (faulted 1 (drive_at 31 None)) (fails 1 1) }
    ensures lost_fault_isnt { (at : Moment) (new : View ℕ)
        → ¬ IsDrained (draining_view at) new 1 (Worked (dp 22) (Some (twin 0 1)) ∷ []) drained.More }
    ensures at_once_is { IsAnswered (after_all at_once) at_once 0 (submitted.Ready synced) }
    ensures done_at_once_isnt { ¬ IsAnswered (after_all at_once) at_once 0 (submitted.Ready done) }
    ensures fault_at_once_isnt { ¬ IsAnswered (after_all at_once) at_once 0 (submitted.Ready (fault 0 1)) }
    ensures waits_isnt { ¬ IsAnswered (after_all at_once) at_once 0 (submitted.Wait 0) }
    ensures ready_while_waiting_isnt { ¬ IsAnswered sync_stands [] 2 (submitted.Ready done) }
    ensures moment_is { (at : Moment) → HasOneMoment (before_flush at) }
{}

/// Marks that calls make, and marks that none makes; numbers that rise, and numbers that don't.
pub fn the_definitions_tell_courses()
    ensures course_is { is_course a_course ≡ true }
    ensures other_hand_isnt { is_course hand_of_another ≡ false }
    ensures two_isnt { is_course two_at_once ≡ false }
    ensures drain_and_wait_isnt { is_course drains_and_waits ≡ false }
    ensures rising_is { is_rising (1 ∷ 4 ∷ 6 ∷ []) ≡ true }
    ensures twice_isnt { is_rising (1 ∷ 4 ∷ 4 ∷ []) ≡ false }
{}

/// A volume that is served in order, and volumes that are damaged in one part.
pub fn the_definitions_tell_order()
    ensures served_is { (at : Moment) → IsKept (served at) }
    ensures later_number_isnt { (at : Moment)
        → ¬ IsOrdered (with_history (placed at 1 1 fates.Done ∷ []) (served at)) }
    ensures call_too_many_isnt { (at : Moment)
        → ¬ IsOrdered (with_history (placed at 1 0 fates.Done ∷ placed at 1 1 fates.Done ∷ []) (served at)) }
    ensures other_moment_isnt { (at other : Moment) → other ≢ at
        → ¬ IsOrdered (with_history (placed other 1 0 fates.Done ∷ []) (served at)) }
    ensures rest_alone_isnt { (at : Moment) → ¬ IsOrdered (with_events (Rests 1 ∷ []) (served at)) }
    ensures op_left_isnt { (at : Moment) → ¬ IsOrdered (with_ops (Flush (dp 7) ∷ []) (served at)) }
    ensures waits_for_nothing_isnt { (at : Moment) → ¬ IsOrdered (with_replies (None ∷ []) (served at)) }
    ensures answered_early_isnt { (at : Moment) → ¬ IsOrdered (with_events (Wants 0 (dp 7) ∷ []) (served at)) }
    ensures sync_of_nobody_isnt { (at : Moment) → ¬ IsOrdered (with_events (Syncs 0 ∷ Synced 0 ∷ []) (served at)) }
    ensures ack_of_nothing_isnt { (at : Moment) → ¬ IsOrdered (with_acks (ack 0 30 ∷ []) (served at)) }
    ensures untold_ack_isnt { (at : Moment) → ¬ IsOrdered (with_replies (Some synced ∷ []) (served at)) }
    ensures untold_fault_isnt { (at : Moment) → ¬ IsOrdered (with_replies (Some (fault 0 1) ∷ []) (served at)) }
    ensures fewer_faults_isnt { (at : Moment) → ¬ IsOrderly (faulted 1 still) still (served at) }
    ensures mark_missing_isnt { (at : Moment) → ¬ IsOrdered (with_marks [] (served at)) }
    ensures stranger_isnt { (at : Moment)
        → ¬ IsOrdered (with_marks (mark 1 (places 0) ∷ mark 1 (hands 0 done) ∷ mark 2 rests ∷ []) (served at)) }
    ensures other_hand_isnt { (at : Moment)
        → ¬ IsOrdered (with_marks (mark 1 (places 0) ∷ mark 1 (hands 0 synced) ∷ []) (served at)) }
    ensures drains_alone_isnt { (at : Moment)
        → ¬ IsOrdered (with_marks (mark 1 (places 0) ∷ mark 1 (hands 0 done) ∷ mark 1 begins ∷ []) (served at)) }
    ensures drain_unmarked_isnt { (at : Moment)
        → ¬ IsOrdered (with_events (queues 7 65 ++ Drains 1 ∷ []) (served at)) }
    ensures smaller_drive_isnt { (at : Moment) → ¬ IsOrderly still smaller (served at) }
    ensures told_later_isnt { (at : Moment) → ¬ IsOrderly still telling (served at) }
{}

/// What is promised of the order alone isn't kept: a placement may have no place among the replies.
pub fn the_promise_alone_is_not_kept()
    ensures orderly_is { (at : Moment) → IsOrdered (without_reply at) }
    ensures kept_isnt { (at : Moment) → ¬ IsKept (without_reply at) }
{}
