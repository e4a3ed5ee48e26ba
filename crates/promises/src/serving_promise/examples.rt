ghost use Rattle.session_script.specs.declared.logs.Event.TheVariants.{Wants};
ghost use Rattle.promises.specs.ServingPromise.Asking.{AreAsked, AreGrouped, AreNeeded, AreOfReads, ArePutOff};
ghost use Rattle.promises.specs.ServingPromise.Asking.{blocks_of};
ghost use Rattle.tape_layout.specs.declared.ops.Op.TheVariants.{Put};
ghost use Rattle.tape_types.specs.declared.cartridges.Item.TheVariants.{Block};
ghost use Rattle.promises.specs.ServingPromise.Ends.{IsDoneClose, IsEnd, Starts, TellsNodes, begun};
ghost use Rattle.promises.specs.ServingPromise.Closing.{just_begun, last_generation, leaving_another, mounted_under};
ghost use Rattle.promises.specs.ServingPromise.Closing.{sealed, telling, untouched};
ghost use Rattle.promises.specs.declared.serving_promise.answers.CloseEnd.TheVariants as ends;
ghost use Rattle.std.specs.Prelude.{◌^◌, ◌+◌, ◌≡◌, ℕ, ◌≢◌, true, false, List, [], ◌∷◌, codes, Some, take, map, None, ◌++◌};
ghost use Rattle.std.specs.Prelude.{decimal, Option};
ghost use Rattle.tape_types.specs.declared.moments.Moment.{Moment};
ghost use Rattle.tape_types.specs.declared.cartridges.Twin.{Twin};
ghost use Rattle.plain_tree.specs.declared.calls.LockState.{LockState};
ghost use Rattle.plain_tree.specs.Tree.{Tree};
ghost use Rattle.plain_tree.specs.declared.calls.Call.TheVariants.{Sync, Write};
ghost use Rattle.plain_tree.specs.declared.calls.Fate.TheVariants as fates;
ghost use Rattle.session_script.specs.declared.logs.Reply.{Reply};
ghost use Rattle.session_script.specs.declared.logs.Reply.TheVariants as replies;
ghost use Rattle.head_queue.specs.EventLaws.Rows.{queues, twin, dp, one_sync, failed_write, failed_drain, two_sessions};
ghost use Rattle.promises.specs.ServingPromise.Meanings.{FineCartridgesStand};
ghost use Rattle.promises.specs.ServingPromise.Replies.{IsReply, facts_at, AreReplies, IsNeverOver};
ghost use Rattle.promises.specs.ServingPromise.Trials.{drained_by_one, plain_facts, long_volume, alike_below};
ghost use Rattle.promises.specs.ServingPromise.Trials.{honest_below};
ghost use Rattle.promises.specs.ServingPromise.Trials.{calls_of_one, with_a, write, read, calm, over, fault, got, done};
ghost use Rattle.promises.specs.ServingPromise.Trials.{filling};
ghost use Rattle.promises.specs.ServingPromise.Trials.{last_void, path, small_volume, twice_written, with_policy};
ghost use Rattle.promises.specs.ServingPromise.Trials.{with_small_blocks, four_done, placed, ack, sync_replies};
ghost use Rattle.promises.specs.ServingPromise.Trials.{fault_replies};
ghost use Rattle.promises.specs.ServingPromise.Trials.{fault_of_another, sync_marks, drain_marks, log_of, by_reference};
ghost use Rattle.promises.specs.ServingPromise.Trials.{flushed_at_34, left_until_33, mounted, never_flushed, numbered};
ghost use Rattle.promises.specs.ServingPromise.Trials.{synced};
ghost use Rattle.space_laws.specs.Mount.{was_sealed};
ghost use Rattle.space_laws.specs.Space.{ops_of};
ghost use Rattle.space_laws.specs.Standing.{admitted, standing, Given};
ghost use Rattle.space_laws.specs.Trials.{empty_volume, on_dp, on_ip, after_asks, for_ip, places as places_in};
ghost use Rattle.space_laws.specs.Trials.{short_index, small};
ghost use Rattle.session_script.specs.declared.logs.Event.TheVariants.{Syncs, Worked, Synced};
ghost use Rattle.head_queue.specs.EventLaws.Trail.{of_call, of_session, owned_by};
ghost use Rattle.head_queue.specs.EventLaws.Waiting.{with_flushes};
ghost use Rattle.promises.specs.ServingPromise.Acks.{AreAcks, AreSyncs};
ghost use Rattle.promises.specs.ServingPromise.Submits.{acks_for, Submits};
ghost use Rattle.promises.specs.ServingPromise.Faults.{AreRises, told_at, told_to};
ghost use Rattle.promises.specs.ServingPromise.Headline.{Closed, end_text, queued_before_flush};
ghost use Rattle.promises.specs.ServingPromise.Marks.{phase, idle, waits, marks_of_submit, mark, places_of};
ghost use Rattle.promises.specs.declared.serving_promise.marks.MarkKind.TheVariants.{Places as places};
ghost use Rattle.tape_layout.specs.Ops.{is_flush, place_of};
ghost use Rattle.promises.specs.ServingPromise.Served.{AreStanding, placed_by, Fixed, IsServed};
ghost use Rattle.promises.specs.declared.serving_promise.answers.Submitted.TheVariants as submitted;
ghost use Rattle.promises.specs.ServingPromise.Crash.{SurvivesCrashes};
ghost use Rattle.promises.specs.ServingPromise.Steps.{DrainsOnce, IsOnTape, Turns};
ghost use Rattle.promises.specs.ServingPromise.Turning.{after_flush, before_flush, before_third, both_view};
ghost use Rattle.promises.specs.ServingPromise.Turning.{placed_third};
ghost use Rattle.promises.specs.ServingPromise.Turning.{sync_added, syncs_first, sync_failed_view, drive_at};
ghost use Rattle.promises.specs.ServingPromise.Turning.{draining_view};
ghost use Rattle.promises.specs.ServingPromise.Turning.{faulted, holding, handed_marks, rested_view, waiting_marks};
ghost use Rattle.promises.specs.ServingPromise.Turning.{before_write};
ghost use Rattle.promises.specs.ServingPromise.Turning.{put_off};
ghost use Rattle.promises.specs.declared.serving_promise.answers.Drained.TheVariants as drained;
ghost use Rattle.promises.specs.declared.serving_promise.answers.Turn.TheVariants as turns;
ghost use Rattle.plain_tree.specs.declared.calls.Placed.{Placed};
ghost use Rattle.session_script.specs.Replies as sessions;

/// Which replies may come at a place, and which may not.
pub fn the_definitions_tell_replies()
    ensures read_is { (at : Moment) → IsReply fates.Done (calm (with_a at (codes "hello"))) read (got (codes "hello")) }
    ensures later_read_isnt { (at : Moment)
        → ¬ IsReply fates.Done (calm (with_a at (codes "hello"))) read (got (codes "world")) }
    ensures full_is { (tree : Tree) → IsReply fates.Void (over tree 53 52) (write (codes "d")) (replies.Full 53 52) }
    ensures full_one_off_isnt { (tree : Tree)
        → ¬ IsReply fates.Void (over tree 53 52) (write (codes "d")) (replies.Full 54 52) }
    ensures full_within_isnt { (tree : Tree) → ¬ IsReply fates.Void (calm tree) (write (codes "d")) (replies.Full 0 0) }
    ensures done_over_isnt { (tree : Tree) → ¬ IsReply fates.Done (over tree 53 52) (write (codes "d")) done }
    ensures fault_is { (tree : Tree)
        → IsReply fates.Done (record (calm tree) { own = twin 0 1 ∷ [] }) Sync (fault 0 1) }
    ensures fault_unowned_isnt { (tree : Tree) → ¬ IsReply fates.Done (calm tree) Sync (fault 0 1) }
    ensures write_fault_isnt { (tree : Tree)
        → ¬ IsReply fates.Done (record (calm tree) { own = twin 0 1 ∷ [] }) (write (codes "d")) (fault 0 1) }
    ensures drain_fault_is { (tree : Tree)
        → IsReply fates.Void (record (calm tree) { sessions = twin 0 1 ∷ [] }) (write (codes "d")) (fault 0 1) }
    ensures void_sync_isnt { (tree : Tree)
        → ¬ IsReply fates.Void (record (calm tree) { sessions = twin 0 1 ∷ [] }) Sync (fault 0 1) }
{}

/// Replies and ops over whole histories.
pub fn the_definitions_tell_histories()
    ensures first_read { (at : Moment)
        → IsReply fates.Done
        (facts_at (small_volume at twice_written) None (four_done at) [] 1 (placed at 1 1 fates.Done) read) read
        (got (codes "hello")) }
    ensures second_read { (at : Moment)
        → IsReply fates.Done
        (facts_at (small_volume at twice_written) None (four_done at) [] 3 (placed at 1 3 fates.Done) read) read
        (got (codes "world")) }
    ensures both_stored { (at : Moment)
        → map place_of (admitted (small_volume at twice_written) None (four_done at)) ≡ on_dp 7 ∷ on_dp 8 ∷ [] }
    ensures end_after { (at : Moment)
        → (standing (small_volume at twice_written) None (four_done at) 4).space.ends.dp ≡ 9 }
    ensures filled { (at : Moment)
        → IsReply fates.Void
        (facts_at (with_small_blocks at filling) None (last_void at) [] 3 (placed at 1 3 fates.Void)
        (Write path 180 (100 ∷ []))) (Write path 180 (100 ∷ [])) (replies.Full 53 52) }
    ensures not_on_yet { (at : Moment)
        → map place_of (admitted (with_policy at twice_written) None (take 1 (four_done at))) ≡ on_dp 7 ∷ [] }
    ensures not_before_its_place { (at : Moment)
        → map place_of (admitted (with_policy at twice_written) (Some 2) (four_done at)) ≡ on_dp 7 ∷ on_ip 4 ∷ [] }
    ensures standing_is { (at : Moment)
        → AreStanding (small_volume at twice_written) None (take 1 (four_done at)) (queues 7 1)
        (Put (on_dp 7) (codes "hello") ∷ []) }
    ensures other_bytes_isnt { (at : Moment)
        → ¬ AreStanding (small_volume at twice_written) None (take 1 (four_done at)) (queues 7 1)
        (Put (on_dp 7) (codes "world") ∷ []) }
    ensures ip_before_flush_isnt { (at : Moment)
        → map place_of (admitted (with_policy at twice_written) None (take 1 (four_done at))) ≢ on_ip 4 ∷ [] }
{}

/// Acks, faults, marks and texts of worked runs, and of damaged ones.
pub fn the_definitions_tell_logs()
    ensures acks_are { AreAcks one_sync (map Some sync_replies) (ack 2 34 ∷ []) }
    ensures ack_of_another_isnt { ¬ AreAcks one_sync (map Some sync_replies) (ack 3 34 ∷ []) }
    ensures ack_missing_isnt { ¬ AreAcks one_sync (map Some sync_replies) [] }
    ensures ack_added { acks_for 34 (Worked (dp 11) None ∷ Synced 2 ∷ []) ≡ ack 2 34 ∷ [] }
    ensures ack_early_isnt { acks_for 34 (Worked (dp 11) None ∷ Synced 2 ∷ []) ≢ ack 2 33 ∷ [] }
    ensures told_of_fault { (at : Moment)
        → told_at (four_done at) (map Some fault_replies) 2 ≡ owned_by (of_call 2) failed_write }
    ensures told_another { (at : Moment)
        → told_at (four_done at) (map Some fault_of_another) 2 ≢ owned_by (of_call 2) failed_write }
    ensures rises { AreRises 0 1 (twin 0 1 ∷ []) }
    ensures rises_twice_isnt { ¬ AreRises 0 2 (twin 0 1 ∷ twin 0 1 ∷ []) }
    ensures phases { phase 1 sync_marks ≡ idle }
    ensures marks_of_history { (at : Moment) → places_of 1 sync_marks ≡ placed_by 1 (four_done at) }
    ensures drains_then_places { phase 1 drain_marks ≡ idle }
    ensures waits_still { phase 2 drain_marks ≡ waits 0 }
    ensures mark_missing_isnt { marks_of_submit 1 0 (submitted.Ready done) ≢ mark 1 (places 0) ∷ [] }
    ensures text_is { (at : Moment)
        → end_text (log_of at one_sync) (Closed 2) ≡ codes "closed "
        ++ (decimal 2 ++ (codes " " ++ (decimal 6 ++ (codes " " ++ (decimal 11 ++ codes "\n"))))) }
    ensures before_the_flush { queued_before_flush two_sessions ≡ 5 }
    ensures drain_told { (at : Moment)
        → told_to (placed at 1 0 fates.Void ∷ []) (Some (fault 0 1) ∷ []) 1 ≡ owned_by (of_session 1) failed_drain }
    ensures drain_told_done { (at : Moment)
        → told_to (placed at 1 0 fates.Done ∷ []) (Some (fault 0 1) ∷ []) 1 ≢ owned_by (of_session 1) failed_drain }
    ensures told_as_owned { (at : Moment) (k : ℕ)
        → told_at (four_done at) (map Some fault_replies) k ≡ owned_by (of_call k) failed_write }
    ensures syncs_are { (at : Moment)
        → AreSyncs (calls_of_one (write [] ∷ write [] ∷ Sync ∷ Sync ∷ [])) (four_done at) failed_write }
    ensures sync_of_read_isnt { (at : Moment)
        → ¬ AreSyncs (calls_of_one (write [] ∷ write [] ∷ read ∷ Sync ∷ [])) (four_done at) failed_write }
    ensures flushes_are { map (λ o. o.flush)
        (with_flushes
        (places_in (ops_of (small 4096) true (after_asks (small 4096) true (for_ip ∷ [])) short_index)))
        ≡ map is_flush (ops_of (small 4096) true (after_asks (small 4096) true (for_ip ∷ [])) short_index) }
{}

/// An acknowledgement holds since its own command.
pub fn the_definitions_tell_crashes()
    ensures acknowledged_is { SurvivesCrashes by_reference plain_facts numbered 4 (ack 2 34 ∷ []) flushed_at_34 30 }
    ensures acknowledged_early_isnt { ¬ SurvivesCrashes by_reference plain_facts numbered 4
        (ack 2 33 ∷ []) flushed_at_34 30 }
    ensures acknowledged_late_isnt { ¬ SurvivesCrashes by_reference plain_facts numbered 4
        (ack 2 18446744073709551614 ∷ []) never_flushed 30 }
    ensures left_before_isnt { ¬ SurvivesCrashes by_reference plain_facts numbered 4 [] (left_until_33 9) 30 }
    ensures dishonest_before_isnt { ¬ SurvivesCrashes (honest_below 3) plain_facts numbered 4 [] (left_until_33 3) 30 }
{}

/// Turns that the definitions accept, and turns that are damaged in one way.
pub fn the_definitions_tell_turns()
    ensures flush_turn_is { (at : Moment)
        → Turns 1 (drive_at 33 (Some (dp 11))) (drive_at 34 (Some (dp 11))) (before_flush at)
        (after_flush at 34 handed_marks (Some 3)) 1 2 (turns.Ready synced) }
    ensures ack_early_turn_isnt { (at : Moment)
        → ¬ Turns 1 (drive_at 33 (Some (dp 11))) (drive_at 34 (Some (dp 11))) (before_flush at)
        (after_flush at 33 handed_marks (Some 3)) 1 2 (turns.Ready synced) }
    ensures no_command_isnt { (at : Moment)
        → ¬ Turns 1 (drive_at 33 (Some (dp 11))) (drive_at 33 (Some (dp 11))) (before_flush at)
        (after_flush at 33 handed_marks (Some 3)) 1 2 (turns.Ready synced) }
    ensures fewer_faults_isnt { (at : Moment)
        → ¬ Turns 1 (faulted 3 (drive_at 33 (Some (dp 11)))) (drive_at 34 (Some (dp 11))) (before_flush at)
        (after_flush at 34 handed_marks (Some 3)) 1 2 (turns.Ready synced) }
    ensures mark_missing_turn_isnt { (at : Moment)
        → ¬ Turns 1 (drive_at 33 (Some (dp 11))) (drive_at 34 (Some (dp 11))) (before_flush at)
        (after_flush at 34 waiting_marks (Some 3)) 1 2 (turns.Ready synced) }
    ensures on_missing_turn_isnt { (at : Moment)
        → ¬ Turns 1 (drive_at 33 (Some (dp 11))) (drive_at 34 (Some (dp 11))) (before_flush at)
        (after_flush at 34 handed_marks None) 1 2 (turns.Ready synced) }
    ensures rest_turn_is { (at : Moment)
        → DrainsOnce 1 (drive_at 30 (Some (dp 22))) (drive_at 32 (Some (dp 23))) (draining_view at)
        (rested_view at) 1 drained.Room }
    ensures sync_told_is { (at : Moment)
        → DrainsOnce 1 (drive_at 30 None) (drive_at 32 None) (both_view at)
        (sync_failed_view at done) 2 drained.More }
    ensures reply_changed_isnt { (at : Moment)
        → ¬ DrainsOnce 1 (drive_at 30 None) (drive_at 32 None) (both_view at)
        (sync_failed_view at synced) 2 drained.More }
    ensures drain_is { (at : Moment)
        → Submits (drive_at 0 None) (drive_at 30 None) (before_write at 65)
        (put_off (before_write at 65)) 1 0 submitted.Drain }
    ensures sync_is { (at : Moment)
        → Submits (drive_at 0 None) (drive_at 30 None) (before_third at Sync) (placed_third at Sync sync_added) 1 2
        (submitted.Wait 2) }
    ensures syncs_first_isnt { (at : Moment)
        → ¬ Submits (drive_at 0 None) (drive_at 30 None) (before_third at Sync)
        (placed_third at Sync syncs_first) 1 2 (submitted.Wait 2) }
    ensures write_waits_isnt { (at : Moment)
        → ¬ Submits (drive_at 0 None) (drive_at 30 None) (before_third at (write (codes "d")))
        (placed_third at (write (codes "d")) (Syncs 2 ∷ [])) 1 2 (submitted.Wait 2) }
    ensures read_syncs_isnt { (at : Moment)
        → ¬ Submits (drive_at 0 None) (drive_at 30 None) (before_third at read)
        (placed_third at read (Syncs 2 ∷ [])) 1 2 (submitted.Wait 2) }
    ensures on_tape_is { IsOnTape (holding (Block (codes "hello"))) (Some (Put (dp 0) (codes "hello")))
        (Worked (dp 0) None) }
    ensures other_on_tape_isnt { ¬ IsOnTape (holding (Block (codes "world"))) (Some (Put (dp 0) (codes "hello")))
        (Worked (dp 0) None) }
    ensures drain_at_64_isnt { (at : Moment)
        → ¬ Submits (drive_at 0 None) (drive_at 30 None) (before_write at 64)
        (put_off (before_write at 64)) 1 0 submitted.Drain }
{}

/// Closes that the definitions accept, and closes that are damaged in one way.
pub fn the_definitions_tell_closes()
    ensures full_is { (at : Moment)
        → IsEnd by_reference (drive_at 0 None) (drive_at 30 None) (drive_at 30 None) (last_generation at) 30 at
        (ends.Full (2 ^ 62 + 1) (2 ^ 62)) }
    ensures full_with_command_isnt { (at : Moment)
        → ¬ IsEnd by_reference (drive_at 0 None) (drive_at 30 None) (drive_at 31 None) (last_generation at) 31 at
        (ends.Full (2 ^ 62 + 1) (2 ^ 62)) }
    ensures done_is { (at : Moment)
        → IsEnd by_reference (telling 2) (telling 2) (telling 2) (untouched at) 30 at (ends.Done 1) }
    ensures another_generation_isnt { (at : Moment)
        → ¬ IsEnd by_reference (telling 2) (telling 2) (telling 2) (untouched at) 30 at (ends.Done 2) }
    ensures unlike_isnt { (at : Moment)
        → ¬ IsDoneClose (alike_below 3) (telling 2) (telling 4) (mounted at) (numbered 2) (numbered 4) 1 1 }
    ensures left_apart_is { (at : Moment)
        → IsDoneClose (alike_below 0) (telling 2) (telling 2) (mounted at) (numbered 2) (numbered 2) 1 1 }
    ensures nodes_are { TellsNodes (ends.Done 1) (numbered 4) 0 }
    ensures other_nodes_isnt { ¬ TellsNodes (ends.Done 1) (numbered 4) 1 }
    ensures starts_is { (at : Moment)
        → Starts by_reference (telling 2) (mounted at) 30 [] 0 (Some at) (Some at) (just_begun at 30) }
    ensures other_moment_isnt { (at : Moment)
        → ¬ Starts by_reference (telling 2) (mounted at) 30 [] 0 None (Some at) (just_begun at 30) }
    ensures unsound_isnt { (at : Moment)
        → ¬ IsDoneClose (honest_below 3) (telling 2) (telling 4) (mounted at) (numbered 2) (numbered 4) 1 1 }
{}

/// Closes of a volume that was mounted as sealed: done as it was mounted, without a command, and nothing else. One that
/// wasn't doesn't end so where an index is due.
pub fn the_definitions_tell_sealed_closes()
    ensures sealed_is { (at : Moment)
        → IsEnd by_reference (telling 2) (telling 2) (telling 2) (sealed at) 30 at (ends.Done 1) }
    ensures untold_is { (at : Moment)
        → IsEnd by_reference (drive_at 0 None) (drive_at 30 None) (drive_at 30 None) (sealed at) 30 at (ends.Done 9) }
    ensures another_generation_isnt { (at : Moment)
        → ¬ IsEnd by_reference (telling 2) (telling 2) (telling 2) (sealed at) 30 at (ends.Done 2) }
    ensures with_command_isnt { (at : Moment)
        → ¬ IsEnd by_reference (telling 2) (telling 2) (telling 2) (sealed at) 31 at (ends.Done 1) }
    ensures another_cartridge_isnt { (at : Moment)
        → ¬ IsEnd by_reference (telling 2) (telling 2) (telling 3) (sealed at) 30 at (ends.Done 1) }
    ensures unsure_isnt { (at : Moment)
        → ¬ IsEnd by_reference (telling 2) (telling 2) (leaving_another 2) (sealed at) 30 at (ends.Done 1) }
    ensures full_isnt { (at : Moment) (need limit : ℕ)
        → ¬ IsEnd by_reference (telling 2) (telling 2) (telling 2) (sealed at) 30 at (ends.Full need limit) }
    ensures fault_isnt { (at : Moment) (counts : Twin)
        → ¬ IsEnd by_reference (telling 2) (telling 2) (telling 2) (sealed at) 30 at (ends.Fault counts) }
    ensures no_memory_isnt { (at : Moment)
        → ¬ IsEnd by_reference (telling 2) (telling 2) (telling 2) (sealed at) 30 at ends.NoMemory }
    ensures without_index_isnt { (at : Moment) (state : LockState)
        → was_sealed (mounted_under state false at).fixed.mounted.index ≡ false
        → ¬ IsEnd by_reference (telling 2) (telling 2) (telling 2) (mounted_under state false at) 30 at (ends.Done 1) }
{}

/// Blocks that no read asks for, and a write that is placed while too many ops stand.
pub fn the_definitions_tell_asking()
    ensures block_of_write_isnt { (at : Moment)
        → ¬ AreOfReads (calls_of_one twice_written) (four_done at) (Wants 0 (dp 5) ∷ []) }
    ensures blocks_are { (at : Moment)
        → blocks_of (standing (small_volume at twice_written) None (four_done at) 1) (Some read) ≡ dp 7 ∷ [] }
    ensures unneeded_block_isnt { (at : Moment)
        → ¬ AreNeeded (small_volume at twice_written) None (four_done at) (Wants 1 (dp 9) ∷ []) }
    ensures unasked_block_isnt { (at : Moment) → ¬ AreAsked (small_volume at twice_written) None (four_done at) [] }
    ensures sync_before_op_isnt { (at : Moment)
        → ¬ AreGrouped (small_volume at twice_written) None (four_done at) (Syncs 1 ∷ queues 7 1) }
    ensures drained_write_is { (at : Moment) → ArePutOff (long_volume at) None (take 2 (four_done at)) drained_by_one }
    ensures late_write_isnt { (at : Moment) → ¬ ArePutOff (long_volume at) None (take 2 (four_done at)) (queues 7 66) }
{}

/// Where no head step fails and nothing is over its limit, the replies are those of a plain run.
pub fn plain_runs_are_served()
    ensures replies_are_plain { (g : Given) (on : Option ℕ) (history : List Placed) (answered : List Reply)
        → IsNeverOver g on history
        → AreReplies g on history [] (map Some answered)
        → sessions.AreReplies g.calls (sessions.IsPlainReply g.calls g.tree) history answered }
    ensures plain_replies_are { (g : Given) (on : Option ℕ) (history : List Placed) (answered : List Reply)
        → IsNeverOver g on history
        → sessions.AreReplies g.calls (sessions.IsPlainReply g.calls g.tree) history answered
        → AreReplies g on history [] (map Some answered) }
{}

/// A volume of which nothing was asked yet is served rightly.
pub fn a_volume_begins_served()
    ensures { (fixed : Fixed ℕ) (next : Option Moment)
        → IsServed by_reference (drive_at 0 None) (drive_at 0 None) (begun fixed next) }
{}

/// What a crash leaves that the theory of crashes calls fine is what the promise on crashes asks of an image.
#[tactic(auto, using(crate::proofs::ServingPromise::FineLaw::fine_cartridges_stand))]
pub fn fine_cartridges_keep_the_promise()
    ensures { FineCartridgesStand }
{}
