ghost use Rattle.session_script.specs.declared.logs.Event.{Event};
ghost use Rattle.std.specs.Prelude.{◌≡◌, ◌↔◌, List, true, false, [], ◌∷◌};
ghost use Rattle.head_queue.specs.EventLaws.Waiting.{is_least, keys, op_key, put_at, request_key, is_at_rest};
ghost use Rattle.head_queue.specs.EventLaws.Load.{StepsLowerTheLoad, TrailsChangeTheLoad, WaitsAreLoad};
ghost use Rattle.head_queue.specs.EventLaws.Trail.{EachIsAllowed, IsTrail, IsCost, is_trail, is_trail_from, after_all};
ghost use Rattle.head_queue.specs.EventLaws.Trail.{owned};
ghost use Rattle.head_queue.specs.EventLaws.Trail.{owned_by, of_call, of_session};
ghost use Rattle.head_queue.specs.EventLaws.Rows.{twin, dp, ip, both_wait, with_op, request, three_requests, two_reads};
ghost use Rattle.head_queue.specs.EventLaws.Rows.{reads_backwards, with_requests, two_faults, one_sync, two_sessions};
ghost use Rattle.head_queue.specs.EventLaws.Rows.{two_sessions_early, placed_on_ip, full_partition, failed_write};
ghost use Rattle.head_queue.specs.EventLaws.Rows.{drained};
ghost use Rattle.head_queue.specs.EventLaws.Rows.{failed_drain, failed_flush, op_out_of_order, read_too_early};
ghost use Rattle.head_queue.specs.EventLaws.Rows.{answered_early};
ghost use Rattle.head_queue.specs.EventLaws.Rows.{answered_late, answered_over_another, op_for_nobody, op_for_a_read};
ghost use Rattle.head_queue.specs.EventLaws.Rows.{op_dropped};
ghost use Rattle.head_queue.specs.EventLaws.Rows.{drains_early, rests_early, wants_what_is_held, read_after_fault};
ghost use Rattle.head_queue.specs.EventLaws.Rows.{ip_after_dp};

/// The trails of worked runs are trails with their costs, and those that are damaged in one way are none.
#[tactic(auto, using(crate::proofs::EventLaws::RowFacts::one_sync_is, crate::proofs::EventLaws::RowFacts::two_sessions_is, crate::proofs::EventLaws::RowFacts::two_sessions_early_is, crate::proofs::EventLaws::RowFacts::placed_on_ip_is, crate::proofs::EventLaws::RowFacts::full_partition_is, crate::proofs::EventLaws::RowFacts::failed_write_is, crate::proofs::EventLaws::RowFacts::drained_is, crate::proofs::EventLaws::RowFacts::failed_drain_is, crate::proofs::EventLaws::RowFacts::failed_flush_is, crate::proofs::EventLaws::RowFacts::op_out_of_order_is_none, crate::proofs::EventLaws::RowFacts::read_too_early_is_none, crate::proofs::EventLaws::RowFacts::answered_early_is_none, crate::proofs::EventLaws::RowFacts::answered_late_is_none, crate::proofs::EventLaws::RowFacts::answered_over_another_is_none, crate::proofs::EventLaws::RowFacts::op_for_nobody_is_none, crate::proofs::EventLaws::RowFacts::op_for_a_read_is_none, crate::proofs::EventLaws::RowFacts::op_dropped_is_none, crate::proofs::EventLaws::RowFacts::drains_early_is_none, crate::proofs::EventLaws::RowFacts::rests_early_is_none, crate::proofs::EventLaws::RowFacts::wants_what_is_held_is_none, crate::proofs::EventLaws::RowFacts::read_after_fault_is_none, crate::proofs::EventLaws::RowFacts::ip_after_dp_is_none, crate::proofs::EventLaws::RowFacts::swept, crate::proofs::EventLaws::RowFacts::backwards, crate::proofs::EventLaws::RowFacts::picks_50, crate::proofs::EventLaws::RowFacts::not_90, crate::proofs::EventLaws::RowFacts::then_90, crate::proofs::EventLaws::RowFacts::earlier_first, crate::proofs::EventLaws::RowFacts::not_the_later, crate::proofs::EventLaws::RowFacts::write_owned, crate::proofs::EventLaws::RowFacts::drain_owned, crate::proofs::EventLaws::RowFacts::each_its_own, crate::proofs::EventLaws::RowFacts::not_anothers, crate::proofs::EventLaws::RowFacts::rests, crate::proofs::EventLaws::RowFacts::sync_before_session, crate::proofs::EventLaws::RowFacts::op_before_request, crate::proofs::EventLaws::RowFacts::request_after_op, crate::proofs::EventLaws::RowFacts::same_partition_first))]
pub fn the_definitions_tell_trails()
    ensures one_sync { IsCost one_sync 6 11 }
    ensures two_sessions { IsCost two_sessions 10 14 }
    ensures two_sessions_early { IsCost two_sessions_early 6 11 }
    ensures placed_on_ip { IsCost placed_on_ip 6 6 }
    ensures full_partition { IsCost full_partition 49 7 }
    ensures failed_write { IsCost failed_write 6 7 }
    ensures drained { IsCost drained 16 7 }
    ensures failed_drain { IsCost failed_drain 2 7 }
    ensures failed_flush { IsCost failed_flush 6 11 }
    ensures op_out_of_order { is_trail op_out_of_order ≡ false }
    ensures read_too_early { is_trail read_too_early ≡ false }
    ensures answered_early { is_trail answered_early ≡ false }
    ensures answered_late { is_trail answered_late ≡ false }
    ensures answered_over_another { is_trail answered_over_another ≡ false }
    ensures op_for_nobody { is_trail op_for_nobody ≡ false }
    ensures op_for_a_read { is_trail op_for_a_read ≡ false }
    ensures op_dropped { is_trail op_dropped ≡ false }
    ensures drains_early { is_trail drains_early ≡ false }
    ensures rests_early { is_trail rests_early ≡ false }
    ensures wants_what_is_held { is_trail wants_what_is_held ≡ false }
    ensures read_after_fault { is_trail read_after_fault ≡ false }
    ensures ip_after_dp { is_trail ip_after_dp ≡ false }
    ensures swept { is_trail_from (with_requests 20 []) two_reads ≡ true }
    ensures backwards { is_trail_from (with_requests 20 []) reads_backwards ≡ false }
    ensures picks_50 { is_least (request_key (dp 30) (request 3 50 2)) (keys (with_requests 30 three_requests)) ≡ true }
    ensures not_90 { is_least (request_key (dp 30) (request 1 90 0)) (keys (with_requests 30 three_requests)) ≡ false }
    ensures then_90 { is_least (request_key (dp 51) (request 1 90 0))
        (keys (with_requests 51 (request 1 90 0 ∷ request 2 20 1 ∷ []))) ≡ true }
    ensures earlier_first { is_least (request_key (dp 30) (request 1 50 0))
        (keys (with_requests 30 (request 1 50 0 ∷ request 2 50 1 ∷ []))) ≡ true }
    ensures not_the_later { is_least (request_key (dp 30) (request 2 50 1))
        (keys (with_requests 30 (request 1 50 0 ∷ request 2 50 1 ∷ []))) ≡ false }
    ensures write_owned { owned failed_write ≡ (of_call 2, twin 0 1) ∷ [] }
    ensures drain_owned { owned failed_drain ≡ (of_session 1, twin 0 1) ∷ [] }
    ensures each_its_own { owned two_faults ≡ (of_call 2, twin 0 1) ∷ (of_call 3, twin 1 2) ∷ [] }
    ensures not_anothers { owned_by (of_call 3) failed_write ≡ [] }
    ensures rests { is_at_rest (after_all one_sync) ≡ true }
    ensures sync_before_session { owned both_wait ≡ (of_call 3, twin 0 1) ∷ (of_session 2, twin 1 2) ∷ [] }
    ensures op_before_request { is_least (op_key (dp 30) (put_at (dp 50))) (keys (with_op (dp 30) (dp 50))) ≡ true }
    ensures request_after_op { is_least (request_key (dp 30) (request 1 50 0)) (keys (with_op (dp 30) (dp 50)))
        ≡ false }
    ensures same_partition_first { is_least (request_key (ip 3) (record { ticket = 1; place = ip 2; arrival = 0 }))
        (op_key (ip 3) (put_at (dp 5)) ∷ request_key (ip 3) (record { ticket = 1; place = ip 2; arrival = 0 })
        ∷ []) ≡ true }
{}

/// A trail is a list of which each event may come in the state that the events before it leave.
#[tactic(auto, using(crate::proofs::EventLaws::TrailLaw::trails_allow_each))]
pub fn trails_allow_each_event()
    ensures { (events : List Event) → IsTrail events ↔ EachIsAllowed events }
{}

/// Each step of the head takes one away at least of the requests, the ops that stand, the syncs that wait and the
/// sessions that drain, and no answer adds to them. So a request waits for no more steps than there were of these when
/// it came, and that submissions have added since.
#[tactic(auto, using(crate::proofs::EventLaws::LoadLaw::steps_lower_the_load))]
pub fn each_step_lowers_the_load()
    ensures { StepsLowerTheLoad }
{}

/// So a trail takes one away for each of its steps at least, and adds one at most for each event of a submission; and
/// while a block or a flush has to come for a call, something is left.
#[tactic(auto, using(crate::proofs::EventLaws::LoadLaw::trails_change_the_load, crate::proofs::EventLaws::LoadLaw::waits_are_load))]
pub fn loads_bound_what_waits()
    ensures trails { TrailsChangeTheLoad }
    ensures waits { WaitsAreLoad }
{}
