//! Partitions by hand, on which the definitions are tried.

ghost use Rattle.std.specs.Prelude.{◌≡◌, [], ◌∷◌, map};
ghost use Rattle.content_laws.specs.Content.{Bad, content};
ghost use Rattle.content_laws.specs.Ends.{EndsWith, EndsWithLast, IsOneAtMost, end_dp, end_ip, kept_on_ip, lead_of};
ghost use Rattle.content_laws.specs.Readings.{after_of, first_of};
ghost use Rattle.content_laws.specs.Worked.{bad_dp, behind_torn, data_ip, empty_dp, first_index, half_dp, labels};
ghost use Rattle.content_laws.specs.Worked.{second_index, synced_dp, torn_behind, torn_dp, torn_ip};

/// The indexes and ends of partitions, also of some as a crash may leave them.
pub fn the_definitions_tell_content()
    ensures labels { (content labels).constructs ≡ [] }
    ensures empty { (content empty_dp).constructs ≡ first_index ∷ [] }
    ensures two { (content synced_dp).constructs ≡ second_index ∷ first_index ∷ [] }
    ensures first { map first_of (content synced_dp).constructs ≡ 9 ∷ 5 ∷ [] }
    ensures after { map after_of (content synced_dp).constructs ≡ 11 ∷ 7 ∷ [] }
    ensures torn { (content torn_dp).constructs ≡ first_index ∷ [] }
    ensures behind_torn { (content behind_torn).constructs ≡ first_index ∷ [] }
    ensures half { (content half_dp).constructs ≡ first_index ∷ [] }
    ensures bad { (content bad_dp).phase ≡ Bad 8 }
    ensures torn_front { (content torn_dp).pos ≡ 10 }
    ensures half_front { (content half_dp).pos ≡ 9 }
    ensures half_lead { lead_of (content half_dp).pos (content half_dp).phase ≡ 8 }
    ensures data_lead { lead_of (content data_ip).pos (content data_ip).phase ≡ 8 }
{}

/// Where the next item goes, and what a partition ends with.
pub fn the_definitions_tell_ends()
    ensures dp_labels { end_dp (content labels).constructs ≡ 4 }
    ensures dp_synced { end_dp (content synced_dp).constructs ≡ 11 }
    ensures dp_half { end_dp (content half_dp).constructs ≡ 7 }
    ensures ip_labels { end_ip (content labels) ≡ 4 }
    ensures ip_index { end_ip (content empty_dp) ≡ 4 }
    ensures ip_second { end_ip (content synced_dp) ≡ 8 }
    ensures ip_data { end_ip (content data_ip) ≡ 8 }
    ensures ip_torn { end_ip (content torn_ip) ≡ 5 }
    ensures ip_kept_index { kept_on_ip (content synced_dp) ≡ first_index ∷ [] }
    ensures ip_kept_data { kept_on_ip (content data_ip) ≡ first_index ∷ [] }
    ensures ip_kept_half { kept_on_ip (content half_dp) ≡ first_index ∷ [] }
    ensures ends { EndsWith synced_dp second_index }
    ensures ends_last { EndsWithLast synced_dp (second_index ∷ first_index ∷ []) }
    ensures ends_torn { ¬ EndsWithLast torn_behind (first_index ∷ []) }
    ensures ends_half { ¬ EndsWithLast half_dp (first_index ∷ []) }
    ensures ends_none { ¬ EndsWithLast labels [] }
    ensures one { IsOneAtMost torn_behind (first_index ∷ []) }
    ensures one_none { IsOneAtMost labels [] }
    ensures one_of_two { ¬ IsOneAtMost synced_dp (second_index ∷ first_index ∷ []) }
    ensures one_data { ¬ IsOneAtMost data_ip (first_index ∷ []) }
{}
