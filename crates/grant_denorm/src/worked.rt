ghost use Rattle.std.specs.Prelude.{◌≡◌, [], ◌∷◌, length, true, false};
ghost use Rattle.grant_denorm.specs.PairCounts.{count_of, AreCounts, Raises, Lowers};
ghost use Rattle.grant_denorm.specs.CountsAfter.{count_after, steps_at};
ghost use Rattle.grant_denorm.specs.Deltas.{policy_ups, policy_downs, entity_ups, entity_downs};
ghost use Rattle.grant_denorm.specs.WorkedChanges.{two_pairs, cross, one_and_two, two_and_three, three_turns};

/// The counts of two pairs, and of pairs that are not there.
pub fn counts_of_two_pairs()
    ensures first { count_of two_pairs 1 5 ≡ 2 }
    ensures second { count_of two_pairs 2 7 ≡ 1 }
    ensures neither { count_of two_pairs 1 7 ≡ 0 }
    ensures turned { count_of two_pairs 5 1 ≡ 0 }
    ensures counts { AreCounts two_pairs }
    ensures number { length two_pairs ≡ 2 }
{}

/// A raise of a pair that is there and of one that is not, and a lower of a count of 2 and of the last.
pub fn a_raise_and_a_lower()
    ensures there { Raises two_pairs (((1, 5), 3) ∷ ((2, 7), 1) ∷ []) 1 5 }
    ensures absent { Raises two_pairs (((1, 5), 2) ∷ ((1, 7), 1) ∷ ((2, 7), 1) ∷ []) 1 7 }
    ensures lower { Lowers two_pairs (((1, 5), 1) ∷ ((2, 7), 1) ∷ []) 1 5 }
    ensures last { Lowers two_pairs (((1, 5), 2) ∷ []) 2 7 }
{}

/// A policy whose left members go from 1 and 2 to 2 and 3: the pair of 1 goes, that of 3 comes, and that of 2 stays.
pub fn a_policy_that_moves()
    ensures goes { policy_downs one_and_two two_and_three 1 5 ≡ 1 }
    ensures gone { policy_ups one_and_two two_and_three 1 5 ≡ 0 }
    ensures comes { policy_ups one_and_two two_and_three 3 5 ≡ 1 }
    ensures come { policy_downs one_and_two two_and_three 3 5 ≡ 0 }
    ensures stays_down { policy_downs one_and_two two_and_three 2 5 ≡ 0 }
    ensures stays_up { policy_ups one_and_two two_and_three 2 5 ≡ 0 }
{}

/// A repeat among the members, or another order, gives no second step.
pub fn repeated_members()
    ensures once { policy_ups (cross [] []) (cross (1 ∷ 1 ∷ []) (5 ∷ 5 ∷ [])) 1 5 ≡ 1 }
    ensures again { policy_ups (cross (1 ∷ []) (5 ∷ [])) (cross (1 ∷ 1 ∷ []) (5 ∷ [])) 1 5 ≡ 0 }
    ensures order { policy_ups (cross (1 ∷ 2 ∷ []) (5 ∷ [])) (cross (2 ∷ 1 ∷ []) (5 ∷ [])) 2 5 ≡ 0 }
    ensures repeat_goes { policy_downs (cross (1 ∷ 1 ∷ []) (5 ∷ [])) (cross (1 ∷ []) (5 ∷ [])) 1 5 ≡ 0 }
{}

/// An entity of the number 1 on the left and on the right, which two policies pair with 5, one with 6, and one no more with 7.
pub fn an_entity_on_a_side()
    ensures left_twice { entity_ups 1 true three_turns 1 5 ≡ 2 }
    ensures left_once { entity_ups 1 true three_turns 1 6 ≡ 1 }
    ensures left_down { entity_downs 1 true three_turns 1 7 ≡ 1 }
    ensures left_not_up { entity_ups 1 true three_turns 1 7 ≡ 0 }
    ensures left_alone { entity_ups 1 true three_turns 5 1 ≡ 0 }
    ensures right_twice { entity_ups 1 false three_turns 5 1 ≡ 2 }
    ensures right_down { entity_downs 1 false three_turns 7 1 ≡ 1 }
    ensures right_alone { entity_ups 1 false three_turns 1 5 ≡ 0 }
{}

/// The pair of 1 and 5 has the count 2, and 2 and 7 the count 1: with a step up at the one and a step down at the other.
pub fn counts_after_some_steps()
    ensures up { count_after (record { before = two_pairs; up = ((1, 5), 1) ∷ []; down = ((2, 7), 1) ∷ [] }) 1 5 ≡ 3 }
    ensures down { count_after (record { before = two_pairs; up = ((1, 5), 1) ∷ []; down = ((2, 7), 1) ∷ [] }) 2 7 ≡ 0 }
    ensures none { count_after (record { before = two_pairs; up = ((1, 5), 1) ∷ []; down = ((2, 7), 1) ∷ [] }) 3 3 ≡ 0 }
    ensures ups { steps_at true (record { a = 1; b = 5; up = true } ∷ record { a = 1; b = 5; up = false } ∷ []) 1 5 ≡ 1 }
    ensures downs { steps_at false (record { a = 1; b = 5; up = false } ∷ record { a = 1; b = 5; up = false } ∷ []) 1 5 ≡ 2 }
{}
