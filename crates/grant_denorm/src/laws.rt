ghost use Rattle.std.specs.Prelude.{◌≡◌, ℕ, List, IsPermutation};
ghost use Rattle.grant_denorm.specs.declared.deltas.Cross.{Cross};
ghost use Rattle.grant_denorm.specs.declared.deltas.Delta.{Delta};
ghost use Rattle.grant_denorm.specs.PairCounts.{count_of, AreCounts};
ghost use Rattle.grant_denorm.specs.Deltas.{ups, downs, policy_ups, policy_downs};
ghost use Rattle.grant_denorm.specs.MovedCounts.{AreCountsOf, Moves, grants_of};

/// Where the counts are those of a rule, and the counts and the rule take the same steps, the counts are then those of the
/// rule. The order of the steps makes no difference.
pub fn applied_deltas()
    ensures rule { (before after : ℕ → ℕ → ℕ) (old new : List ((ℕ × ℕ) × ℕ)) (ds : List Delta)
        → AreCountsOf before old → Moves (count_of old) (count_of new) ds → Moves before after ds → AreCountsOf after new }
    ensures order { (before after : ℕ → ℕ → ℕ) (ds others : List Delta) → IsPermutation ds others → Moves before after ds → Moves before after others }
{}

/// Counts are told by the count of each pair: there is one list of them.
pub fn one_list_of_counts()
    ensures { (old new : List ((ℕ × ℕ) × ℕ)) → AreCounts old → AreCounts new → ((p q : ℕ) → count_of old p q ≡ count_of new p q) → old ≡ new }
{}

/// The steps of a policy's change lead from what its product before the change grants to what its product after it grants.
pub fn steps_of_a_policy()
    ensures { (before after : Cross) (ds : List Delta) → ((a b : ℕ) → ups ds a b ≡ policy_ups before after a b)
        → ((a b : ℕ) → downs ds a b ≡ policy_downs before after a b) → Moves (grants_of before) (grants_of after) ds }
{}
