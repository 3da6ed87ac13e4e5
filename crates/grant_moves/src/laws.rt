ghost use Rattle.std.specs.Prelude.{◌≡◌, ℕ, ◌+◌, ◌*◌, ◌≤◌, Bool, false, List, [], Some, length};
ghost use Rattle.std.specs.declared.option.Option.{Option};
ghost use Rattle.std.specs.Str.{bytes_eq};
ghost use Rattle.ctrl_model.specs.declared.kinds.Relation.{Relation};
ghost use Rattle.ctrl_model.specs.declared.kinds.Kind.TheVariants as kind;
ghost use Rattle.ctrl_model.specs.Limits.{limit, most_number};
ghost use Rattle.ctrl_model.specs.Numbered.{at, map_each, Between};
ghost use Rattle.ctrl_model.specs.State.{State, Entity, Policy};
ghost use Rattle.ctrl_model.specs.Rules.{forget_left, forget_right};
ghost use Rattle.ctrl_model.specs.Grants.{policies_for, left_entity, right_entity, count, granted_pairs};
ghost use Rattle.grant_denorm.specs.declared.deltas.Delta.{Delta};
ghost use Rattle.grant_denorm.specs.PairCounts.{AreCounts};
ghost use Rattle.grant_denorm.specs.Deltas.{ups, downs, policy_ups, policy_downs, entity_ups, entity_downs};
ghost use Rattle.grant_denorm.specs.MovedCounts.{AreCountsOf};
ghost use Rattle.grant_moves.specs.EntitySides.{left_rows, right_rows, other_rows};
ghost use Rattle.grant_moves.specs.GrantTurns.{turns_of, cross_of};
ghost use Rattle.grant_moves.specs.CountMoves.{LeadCounts, ChangesEntity, ChangesPolicy};

/// Where one entity differs between two states, the steps of its turns lead from the counts of the one to those of the other
/// (docs/RULES.md, "Policies and grants").
pub fn entity_changes_lead()
    ensures { (r : Relation) (on_left : Bool) (x : ℕ) (was is : Option Entity) (s t : State) (ds : List Delta) → ChangesEntity r on_left x was is s t
        → ((a b : ℕ) → ups ds a b ≡ entity_ups x on_left (turns_of r on_left was is (other_rows on_left r s) (policies_for r s)) a b)
        → ((a b : ℕ) → downs ds a b ≡ entity_downs x on_left (turns_of r on_left was is (other_rows on_left r s) (policies_for r s)) a b)
        → LeadCounts (count r s) (count r t) ds }
{}

/// Where one policy differs between two states, the steps from its product before to its product after lead from the counts of
/// the one state to those of the other (docs/RULES.md, "Policies and grants").
pub fn policy_changes_lead()
    ensures { (r : Relation) (n : ℕ) (was is : Option Policy) (s t : State) (ds : List Delta) → ChangesPolicy r n was is s t
        → ((a b : ℕ) → ups ds a b ≡ policy_ups (cross_of r s was) (cross_of r s is) a b)
        → ((a b : ℕ) → downs ds a b ≡ policy_downs (cross_of r s was) (cross_of r s is) a b)
        → LeadCounts (count r s) (count r t) ds }
{}

/// Taking the `@` name of an absent entity out of the policies changes no count (docs/RULES.md, "Commands on entities").
pub fn forgotten_names_leave_counts()
    ensures left { (r : Relation) (s t : State) (name : List ℕ) → left_rows r t ≡ left_rows r s → right_rows r t ≡ right_rows r s
        → policies_for r t ≡ map_each (forget_left name) (policies_for r s)
        → ((n : ℕ) (e : Entity) → at (left_rows r s) n ≡ Some e → bytes_eq e.name name ≡ false)
        → (a b : ℕ) → count r t a b ≡ count r s a b }
    ensures right { (r : Relation) (s t : State) (name : List ℕ) → left_rows r t ≡ left_rows r s → right_rows r t ≡ right_rows r s
        → policies_for r t ≡ map_each (forget_right name) (policies_for r s)
        → ((n : ℕ) (e : Entity) → at (right_rows r s) n ≡ Some e → bytes_eq e.name name ≡ false)
        → (a b : ℕ) → count r t a b ≡ count r s a b }
{}

/// Steps that lead to some counts lead to any rule that says the same of each pair.
pub fn leads_to_equal_counts()
    ensures { (before after last : ℕ → ℕ → ℕ) (ds : List Delta) → LeadCounts before after ds → ((a b : ℕ) → after a b ≡ last a b) → LeadCounts before last ds }
{}

/// Where neither the policies nor the entities of a relation differ between two states, no step leads from the counts of the
/// one to those of the other.
pub fn unchanged_counts_lead()
    ensures { (r : Relation) (s t : State) → policies_for r t ≡ policies_for r s → left_rows r t ≡ left_rows r s → right_rows r t ≡ right_rows r s
        → LeadCounts (count r s) (count r t) [] }
{}

/// No count is above the number of policies.
pub fn policies_bound_counts()
    ensures { (r : Relation) (s : State) (a b : ℕ) → count r s a b ≤ length (policies_for r s) }
{}

/// Counts that are those of a relation are as many as the pairs that it grants, and these are at most the pairs that there are.
pub fn granted_pairs_are_counts()
    ensures pairs { (r : Relation) (s : State) (left_high right_high : ℕ) (xs : List ((ℕ × ℕ) × ℕ)) → AreCounts xs → AreCountsOf (count r s) xs
        → Between 1 left_high (left_rows r s) → Between 1 right_high (right_rows r s) → length xs ≡ granted_pairs r s }
    ensures most { (r : Relation) (s : State) → granted_pairs r s ≤ length (left_rows r s) * length (right_rows r s) }
{}

/// With no more policies before and after than there may be service policies, a count has room for all its steps up before any step down:
/// 32 bits hold it.
pub fn counts_have_room()
    ensures { (r : Relation) (s t : State) (ds : List Delta) → LeadCounts (count r s) (count r t) ds
        → length (policies_for r s) ≤ limit kind.ServicePolicy → length (policies_for r t) ≤ limit kind.ServicePolicy → (a b : ℕ) → count r s a b + ups ds a b ≤ most_number }
{}

/// The entity on a side of a relation is the one that stands in the side's rows.
pub fn rows_of_two_sides()
    ensures left { (r : Relation) (s : State) (a : ℕ) → at (left_rows r s) a ≡ left_entity r s a }
    ensures right { (r : Relation) (s : State) (b : ℕ) → at (right_rows r s) b ≡ right_entity r s b }
{}
