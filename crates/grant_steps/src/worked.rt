ghost use Rattle.std.specs.Prelude.{◌≡◌, codes, [], ◌∷◌};
ghost use Rattle.ctrl_model.specs.declared.kinds.Semantic.TheVariants.{AnyOf, AllOf};
ghost use Rattle.ctrl_model.specs.WorkedStates.{everyone, only, carrying};
ghost use Rattle.grant_steps.specs.Members.{members_of};
ghost use Rattle.grant_steps.specs.WorkedMembers.{two_identities};

/// Ann has red, and bob has red and blue.
pub fn members_of_sides()
    ensures everyone { members_of everyone AnyOf two_identities ≡ 1 ∷ 2 ∷ [] }
    ensures any_of { members_of (carrying (codes "blue" ∷ codes "red" ∷ [])) AnyOf two_identities ≡ 1 ∷ 2 ∷ [] }
    ensures all_of { members_of (carrying (codes "blue" ∷ codes "red" ∷ [])) AllOf two_identities ≡ 2 ∷ [] }
    ensures named { members_of (only (codes "ann")) AllOf two_identities ≡ 1 ∷ [] }
    ensures nothing { members_of (carrying []) AllOf two_identities ≡ [] }
{}
