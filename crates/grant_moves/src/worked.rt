ghost use Rattle.std.specs.Prelude.{◌≡◌, codes, true, false, [], ◌∷◌, None, Some};
ghost use Rattle.ctrl_model.specs.declared.kinds.Relation.TheVariants.{Dial, Bind, IdentityRouter, ServiceRouter};
ghost use Rattle.ctrl_model.specs.declared.kinds.Semantic.TheVariants.{AnyOf};
ghost use Rattle.ctrl_model.specs.Numbered.{at, with_removed, numbers};
ghost use Rattle.ctrl_model.specs.Grants.{count};
ghost use Rattle.ctrl_model.specs.WorkedStates.{only, carrying, everyone, line, two_policies};
ghost use Rattle.grant_moves.specs.EntitySides.{left_rows, right_rows, own_rows, other_rows, members_of, matches_if};
ghost use Rattle.grant_moves.specs.GrantTurns.{turn_if, turns_of, no_cross, cross_of};
ghost use Rattle.grant_moves.specs.CountMoves.{LeadCounts, ChangesEntity, ChangesPolicy};

/// Who stands on the sides of the relations of a line: one identity, one service, three routers; and whom a side matches.
pub fn sides_of_relations()
    ensures left { numbers (left_rows ServiceRouter line) ≡ 1 ∷ [] }
    ensures right { numbers (right_rows IdentityRouter line) ≡ 1 ∷ 2 ∷ 3 ∷ [] }
    ensures own { numbers (own_rows false ServiceRouter line) ≡ 1 ∷ 2 ∷ 3 ∷ [] }
    ensures other { numbers (other_rows true Dial line) ≡ 1 ∷ [] }
    ensures member { members_of (only (codes "r2")) AnyOf (right_rows IdentityRouter line) ≡ 2 ∷ [] }
    ensures absent { matches_if everyone AnyOf None ≡ false }
{}

/// Two policies let ann dial web: one names her, the other wants the attribute staff, which she has and may lose.
pub fn an_entity_and_its_turns()
    ensures loses_an_attribute { turns_of Dial true (Some (record { name = codes "ann"; attributes = codes "staff" ∷ [] })) (Some (record { name = codes "ann"; attributes = [] })) two_policies.services.rows two_policies.service_policies.rows
        ≡ record { up = false; partners = 1 ∷ [] } ∷ [] }
    ensures goes { turns_of Dial true (Some (record { name = codes "ann"; attributes = codes "staff" ∷ [] })) None two_policies.services.rows two_policies.service_policies.rows
        ≡ record { up = false; partners = 1 ∷ [] } ∷ record { up = false; partners = 1 ∷ [] } ∷ [] }
    ensures comes { turns_of Dial true None (Some (record { name = codes "bob"; attributes = codes "staff" ∷ [] })) two_policies.services.rows two_policies.service_policies.rows
        ≡ record { up = true; partners = 1 ∷ [] } ∷ [] }
    ensures a_service_comes { turns_of Dial false None (Some (record { name = codes "mail"; attributes = [] })) two_policies.identities.rows two_policies.service_policies.rows
        ≡ record { up = true; partners = 1 ∷ [] } ∷ [] }
    ensures another_relation { turns_of Bind true (Some (record { name = codes "ann"; attributes = codes "staff" ∷ [] })) None two_policies.services.rows two_policies.service_policies.rows ≡ [] }
    ensures stays { turn_if true true (1 ∷ []) ≡ [] }
{}

/// The product of a policy: at its relation the members of its sides, at another relation nothing, and nothing where it is absent.
pub fn a_policy_and_its_product()
    ensures product { cross_of Dial two_policies (at two_policies.service_policies.rows 2) ≡ record { left = 1 ∷ []; right = 1 ∷ [] } }
    ensures another_relation { cross_of Bind two_policies (at two_policies.service_policies.rows 2) ≡ no_cross }
    ensures absent { cross_of Dial two_policies (at two_policies.service_policies.rows 3) ≡ no_cross }
    ensures nobody { cross_of Dial two_policies (Some (record { name = codes "p3"; relation = Dial; semantic = AnyOf; left = carrying (codes "guest" ∷ []); right = everyone })) ≡ record { left = []; right = 1 ∷ [] } }
{}

/// Where ann goes, the two policies that let her dial web are two steps down; where the policy that names her goes, that is one.
pub fn changes_of_two_policies()
    ensures an_entity { ChangesEntity Dial true 1 (at two_policies.identities.rows 1) None two_policies (record two_policies { identities = with_removed 1 two_policies.identities }) }
    ensures a_policy { ChangesPolicy Dial 1 (at two_policies.service_policies.rows 1) None two_policies (record two_policies { service_policies = with_removed 1 two_policies.service_policies }) }
    ensures two_steps { LeadCounts (count Dial two_policies) (count Dial (record two_policies { identities = with_removed 1 two_policies.identities })) (record { a = 1; b = 1; up = false } ∷ record { a = 1; b = 1; up = false } ∷ []) }
    ensures one_step { LeadCounts (count Dial two_policies) (count Dial (record two_policies { service_policies = with_removed 1 two_policies.service_policies })) (record { a = 1; b = 1; up = false } ∷ []) }
    ensures one_step_is_too_few { LeadCounts (count Dial two_policies) (count Dial (record two_policies { identities = with_removed 1 two_policies.identities })) (record { a = 1; b = 1; up = false } ∷ []) → ⊥ }
{}
