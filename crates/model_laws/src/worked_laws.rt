ghost use Rattle.std.specs.Prelude.{◌≡◌, ◌≤◌, ◌<◌, ℕ, codes, true, false, [], ◌∷◌, None, Some};
ghost use Rattle.ctrl_model.specs.declared.kinds.Kind.TheVariants as kind;
ghost use Rattle.ctrl_model.specs.declared.commands.Command.TheVariants.{DeleteIdentity, CreateRouter, SetLeastRouterCost, UpdateTerminator, ShowCounts, ClearIntercept};
ghost use Rattle.ctrl_model.specs.declared.kinds.Precedence.TheVariants.{Normal};
ghost use Rattle.ctrl_model.specs.declared.kinds.Relation.TheVariants.{Dial, ServiceRouter};
ghost use Rattle.ctrl_model.specs.declared.kinds.Semantic.TheVariants.{AnyOf};
ghost use Rattle.ctrl_model.specs.declared.refusals.Field.TheVariants as field;
ghost use Rattle.ctrl_model.specs.Words.{word_of};
ghost use Rattle.ctrl_model.specs.Membership.{Among};
ghost use Rattle.ctrl_model.specs.Numbered.{at, numbers, with_at, Between};
ghost use Rattle.ctrl_model.specs.State.{start};
ghost use Rattle.ctrl_model.specs.Networks.{network_of, link_cost};
ghost use Rattle.ctrl_model.specs.PlainPaths.{IsPlainPath};
ghost use Rattle.ctrl_model.specs.Choices.{Candidate, precedes};
ghost use Rattle.model_laws.specs.ClaimedRoutes.{has_small_costs};
ghost use Rattle.model_laws.specs.TouchedTables.{Added, Changed, Deleted, Setting, OneIntercept, Nothing, touched_by, forgetting, put_back};
ghost use Rattle.model_laws.specs.WorkedIntercepts.{two_dialled, with_hosts};
ghost use Rattle.ctrl_model.specs.ValidState.{ValidState, is_valid_entity, is_valid_router, is_valid_link, is_valid_policy, is_valid_policy_in, is_valid_terminator};
ghost use Rattle.ctrl_model.specs.WorkedStates.{everyone, only, line};

/// The words of some fields.
pub fn words_of_fields()
    ensures type_of_a_policy { word_of field.PolicyType ≡ codes "type" }
    ensures two_words { word_of field.NoTraversal ≡ codes "no_traversal" }
    ensures protocols { word_of field.Protocols ≡ codes "protocols" }
    ensures addresses { word_of field.Addresses ≡ codes "addresses" }
    ensures ports { word_of field.Ports ≡ codes "ports" }
    ensures protocol { word_of field.Protocol ≡ codes "protocol" }
    ensures address { word_of field.Address ≡ codes "address" }
    ensures port { word_of field.Port ≡ codes "port" }
    ensures none { word_of field.Nothing ≡ [] }
{}

/// What stands in a list, and which numbers ascend between two others.
pub fn lists_of_numbers()
    ensures stands { Among {X = ℕ} 2 (1 ∷ 2 ∷ []) }
    ensures stands_not { Among {X = ℕ} 3 (1 ∷ 2 ∷ []) → ⊥ }
    ensures ascend { Between 1 4 ((1, codes "a") ∷ (3, codes "b") ∷ []) }
    ensures twice { Between 1 4 ((1, codes "a") ∷ (1, codes "b") ∷ []) → ⊥ }
    ensures at_the_end { Between 1 3 ((1, codes "a") ∷ (3, codes "b") ∷ []) → ⊥ }
    ensures put_first { with_at 1 (codes "a") ((3, codes "b") ∷ []) ≡ (1, codes "a") ∷ (3, codes "b") ∷ [] }
    ensures put_between { with_at 2 (codes "c") ((1, codes "a") ∷ (3, codes "b") ∷ []) ≡ (1, codes "a") ∷ (2, codes "c") ∷ (3, codes "b") ∷ [] }
    ensures put_last { with_at 4 (codes "c") ((1, codes "a") ∷ (3, codes "b") ∷ []) ≡ (1, codes "a") ∷ (3, codes "b") ∷ (4, codes "c") ∷ [] }
    ensures put_in_place { with_at 3 (codes "c") ((1, codes "a") ∷ (3, codes "b") ∷ []) ≡ (1, codes "a") ∷ (3, codes "c") ∷ [] }
{}

/// Paths of the line in plain words: over both links from end to end, and not there and back first.
pub fn plain_paths_of_a_line()
    ensures both_links { IsPlainPath (network_of line) 1 (1 ∷ 2 ∷ []) 3 }
    ensures no_links { IsPlainPath (network_of line) 2 [] 2 }
    ensures there_and_back { IsPlainPath (network_of line) 1 (1 ∷ 1 ∷ 1 ∷ 2 ∷ []) 3 → ⊥ }
    ensures jumps { IsPlainPath (network_of line) 1 (2 ∷ []) 3 → ⊥ }
    ensures ends_elsewhere { IsPlainPath (network_of line) 1 (1 ∷ []) 3 → ⊥ }
{}

/// The rank of candidates: an earlier precedence first, then a lower total, and links last. The costs of the line are small.
pub fn ranks_and_small_costs()
    ensures precedence { precedes (record { precedence = 1; total = 9; terminator = 2; ingress = 2; links = 2 ∷ [] }) (record { precedence = 2; total = 1; terminator = 1; ingress = 1; links = 1 ∷ [] }) ≡ true }
    ensures total { precedes (record { precedence = 2; total = 1; terminator = 2; ingress = 2; links = 2 ∷ [] }) (record { precedence = 2; total = 9; terminator = 1; ingress = 1; links = 1 ∷ [] }) ≡ true }
    ensures links { precedes (record { precedence = 2; total = 1; terminator = 1; ingress = 1; links = 1 ∷ 9 ∷ [] }) (record { precedence = 2; total = 1; terminator = 1; ingress = 1; links = 2 ∷ [] }) ≡ true }
    ensures itself { precedes (record { precedence = 2; total = 1; terminator = 1; ingress = 1; links = 1 ∷ [] }) (record { precedence = 2; total = 1; terminator = 1; ingress = 1; links = 1 ∷ [] }) ≡ false }
    ensures small { has_small_costs (network_of line) ≡ true }
{}

/// What some commands touch, and what deleting an entity takes out of the policies.
pub fn touched_records()
    ensures deleted { touched_by (DeleteIdentity (codes "ann")) line ≡ Deleted kind.Identity (codes "ann") (Some 1) }
    ensures deletes_none { touched_by (DeleteIdentity (codes "bob")) line ≡ Deleted kind.Identity (codes "bob") None }
    ensures added { touched_by (CreateRouter (codes "r4") [] 0 false) line ≡ Added kind.Router }
    ensures changed { touched_by (UpdateTerminator 1 7 Normal) line ≡ Changed kind.Terminator (Some 1) }
    ensures setting { touched_by (SetLeastRouterCost 7) line ≡ Setting }
    ensures nothing { touched_by ShowCounts line ≡ Nothing }
    ensures intercept { touched_by (ClearIntercept (codes "web")) line ≡ OneIntercept (Some 1) }
    ensures no_intercept { touched_by (ClearIntercept (codes "tea")) line ≡ OneIntercept None }
    ensures put_back_alone { (put_back (OneIntercept (Some 1)) with_hosts two_dialled).intercepts ≡ with_hosts.intercepts }
    ensures goes_with_the_service { numbers (forgetting (Deleted kind.Service (codes "web") (Some 1)) with_hosts).intercepts ≡ 2 ∷ [] }
    ensures forgotten { at (forgetting (Deleted kind.Identity (codes "ann") (Some 1)) line).service_policies.rows 1 ≡ Some (record { name = codes "dial"; relation = Dial; semantic = AnyOf; left = record { all = false; ids = []; attributes = [] }; right = only (codes "web") }) }
    ensures another { at (forgetting (Deleted kind.Identity (codes "bob") None) line).service_policies.rows 1 ≡ Some (record { name = codes "dial"; relation = Dial; semantic = AnyOf; left = only (codes "ann"); right = only (codes "web") }) }
{}

/// Records that no valid state has: each breaks one rule.
pub fn records_of_no_valid_state()
    ensures number_0 { ValidState (record start { identities = record start.identities { next = 0 } }) → ⊥ }
    ensures no_setting { ValidState (record start { least_router_cost = 0 }) → ⊥ }
    ensures number_not_below_next { ValidState (record start { identities = record start.identities { rows = (1, record { name = codes "ann"; attributes = [] }) ∷ [] } }) → ⊥ }
    ensures attribute_twice { is_valid_entity (record { name = codes "ann"; attributes = codes "a" ∷ codes "a" ∷ [] }) ≡ false }
    ensures no_name { is_valid_entity (record { name = []; attributes = [] }) ≡ false }
    ensures router_cost { is_valid_router (record { name = codes "r1"; attributes = []; cost = 65536; through = true; connected = true }) ≡ false }
    ensures one_router { is_valid_link (record { name = codes "l1"; a = 1; b = 1; cost = 1; latency_a = 0; latency_b = 0; up = true }) ≡ false }
    ensures latency { is_valid_link (record { name = codes "l1"; a = 1; b = 2; cost = 1; latency_a = 0; latency_b = 60001; up = true }) ≡ false }
    ensures all_and_a_name { is_valid_policy (record { name = codes "p"; relation = Dial; semantic = AnyOf; left = record { all = true; ids = codes "ann" ∷ []; attributes = [] }; right = everyone }) ≡ false }
    ensures other_relation { is_valid_policy_in kind.ServicePolicy line (record { name = codes "p"; relation = ServiceRouter; semantic = AnyOf; left = everyone; right = everyone }) ≡ false }
    ensures absent_name { is_valid_policy_in kind.ServicePolicy line (record { name = codes "p"; relation = Dial; semantic = AnyOf; left = only (codes "bob"); right = everyone }) ≡ false }
    ensures present_name { is_valid_policy_in kind.ServicePolicy line (record { name = codes "p"; relation = Dial; semantic = AnyOf; left = only (codes "ann"); right = everyone }) ≡ true }
    ensures instance { is_valid_terminator (record { service = 1; router = 1; instance = codes "#"; host = None; cost = 0; precedence = Normal }) ≡ false }
{}
