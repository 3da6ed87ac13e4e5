ghost use Rattle.std.specs.Prelude.{◌≡◌, codes, true, false, [], ◌∷◌, Ok, Err};
ghost use Rattle.ctrl_model.specs.declared.kinds.Kind.TheVariants as kind;
ghost use Rattle.ctrl_model.specs.declared.kinds.Relation.TheVariants.{Dial, Bind, IdentityRouter, ServiceRouter};
ghost use Rattle.ctrl_model.specs.WorkedStates.{carrying};
ghost use Rattle.policy_store.specs.declared.policies.PolicyFault.TheVariants.{Unknown};
ghost use Rattle.policy_store.specs.PolicyTables.{no_policies, policies, next_of, without_policy, with_next, forgetting, left_kind, right_kind, fits};
ghost use Rattle.policy_store.specs.PolicyRules.{found, put_in, put_number};
ghost use Rattle.ctrl_model.specs.State.{start};
ghost use Rattle.policy_store.specs.declared.changes.PolicyChange.TheVariants as change;
ghost use Rattle.policy_store.specs.PolicyChanges.{ruled, with_tables};
ghost use Rattle.policy_store.specs.StepsOfRelations.{only_rise};
ghost use Rattle.policy_store.specs.WorkedPolicies.{dial_web, bind_web, one_policy};

/// The first service policy has the number 1. Each kind has names and numbers of its own, and a removed number is not given
/// again.
pub fn names_and_numbers_of_policies()
    ensures first { put_number kind.ServicePolicy (codes "web-users") true no_policies ≡ 1 }
    ensures second { next_of kind.ServicePolicy one_policy ≡ 2 }
    ensures other_kind { next_of kind.EdgeRouterPolicy one_policy ≡ 1 }
    ensures found { found kind.ServicePolicy (codes "web-users") one_policy ≡ Ok 1 }
    ensures unknown { found kind.EdgeRouterPolicy (codes "web-users") one_policy ≡ Err Unknown }
    ensures no_policy_kind { found kind.Service (codes "web-users") one_policy ≡ Err Unknown }
    ensures removed { policies kind.ServicePolicy (without_policy kind.ServicePolicy 1 one_policy) ≡ [] }
    ensures not_again { next_of kind.ServicePolicy (without_policy kind.ServicePolicy 1 one_policy) ≡ 2 }
    ensures skipped { next_of kind.EdgeRouterPolicy (with_next kind.EdgeRouterPolicy 7 one_policy) ≡ 7 }
{}

/// A policy that takes another's place has its name and number. An `@` name is forgotten on the sides that may name its kind alone.
pub fn replaced_and_forgotten()
    ensures replaced { policies kind.ServicePolicy (put_in kind.ServicePolicy bind_web false one_policy) ≡ (1, bind_web) ∷ [] }
    ensures same_number { put_number kind.ServicePolicy (codes "web-users") false one_policy ≡ 1 }
    ensures identity { policies kind.ServicePolicy (forgetting kind.Identity (codes "ann") one_policy) ≡ (1, record dial_web { left = carrying [] }) ∷ [] }
    ensures service { policies kind.ServicePolicy (forgetting kind.Service (codes "web") one_policy) ≡ (1, record dial_web { right = carrying [] }) ∷ [] }
    ensures no_service { forgetting kind.Service (codes "ann") one_policy ≡ one_policy }
    ensures no_router { forgetting kind.Router (codes "web") one_policy ≡ one_policy }
{}

/// What the sides of each kind of policy name, and what it may grant.
pub fn sides_and_relations()
    ensures service_policy { left_kind kind.ServicePolicy ≡ kind.Identity }
    ensures of_service { right_kind kind.ServicePolicy ≡ kind.Service }
    ensures edge_router_policy { left_kind kind.EdgeRouterPolicy ≡ kind.Identity }
    ensures of_router { right_kind kind.EdgeRouterPolicy ≡ kind.Router }
    ensures service_edge_router_policy { left_kind kind.ServiceEdgeRouterPolicy ≡ kind.Service }
    ensures also_of_router { right_kind kind.ServiceEdgeRouterPolicy ≡ kind.Router }
    ensures dial { fits kind.ServicePolicy Dial ≡ true }
    ensures bind { fits kind.ServicePolicy Bind ≡ true }
    ensures no_bind { fits kind.EdgeRouterPolicy Bind ≡ false }
    ensures identity_router { fits kind.EdgeRouterPolicy IdentityRouter ≡ true }
    ensures service_router { fits kind.ServiceEdgeRouterPolicy ServiceRouter ≡ true }
    ensures no_service_router { fits kind.ServicePolicy ServiceRouter ≡ false }
{}

/// The changes of policies: a new one has the next number, one that replaces it has its number, and one that goes leaves its number
/// behind.
pub fn changes_of_policies()
    ensures add { ruled (change.Add kind.ServicePolicy dial_web) start ≡ with_tables one_policy start }
    ensures replace { ruled (change.Replace kind.ServicePolicy 1 bind_web) (with_tables one_policy start) ≡ record start { service_policies = record { rows = (1, bind_web) ∷ []; next = 2 } } }
    ensures remove { ruled (change.Remove kind.ServicePolicy 1) (with_tables one_policy start) ≡ record start { service_policies = record { rows = []; next = 2 } } }
{}

/// Steps that only go up take from no count. One step down takes from one.
pub fn steps_that_rise()
    ensures none { only_rise [] ≡ true }
    ensures up { only_rise (record { a = 1; b = 2; up = true } ∷ []) ≡ true }
    ensures one_down { only_rise (record { a = 1; b = 2; up = true } ∷ record { a = 1; b = 3; up = false } ∷ []) ≡ false }
{}
