ghost use Rattle.std.specs.Prelude.{◌≡◌, codes, true, false, ◌∷◌, [], Ok, Err};
ghost use Rattle.ctrl_model.specs.declared.commands.Command.TheVariants.{DeleteEdgeRouterPolicy, DeleteService};
ghost use Rattle.ctrl_model.specs.declared.kinds.Kind.TheVariants as kind;
ghost use Rattle.ctrl_model.specs.WorkedStates.{only};
ghost use Rattle.entity_store.specs.EntityTables.{no_entities};
ghost use Rattle.entity_store.specs.WorkedTables.{ann};
ghost use Rattle.policy_store.specs.declared.policies.PolicyFault.TheVariants.{Exists, Unknown, UnknownRef, Full};
ghost use Rattle.policy_store.specs.PolicyTables.{no_policies, with_next};
ghost use Rattle.policy_store.specs.WorkedPolicies.{dial_web, bind_web, one_policy};
ghost use Rattle.policy_commands.specs.PolicyPlans.{is_policy_command};
ghost use Rattle.policy_commands.specs.PutPolicies.{may_put};
ghost use Rattle.policy_commands.specs.WorkedPutting.{ann_and_web};

/// Whether a policy of ann and web may be put: a taken name comes before absent `@` names, those of the left side before those of
/// the right one, and last a full kind, which stops no update.
pub fn what_may_be_put()
    ensures may { may_put kind.ServicePolicy dial_web true no_policies ann_and_web ≡ Ok tt }
    ensures taken { may_put kind.ServicePolicy dial_web true one_policy no_entities ≡ Err Exists }
    ensures unknown { may_put kind.ServicePolicy dial_web false no_policies no_entities ≡ Err Unknown }
    ensures left_first { may_put kind.ServicePolicy dial_web true no_policies no_entities ≡ Err (UnknownRef false 0) }
    ensures right { may_put kind.ServicePolicy dial_web true no_policies ann ≡ Err (UnknownRef true 0) }
    ensures second_name { may_put kind.ServicePolicy (record bind_web { right = record (only (codes "web")) { ids = codes "web" ∷ codes "mail" ∷ [] } }) true no_policies ann_and_web ≡ Err (UnknownRef true 1) }
    ensures no_router { may_put kind.EdgeRouterPolicy dial_web true no_policies ann_and_web ≡ Err (UnknownRef true 0) }
    ensures full { may_put kind.ServicePolicy dial_web true (with_next kind.ServicePolicy 4294967295 no_policies) ann_and_web ≡ Err (Full kind.ServicePolicy) }
    ensures replaced { may_put kind.ServicePolicy bind_web false (with_next kind.ServicePolicy 4294967295 one_policy) ann_and_web ≡ Ok tt }
{}

/// Which commands are on policies.
pub fn commands_on_policies()
    ensures policy { is_policy_command (DeleteEdgeRouterPolicy (codes "all")) ≡ true }
    ensures service { is_policy_command (DeleteService (codes "web")) ≡ false }
{}
