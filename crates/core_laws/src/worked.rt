ghost use Rattle.std.specs.Prelude.{◌≡◌, codes, [], ◌∷◌, None};
ghost use Rattle.model_laws.specs.Plans.{led_by};
ghost use Rattle.ctrl_model.specs.declared.commands.Command.TheVariants.{Hello, Compact};
ghost use Rattle.ctrl_model.specs.declared.kinds.Kind.TheVariants as kind;
ghost use Rattle.ctrl_model.specs.declared.replies.Reply.TheVariants.{Empty, Done};
ghost use Rattle.ctrl_model.specs.State.{start};
ghost use Rattle.entity_store.specs.EntityTables.{no_entities};
ghost use Rattle.ctrl_core.specs.OtherCommands.{reply_alone};
ghost use Rattle.ctrl_core.specs.Changes.{after_change};
ghost use Rattle.core_stores.specs.StoredState.{state_of};
ghost use Rattle.ctrl_model.specs.WorkedStates.{carrying};
ghost use Rattle.fabric_graph.specs.FabricTables.{no_links};
ghost use Rattle.policy_store.specs.PolicyTables.{no_policies};
ghost use Rattle.circuits.specs.CircuitTables.{no_circuits};
ghost use Rattle.terminators.specs.TermTables.{no_terminators};
ghost use Rattle.core_laws.specs.WorkedChanges.{ann_dials, with_dial};
ghost use Rattle.core_laws.specs.WorkedRows.{any_claim};
ghost use Rattle.intercepts.specs.declared.changes.InterceptChange.TheVariants as claim;
ghost use Rattle.core_stores.specs.declared.changes.Change.TheVariants.{Entity, Policy, Link, Intercept};
ghost use Rattle.entity_store.specs.declared.changes.EntityChange.TheVariants.{Add, Remove};
ghost use Rattle.fabric_graph.specs.declared.changes.LinkChange.TheVariants.{SetLeast};
ghost use Rattle.policy_store.specs.declared.changes.PolicyChange.TheVariants as policy;

/// Stores without records, and with the serial 0, stand for the state at the start. What is replied to the commands that touch no record.
pub fn worked_starts()
    ensures state { state_of (record { entities = no_entities; policies = no_policies; fabric = no_links; terminators = no_terminators; circuits = no_circuits; grants = record { dial = []; bind = []; identity_router = []; service_router = [] }; intercepts = []; serial = 0 }) ≡ start }
    ensures hello { reply_alone Hello ≡ Empty }
    ensures compact { reply_alone Compact ≡ Done }
{}

/// A change of each family, made in a small state: an entity comes, and a deleted one leaves the sides of policies.
pub fn worked_changes()
    ensures nothing { led_by after_change None start ≡ start }
    ensures add { after_change (Entity (Add kind.Identity (codes "ann") [])) start ≡ record start { identities = record { rows = (1, record { name = codes "ann"; attributes = [] }) ∷ []; next = 2 } } }
    ensures least { after_change (Link (SetLeast 20)) start ≡ record start { least_router_cost = 20 } }
    ensures forget { after_change (Entity (Remove kind.Identity 1 (codes "ann"))) with_dial ≡ record with_dial { service_policies = record { rows = (1, record ann_dials { left = carrying [] }) ∷ []; next = 2 } } }
    ensures other_kind { after_change (Entity (Remove kind.Service 1 (codes "ann"))) with_dial ≡ with_dial }
    ensures intercept { after_change (Intercept (claim.Set (record { 0 = 1 }) any_claim)) start ≡ record start { intercepts = (1, any_claim) ∷ [] } }
    ensures policy { after_change (Policy (policy.Remove kind.ServicePolicy 1)) with_dial ≡ record start { service_policies = record { rows = []; next = 2 } } }
{}
