ghost use Rattle.std.specs.Prelude.{◌≡◌, ◌<◌, ◌||◌, ◌++◌, true, false, not, IfOk, OnErr, Err, MatchOption, length, slice_index_or, []};
ghost use Rattle.ctrl_model.specs.SpelledCommands.{is_spelled};
ghost use Rattle.ctrl_model.specs.Controller.{carry};
ghost use Rattle.ctrl_model.specs.RecordCommands.{delete};
ghost use Rattle.ctrl_model.specs.Rules.{refuse_if};
ghost use Rattle.ctrl_model.specs.State.{State};
ghost use Rattle.ctrl_model.specs.ValidState.{ValidState};
ghost use Rattle.ctrl_model.specs.declared.kinds.Kind.TheVariants as kinds;
ghost use Rattle.ctrl_model.specs.declared.refusals.Refusal.TheVariants.{Full, Unknown, UnknownRef};
ghost use Rattle.model_laws.specs.Plans.{refused};
ghost use Rattle.entity_store.specs.AttributeUses.{AreUsed, has_attribute_room};
ghost use Rattle.entity_store.specs.EntityTables.{Tables};
ghost use Rattle.policy_store.specs.PolicyTables.{is_policy_kind};
ghost use Rattle.policy_commands.specs.PolicyStates.{HoldsUses, over};
ghost use Rattle.policy_commands.specs.PolicyPlans.{is_policy_command, is_service_policy_command, is_edge_router_policy_command, is_service_edge_router_policy_command, PlansPolicies, TakesMemory};
ghost use Rattle.policy_commands.specs.PutPolicies.{may_put};
ghost use Rattle.policy_commands.specs.PlannedPolicies.{Answers, AreShort, IsJudged, IsPlaced, ids_of, needs_memory, refusal_for, refusal_to_put, answer_create, answer_replace, roles_field, router_kind};

use crate::parts::PolicyView;
use crate::putting::may_put;
use ctrl_model::{Command, Copies, Field, Kind, Name, Names, Refusal, Relation, Reply};
use entity_store::Entities;
use model_laws::Plan;
use policy_store::{Policies, Policy, PolicyChange, PolicyFault, policy_names};
use std::alloc::{AllocError, Global};

// What a command on policies is judged by.
#[derive(Clone, Copy)]
struct Known<'a> {
    entities: &'a Entities,
    policies: &'a Policies,
}

// The field that gives a side of a kind of policy.
fn roles_field(kind: Kind, right: bool) -> Field
    requires { is_policy_kind kind ≡ true }
    ensures { result ≡ roles_field kind right }
{
    match (kind, right) {
        (Kind::ServicePolicy | Kind::EdgeRouterPolicy, false) => Field::IdentityRoles,
        (Kind::ServicePolicy, true) | (Kind::ServiceEdgeRouterPolicy, false) => Field::ServiceRoles,
        (Kind::EdgeRouterPolicy | Kind::ServiceEdgeRouterPolicy, true) => Field::RouterRoles,
        _ => Field::Nothing,
    }
}

// The `@` names of a side of a policy.
fn ids_of<'a>(policy: &PolicyView<'a>, right: bool) -> &'a [Name]
    ensures { result.now ≡ ids_of right policy.now }
{
    if right {
        policy.right.ids.as_slice()
    } else {
        policy.left.ids.as_slice()
    }
}

// The refusal of the `@` name at a place of a policy's side, which no entity has.
fn unknown_ref(
    kind: Kind,
    policy: &PolicyView,
    right: bool,
    place: u32,
) -> Result<Refusal, AllocError>
    requires kind { is_policy_kind kind ≡ true }
    requires place { place < length (ids_of right policy.now) }
    ensures { IfOk result (λ r. r ≡ UnknownRef (roles_field kind right) (slice_index_or (ids_of right policy.now) place [])) }
{
    let names = ids_of(policy, right);
    let name = names[place as usize].copy()?;
    Ok(Refusal::UnknownRef {
        field: roles_field(kind, right),
        name,
    })
}

// The refusal that a fault of the store is.
fn refusal_for(kind: Kind, policy: &PolicyView, fault: PolicyFault) -> Result<Refusal, AllocError>
    requires kind { is_policy_kind kind ≡ true }
    requires place { IsPlaced fault policy.now }
    ensures refusal { IfOk result (λ r. r ≡ refusal_for kind policy.now fault) }
    ensures memory { OnErr result (needs_memory (Err fault) ≡ true) }
{
    match fault {
        PolicyFault::Exists => Ok(Refusal::Exists),
        PolicyFault::Unknown => Ok(Refusal::Unknown { field: Field::Name }),
        PolicyFault::UnknownRef { right, place } => unknown_ref(kind, policy, right, place),
        PolicyFault::Full(full) => Ok(Refusal::Full { kind: full }),
    }
}

// Whether the attributes of a policy find room, where some uses of attributes go.
fn finds_room(
    alloc: Global,
    entities: &Entities,
    policy: &Policy,
    gone: &Names,
) -> Result<bool, AllocError>
    requires { AreUsed entities.now gone.now }
    ensures { IfOk result (λ yes. yes ≡ has_attribute_room entities.now gone.now (policy.now.left.attributes ++ policy.now.right.attributes)) }
{
    let names = policy_names(alloc, policy)?;
    Ok(entities.has_room(gone, &names))
}

// A policy whose attributes find room, or else its refusal.
fn where_room(policy: Policy, room: bool) -> Result<Policy, Refusal>
    ensures { IsJudged policy (refuse_if (not room) (Full kinds.Attribute)) result }
{
    if room {
        Ok(policy)
    } else {
        Err(Refusal::Full {
            kind: Kind::Attribute,
        })
    }
}

// A copy of a policy that the store does not refuse, where some uses of attributes go, or its refusal.
fn copied_in_room(
    alloc: Global,
    entities: &Entities,
    policy: &PolicyView,
    gone: &Names,
) -> Result<Result<Policy, Refusal>, AllocError>
    requires { AreUsed entities.now gone.now }
    ensures { IfOk result (IsJudged policy.now (refuse_if (not (has_attribute_room entities.now gone.now (policy.now.left.attributes ++ policy.now.right.attributes))) (Full kinds.Attribute))) }
{
    let policy = policy.copied()?;
    let room = finds_room(alloc, entities, &policy, gone)?;
    Ok(where_room(policy, room))
}

// The policy that is put, where some uses of attributes go, or its refusal. It is copied once no rule refuses it that needs no memory.
fn policy_to_put(
    alloc: Global,
    known: &Known,
    kind: Kind,
    policy: &PolicyView,
    fresh: bool,
    gone: &Names,
) -> Result<Result<Policy, Refusal>, AllocError>
    requires kind { is_policy_kind kind ≡ true }
    requires used { AreUsed known.now.entities.now gone.now }
    ensures judged { IfOk result (IsJudged policy.now (refusal_to_put kind policy.now fresh gone.now known.now.policies.now known.now.entities.now)) }
    ensures memory { OnErr result (needs_memory (may_put kind policy.now fresh known.now.policies.now known.now.entities.now) ≡ true) }
{
    match may_put(known.policies, kind, policy, fresh, known.entities) {
        Ok(()) => copied_in_room(alloc, known.entities, policy, gone),
        Err(fault) => Ok(Err(refusal_for(kind, policy, fault)?)),
    }
}

// The plan of a command whose name nothing has.
fn unknown_name() -> Plan<PolicyChange>
    ensures { result ≡ refused (Unknown Field.Name) }
{
    Plan::refused(Refusal::Unknown { field: Field::Name })
}

// Plans to add a policy.
fn plan_create(
    alloc: Global,
    known: &Known,
    kind: Kind,
    policy: &PolicyView,
) -> Result<Plan<PolicyChange>, AllocError>
    requires kind { is_policy_kind kind ≡ true }
    requires short { AreShort policy.now }
    requires held { HoldsUses known.now.entities.now known.now.policies.now }
    ensures plan { IfOk result (Answers (answer_create kind policy.now) known.now.entities.now known.now.policies.now) }
    ensures memory { OnErr result (TakesMemory (answer_create kind policy.now) known.now.entities.now known.now.policies.now) }
{
    let none = Names::of(Vec::new(alloc));
    match policy_to_put(alloc, known, kind, policy, true, &none)? {
        Ok(policy) => {
            let number = known.policies.next(kind);
            let change = PolicyChange::Add { kind, policy };
            Ok(Plan::changed(Reply::Made { no: number }, change))
        }
        Err(refusal) => Ok(Plan::refused(refusal)),
    }
}

// Plans other parts of a policy.
fn plan_replace(
    alloc: Global,
    known: &Known,
    kind: Kind,
    policy: &PolicyView,
) -> Result<Plan<PolicyChange>, AllocError>
    requires kind { is_policy_kind kind ≡ true }
    requires short { AreShort policy.now }
    requires held { HoldsUses known.now.entities.now known.now.policies.now }
    ensures plan { IfOk result (Answers (answer_replace kind policy.now) known.now.entities.now known.now.policies.now) }
    ensures memory { OnErr result (TakesMemory (answer_replace kind policy.now) known.now.entities.now known.now.policies.now) }
{
    let Ok(number) = known.policies.find(kind, policy.name) else {
        return Ok(unknown_name());
    };
    let Some(replaced) = known.policies.get(kind, number) else {
        unreachable!()
    };
    let gone = policy_names(alloc, replaced)?;
    match policy_to_put(alloc, known, kind, policy, false, &gone)? {
        Ok(policy) => {
            let change = PolicyChange::Replace {
                kind,
                number: number.0,
                policy,
            };
            Ok(Plan::changed(Reply::Done, change))
        }
        Err(refusal) => Ok(Plan::refused(refusal)),
    }
}

// Plans that a policy goes.
fn plan_delete(policies: &Policies, kind: Kind, name: &Name) -> Plan<PolicyChange>
    requires { is_policy_kind kind ≡ true }
    ensures { (t : Tables) → Answers (delete kind Field.Name name.now) t policies.now result }
{
    match policies.find(kind, name) {
        Ok(number) => {
            let change = PolicyChange::Remove {
                kind,
                number: number.0,
            };
            Plan::changed(Reply::Done, change)
        }
        Err(_) => unknown_name(),
    }
}

// Plans the answer to a command on service policies. None is a command on something else.
fn plan_service_policy(
    alloc: Global,
    known: &Known,
    command: &Command,
) -> Result<Option<Plan<PolicyChange>>, AllocError>
    requires spelled { is_spelled command.now ≡ true }
    requires held { HoldsUses known.now.entities.now known.now.policies.now }
    ensures plan { IfOk result (λ o. MatchOption o (is_service_policy_command command.now ≡ false)
        (Answers (carry command.now) known.now.entities.now known.now.policies.now)) }
    ensures memory { OnErr result ((is_service_policy_command command.now ≡ true)
        × TakesMemory (carry command.now) known.now.entities.now known.now.policies.now) }
{
    let kind = Kind::ServicePolicy;
    match command {
        Command::CreateServicePolicy {
            name,
            relation,
            semantic,
            identity_roles,
            service_roles,
        } => {
            let policy = PolicyView::of(name, *relation, *semantic, identity_roles, service_roles);
            Ok(Some(plan_create(alloc, known, kind, &policy)?))
        }
        Command::UpdateServicePolicy {
            name,
            relation,
            semantic,
            identity_roles,
            service_roles,
        } => {
            let policy = PolicyView::of(name, *relation, *semantic, identity_roles, service_roles);
            Ok(Some(plan_replace(alloc, known, kind, &policy)?))
        }
        Command::DeleteServicePolicy { name } => Ok(Some(plan_delete(known.policies, kind, name))),
        _ => Ok(None),
    }
}

// The kind of a policy on routers that a command is on, and its relation.
fn router_kind(command: &Command) -> (Kind, Relation)
    ensures { result ≡ router_kind command.now }
{
    match command {
        Command::CreateEdgeRouterPolicy { .. }
        | Command::UpdateEdgeRouterPolicy { .. }
        | Command::DeleteEdgeRouterPolicy { .. } => (
            Kind::EdgeRouterPolicy,
            Relation::IdentityRouter,
        ),
        _ => (Kind::ServiceEdgeRouterPolicy, Relation::ServiceRouter),
    }
}

// Plans the answer to a command on edge-router or service-edge-router policies. None is a command on something else.
fn plan_router_policy(
    alloc: Global,
    known: &Known,
    command: &Command,
) -> Result<Option<Plan<PolicyChange>>, AllocError>
    requires spelled { is_spelled command.now ≡ true }
    requires held { HoldsUses known.now.entities.now known.now.policies.now }
    ensures plan { IfOk result (λ o. MatchOption o ((is_edge_router_policy_command command.now || is_service_edge_router_policy_command command.now) ≡ false)
        (Answers (carry command.now) known.now.entities.now known.now.policies.now)) }
    ensures memory { OnErr result (((is_edge_router_policy_command command.now || is_service_edge_router_policy_command command.now) ≡ true)
        × TakesMemory (carry command.now) known.now.entities.now known.now.policies.now) }
{
    let (kind, relation) = router_kind(command);
    match command {
        Command::CreateEdgeRouterPolicy {
            name,
            semantic,
            identity_roles: left,
            router_roles: right,
        }
        | Command::CreateServiceEdgeRouterPolicy {
            name,
            semantic,
            service_roles: left,
            router_roles: right,
        } => {
            let policy = PolicyView::of(name, relation, *semantic, left, right);
            Ok(Some(plan_create(alloc, known, kind, &policy)?))
        }
        Command::UpdateEdgeRouterPolicy {
            name,
            semantic,
            identity_roles: left,
            router_roles: right,
        }
        | Command::UpdateServiceEdgeRouterPolicy {
            name,
            semantic,
            service_roles: left,
            router_roles: right,
        } => {
            let policy = PolicyView::of(name, relation, *semantic, left, right);
            Ok(Some(plan_replace(alloc, known, kind, &policy)?))
        }
        Command::DeleteEdgeRouterPolicy { name }
        | Command::DeleteServiceEdgeRouterPolicy { name } => {
            Ok(Some(plan_delete(known.policies, kind, name)))
        }
        _ => Ok(None),
    }
}

/// Plans the answer to a command on policies that some body spells: in every valid state with these entities and these policies it
/// is the controller's (docs/RULES.md, "Commands on policies"). The entities hold the uses of attributes of these policies. None is
/// a command on something else. Memory can be wanting only where the answer takes memory: every refusal but that of an absent `@`
/// name and that of too many attributes is told without.
pub fn plan_policy_command(
    alloc: Global,
    entities: &Entities,
    policies: &Policies,
    command: &Command,
) -> Result<Option<Plan<PolicyChange>>, AllocError>
    requires spelled { is_spelled command.now ≡ true }
    requires held { HoldsUses entities.now policies.now }
    ensures plan { IfOk result (λ o. MatchOption o (is_policy_command command.now ≡ false)
        (λ p. (s : State) → ValidState (over entities.now policies.now s)
        → PlansPolicies p (carry command.now (over entities.now policies.now s)) (over entities.now policies.now s))) }
    ensures memory { OnErr result ((is_policy_command command.now ≡ true) × TakesMemory (carry command.now) entities.now policies.now) }
{
    let known = Known { entities, policies };
    if let Some(plan) = plan_service_policy(alloc, &known, command)? {
        return Ok(Some(plan));
    }
    plan_router_policy(alloc, &known, command)
}
