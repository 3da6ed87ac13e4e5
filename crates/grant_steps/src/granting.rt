ghost use Rattle.std.specs.Prelude.{◌≡◌, ◌++◌, ◌&&◌, true, cond, Some, None, IfOk, OnOk, option_map};
ghost use Rattle.ctrl_model.specs.Grants.{same_relation, policies_for};
ghost use Rattle.entity_store.specs.EntityTables.{is_entity_kind, entities};
ghost use Rattle.policy_store.specs.PolicyTables.{no_policies, fits};
ghost use Rattle.grant_moves.specs.EntitySides.{own_side, other_rows, matches_if, members_of};
ghost use Rattle.grant_moves.specs.GrantTurns.{turn_of, turns_of, cross_of};
ghost use Rattle.grant_steps.specs.GrantChanges.{granting_state, entity_if, stands_in, AreStepsAt, StepsOfEntity, ArePolicyStepsAt, StepsOfPolicy};
ghost use Rattle.grant_steps.specs.GrantKinds.{left_kind_of, right_kind_of, other_kind, policy_kind};

use crate::membership::members;
use ctrl_model::{Kind, Name, Names, Numbers, Relation, Semantic, Side};
use entity_store::Entities;
use grant_denorm::{Cross, Delta, Turn, deltas_entity, deltas_policy};
use policy_store::{GrantSteps, Policies, Policy};
use record_tables::NamedTable;
use role_expr::matches;
use std::alloc::{AllocError, Global};
use std::marker::Model;

/// An entity, with its attributes before a change and after it. Contracts see the entity before and after, absent where it is
/// not there.
#[derive(Drop)]
pub struct Moved<'a> {
    name: &'a Name,
    before: Option<&'a Names>,
    after: Option<&'a Names>,
}

impl<'a> Model for Moved<'a> {
    ghost use Rattle.std.specs.Prelude.{option_map};
    ghost use Rattle.grant_steps.specs.GrantChanges.{MovedEntity, entity_if};

    ghost Value = { MovedEntity };

    ghost view = { λ m. record { before = entity_if m.name.now (option_map (λ a. a.now) m.before); after = entity_if m.name.now (option_map (λ a. a.now) m.after) } };
}

impl<'a> Moved<'a> {
    /// An entity that comes with some attributes.
    pub fn coming(name: &'a Name, attributes: &'a Names) -> Self
        ensures { result ≡ record { before = None; after = Some (record { name = name.now; attributes = attributes.now }) } }
    {
        Moved {
            name,
            before: None,
            after: Some(attributes),
        }
    }

    /// An entity whose attributes are replaced.
    pub fn described(name: &'a Name, before: &'a Names, after: &'a Names) -> Self
        ensures { result ≡ record { before = Some (record { name = name.now; attributes = before.now }); after = Some (record { name = name.now; attributes = after.now }) } }
    {
        Moved {
            name,
            before: Some(before),
            after: Some(after),
        }
    }

    /// An entity that goes.
    pub fn going(name: &'a Name, attributes: &'a Names) -> Self
        ensures { result ≡ record { before = Some (record { name = name.now; attributes = attributes.now }); after = None } }
    {
        Moved {
            name,
            before: Some(attributes),
            after: None,
        }
    }

    // Whether a side matches the entity before the change.
    fn was_matched(&self, side: &Side, semantic: Semantic) -> bool
        ensures { result ≡ matches_if side.now semantic self.now.before }
    {
        is_matched(side, semantic, self.name, self.before)
    }

    // Whether a side matches the entity after the change.
    fn is_matched(&self, side: &Side, semantic: Semantic) -> bool
        ensures { result ≡ matches_if side.now semantic self.now.after }
    {
        is_matched(side, semantic, self.name, self.after)
    }
}

fn is_matched(side: &Side, semantic: Semantic, name: &Name, attributes: Option<&Names>) -> bool
    ensures { result ≡ matches_if side.now semantic (entity_if name.now (option_map (λ a. a.now) attributes.entry)) }
{
    match attributes {
        Some(attributes) => matches(side, semantic, name, attributes),
        None => false,
    }
}

fn is_same(one: Relation, other: Relation) -> bool
    ensures { result ≡ same_relation one other }
{
    match (one, other) {
        (Relation::Dial, Relation::Dial)
        | (Relation::Bind, Relation::Bind)
        | (Relation::IdentityRouter, Relation::IdentityRouter)
        | (Relation::ServiceRouter, Relation::ServiceRouter) => true,
        _ => false,
    }
}

// The kind of the policies that can be of a relation.
fn policy_kind(relation: Relation) -> Kind
    ensures { result ≡ policy_kind relation }
{
    match relation {
        Relation::Dial | Relation::Bind => Kind::ServicePolicy,
        Relation::IdentityRouter => Kind::EdgeRouterPolicy,
        Relation::ServiceRouter => Kind::ServiceEdgeRouterPolicy,
    }
}

// The kinds of entity on the left and on the right of a relation.
fn kinds_of(relation: Relation) -> (Kind, Kind)
    ensures { result ≡ record { 0 = left_kind_of relation; 1 = right_kind_of relation } }
{
    match relation {
        Relation::Dial | Relation::Bind => (Kind::Identity, Kind::Service),
        Relation::IdentityRouter => (Kind::Identity, Kind::Router),
        Relation::ServiceRouter => (Kind::Service, Kind::Router),
    }
}

fn other_kind(relation: Relation, on_left: bool) -> Kind
    ensures { result ≡ other_kind on_left relation }
{
    let (left, right) = kinds_of(relation);
    if on_left { right } else { left }
}

fn stands_in(relation: Relation, kind: Kind) -> Option<bool>
    ensures { result ≡ stands_in relation kind }
{
    match (relation, kind) {
        (Relation::Dial | Relation::Bind | Relation::IdentityRouter, Kind::Identity)
        | (Relation::ServiceRouter, Kind::Service) => Some(true),
        (Relation::Dial | Relation::Bind, Kind::Service)
        | (Relation::IdentityRouter | Relation::ServiceRouter, Kind::Router) => Some(false),
        _ => None,
    }
}

fn own_side(policy: &Policy, on_left: bool) -> &Side
    ensures { result.now ≡ own_side on_left policy.now }
{
    if on_left { &policy.left } else { &policy.right }
}

// The members of a side of a policy.
fn members_of(
    alloc: Global,
    known: &Entities,
    policy: &Policy,
    on_left: bool,
    kind: Kind,
) -> Result<Numbers, AllocError>
    requires { is_entity_kind kind ≡ true }
    ensures { IfOk result (λ ns. ns ≡ members_of (own_side on_left policy.now) policy.now.semantic (entities kind known.now)) }
{
    members(
        alloc,
        own_side(policy, on_left),
        policy.semantic,
        kind,
        known,
    )
}

// Puts the turn of one policy for an entity behind the others, if it makes one.
fn push_turn(
    turns: &mut Vec<Turn>,
    known: &Entities,
    relation: Relation,
    on_left: bool,
    policy: &Policy,
    moved: &Moved,
) -> Result<(), AllocError>
    ensures { OnOk result (turns.new.items ≡ turns.old.items
        ++ turn_of relation on_left moved.now.before moved.now.after (entities (other_kind on_left relation) known.now) policy.now) }
{
    if !is_same(relation, policy.relation) {
        return Ok(());
    }
    let side = own_side(policy, on_left);
    let was = moved.was_matched(side, policy.semantic);
    let is = moved.is_matched(side, policy.semantic);
    if was == is {
        return Ok(());
    }
    let alloc = *turns.allocator();
    let partners = members_of(
        alloc,
        known,
        policy,
        !on_left,
        other_kind(relation, on_left),
    )?;
    turns.push(Turn { up: is, partners })?;
    Ok(())
}

// The turns of the policies of a table.
fn turns_in(
    alloc: Global,
    table: &NamedTable<Policy>,
    known: &Entities,
    relation: Relation,
    on_left: bool,
    moved: &Moved,
) -> Result<Vec<Turn>, AllocError>
    ensures { IfOk result (λ ts. ts.items ≡ turns_of relation on_left moved.now.before moved.now.after (entities (other_kind on_left relation) known.now) table.now.rows) }
{
    let mut turns = Vec::new(alloc);
    'policies: for (_, policy) in table.rows() {
        push_turn(&mut turns, known, relation, on_left, policy, moved)?;
    }
    Ok(turns)
}

// The turns of all policies that can be of a relation.
fn turns_of(
    alloc: Global,
    kept: &Policies,
    known: &Entities,
    relation: Relation,
    on_left: bool,
    moved: &Moved,
) -> Result<Vec<Turn>, AllocError>
    ensures { IfOk result (λ ts. ts.items
        ≡ turns_of relation on_left moved.now.before moved.now.after (other_rows on_left relation (granting_state known.now kept.now)) (policies_for relation (granting_state known.now kept.now))) }
{
    match kept.table(policy_kind(relation)) {
        Some(table) => turns_in(alloc, table, known, relation, on_left, moved),
        None => Ok(Vec::new(alloc)),
    }
}

// The steps of a relation's counts where an entity changes.
fn entity_steps_at(
    alloc: Global,
    kept: &Policies,
    known: &Entities,
    relation: Relation,
    kind: Kind,
    number: u32,
    moved: &Moved,
) -> Result<Vec<Delta>, AllocError>
    ensures { IfOk result (λ ds. AreStepsAt (stands_in relation kind) relation number moved.now (granting_state known.now kept.now) ds.items) }
{
    match stands_in(relation, kind) {
        Some(on_left) => {
            let turns = turns_of(alloc, kept, known, relation, on_left, moved)?;
            deltas_entity(alloc, number, on_left, turns.as_slice())
        }
        None => Ok(Vec::new(alloc)),
    }
}

/// The steps that the counts take where an entity of a kind and number changes.
pub fn entity_steps(
    alloc: Global,
    kept: &Policies,
    known: &Entities,
    kind: Kind,
    number: u32,
    moved: &Moved,
) -> Result<GrantSteps, AllocError>
    ensures { IfOk result (StepsOfEntity kind number moved.now (granting_state known.now kept.now)) }
{
    let dial = entity_steps_at(alloc, kept, known, Relation::Dial, kind, number, moved)?;
    let bind = entity_steps_at(alloc, kept, known, Relation::Bind, kind, number, moved)?;
    let identity_router = entity_steps_at(
        alloc,
        kept,
        known,
        Relation::IdentityRouter,
        kind,
        number,
        moved,
    )?;
    let service_router = entity_steps_at(
        alloc,
        kept,
        known,
        Relation::ServiceRouter,
        kind,
        number,
        moved,
    )?;
    Ok(GrantSteps {
        dial,
        bind,
        identity_router,
        service_router,
    })
}

// The product of a policy at a relation, which is empty where it is absent or of another relation.
fn cross_of(
    alloc: Global,
    known: &Entities,
    relation: Relation,
    policy: Option<&Policy>,
) -> Result<Cross, AllocError>
    ensures { IfOk result (λ c. c ≡ cross_of relation (granting_state known.now no_policies) (option_map (λ p. p.now) policy.entry)) }
{
    match policy {
        Some(policy) if is_same(relation, policy.relation) => {
            let (left_kind, right_kind) = kinds_of(relation);
            let left = members_of(alloc, known, policy, true, left_kind)?;
            let right = members_of(alloc, known, policy, false, right_kind)?;
            Ok(Cross { left, right })
        }
        _ => Ok(Cross {
            left: Numbers::of(Vec::new(alloc)),
            right: Numbers::of(Vec::new(alloc)),
        }),
    }
}

fn fits(kind: Kind, relation: Relation) -> bool
    ensures { result ≡ fits kind relation }
{
    match (kind, relation) {
        (Kind::ServicePolicy, Relation::Dial | Relation::Bind)
        | (Kind::EdgeRouterPolicy, Relation::IdentityRouter)
        | (Kind::ServiceEdgeRouterPolicy, Relation::ServiceRouter) => true,
        _ => false,
    }
}

// The steps of a relation's counts where a policy changes.
fn policy_steps_at(
    alloc: Global,
    known: &Entities,
    relation: Relation,
    kind: Kind,
    before: Option<&Policy>,
    after: Option<&Policy>,
) -> Result<Vec<Delta>, AllocError>
    ensures { IfOk result (λ ds. ArePolicyStepsAt (fits kind relation) relation (option_map (λ p. p.now) before.entry) (option_map (λ p. p.now) after.entry) (granting_state known.now no_policies) ds.items) }
{
    if !fits(kind, relation) {
        return Ok(Vec::new(alloc));
    }
    let before = cross_of(alloc, known, relation, before)?;
    let after = cross_of(alloc, known, relation, after)?;
    deltas_policy(alloc, &before, &after)
}

/// The steps that the counts take where a policy of a kind changes.
pub fn policy_steps(
    alloc: Global,
    known: &Entities,
    kind: Kind,
    before: Option<&Policy>,
    after: Option<&Policy>,
) -> Result<GrantSteps, AllocError>
    ensures { IfOk result (StepsOfPolicy kind (option_map (λ p. p.now) before.entry) (option_map (λ p. p.now) after.entry) (granting_state known.now no_policies)) }
{
    let dial = policy_steps_at(alloc, known, Relation::Dial, kind, before, after)?;
    let bind = policy_steps_at(alloc, known, Relation::Bind, kind, before, after)?;
    let identity_router = policy_steps_at(
        alloc,
        known,
        Relation::IdentityRouter,
        kind,
        before,
        after,
    )?;
    let service_router = policy_steps_at(
        alloc,
        known,
        Relation::ServiceRouter,
        kind,
        before,
        after,
    )?;
    Ok(GrantSteps {
        dial,
        bind,
        identity_router,
        service_router,
    })
}
