ghost use Rattle.std.specs.Prelude.{◌≡◌, ◌++◌, cond, [], ◌∷◌, IfOk, OnOk, option_and_then, true};
ghost use Rattle.ctrl_model.specs.Numbered.{at};
ghost use Rattle.entity_store.specs.EntityTables.{is_entity_kind, entities as entities_of};
ghost use Rattle.policy_advisor.specs.Advice.{dial_marks, grants_dial, is_matched, marked};

use crate::advised::Marked;
use ctrl_model::{Copies, Kind, Relation, Semantic, Side};
use entity_store::{Entities, EntityView};
use policy_store::{Policies, Policy};
use record_tables::NamedTable;
use role_expr::matches;
use std::alloc::{AllocError, Global};

/// The entity of a number, if one is given and present.
pub(crate) fn entity_at(
    entities: &Entities,
    kind: Kind,
    number: Option<u32>,
) -> Option<EntityView<'_>>
    requires { is_entity_kind kind ≡ true }
    ensures { result ≡ option_and_then (at (entities_of kind entities.now)) number }
{
    match number {
        Some(number) => entities.entity(kind, number),
        None => None,
    }
}

// Whether an entity, if there is one, matches a side of a policy.
fn is_matched(entity: &Option<EntityView>, semantic: Semantic, side: &Side) -> bool
    ensures { result ≡ is_matched entity.now semantic side.now }
{
    match entity {
        Some(entity) => matches(side, semantic, entity.name, entity.attributes),
        None => false,
    }
}

// What a policy says of an identity and a service, each if it is there.
fn mark_of(
    policy: &Policy,
    identity: &Option<EntityView>,
    service: &Option<EntityView>,
) -> Result<Marked, AllocError>
    ensures { IfOk result (λ m. m ≡ marked identity.now service.now policy.now) }
{
    let name = policy.name.copy()?;
    Ok(Marked {
        name,
        left: is_matched(identity, policy.semantic, &policy.left),
        right: is_matched(service, policy.semantic, &policy.right),
    })
}

// Puts what a policy says behind the others, if it grants Dial.
fn push_mark(
    marks: &mut Vec<Marked>,
    policy: &Policy,
    identity: &Option<EntityView>,
    service: &Option<EntityView>,
) -> Result<(), AllocError>
    ensures { OnOk result (marks.new.items ≡ marks.old.items ++ cond (grants_dial policy.now) (marked identity.now service.now policy.now ∷ []) []) }
{
    if matches!(policy.relation, Relation::Dial) {
        marks.push(mark_of(policy, identity, service)?)?;
    }
    Ok(())
}

// What the policies of a table say that grant Dial.
fn marks_in(
    alloc: Global,
    table: &NamedTable<Policy>,
    identity: &Option<EntityView>,
    service: &Option<EntityView>,
) -> Result<Vec<Marked>, AllocError>
    ensures { IfOk result (λ v. v.items ≡ dial_marks identity.now service.now table.now.rows) }
{
    let mut marks = Vec::new(alloc);
    'policies: for (_, policy) in table.rows() {
        push_mark(&mut marks, policy, identity, service)?;
    }
    Ok(marks)
}

/// What the policies that grant Dial say of an identity and a service, each if it is there.
pub(crate) fn marks(
    alloc: Global,
    policies: &Policies,
    identity: &Option<EntityView>,
    service: &Option<EntityView>,
) -> Result<Vec<Marked>, AllocError>
    ensures { IfOk result (λ v. v.items ≡ dial_marks identity.now service.now policies.now.service_policies.rows) }
{
    let Some(table) = policies.table(Kind::ServicePolicy) else {
        unreachable!()
    };
    marks_in(alloc, table, identity, service)
}
