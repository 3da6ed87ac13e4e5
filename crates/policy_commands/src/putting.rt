ghost use Rattle.std.specs.Prelude.{◌≡◌, true, position, is_none, min, OnOk};
ghost use Rattle.entity_store.specs.EntityTables.{is_entity_kind};
ghost use Rattle.entity_store.specs.EntityTables as entity_tables;
ghost use Rattle.policy_store.specs.PolicyTables.{is_policy_kind, left_kind, right_kind};
ghost use Rattle.policy_store.specs.PolicyRules.{can_put};
ghost use Rattle.policy_commands.specs.PutPolicies.{absent_place, absent_name, may_put};

use crate::parts::PolicyView;
use ctrl_model::{Kind, Name};
use entity_store::Entities;
use policy_store::{Policies, PolicyFault};

/// The kind of entity that the left sides of a kind of policy name.
pub fn left_kind(kind: Kind) -> Kind
    requires { is_policy_kind kind ≡ true }
    ensures kind { result ≡ left_kind kind }
    ensures entity { is_entity_kind result ≡ true }
{
    match kind {
        Kind::ServiceEdgeRouterPolicy => Kind::Service,
        _ => Kind::Identity,
    }
}

/// The kind of entity that the right sides of a kind of policy name.
pub fn right_kind(kind: Kind) -> Kind
    requires { is_policy_kind kind ≡ true }
    ensures kind { result ≡ right_kind kind }
    ensures entity { is_entity_kind result ≡ true }
{
    match kind {
        Kind::ServicePolicy => Kind::Service,
        _ => Kind::Router,
    }
}

// Whether no entity of a kind has a name.
fn is_absent(kind: Kind, name: &Name, known: &Entities) -> bool
    requires { is_entity_kind kind ≡ true }
    ensures { result ≡ is_none (entity_tables.number_of kind name.now known.now) }
{
    known.find(kind, name).is_err()
}

// The place of the first name that no entity of a kind has.
fn first_absent(kind: Kind, names: &[Name], known: &Entities) -> Option<usize>
    requires { is_entity_kind kind ≡ true }
    ensures { result ≡ position (λ n. is_none (entity_tables.number_of kind n known.now)) names.now }
{
    names.iter().position(|name| is_absent(kind, name, known))
}

// A place as it is told: at most 4,294,967,295.
fn told_place(place: usize) -> u32
    ensures { result ≡ min place 4294967295 }
{
    u32::try_from(place).unwrap_or(u32::MAX)
}

// The place of the first name that no entity of a kind has, as it is told.
fn absent_place(kind: Kind, names: &[Name], known: &Entities) -> Option<u32>
    requires { is_entity_kind kind ≡ true }
    ensures { result ≡ absent_place kind names.now known.now }
{
    Some(told_place(first_absent(kind, names, known)?))
}

// The fault of the first `@` name of a policy that no entity has, on the left side before the right one.
fn absent_name(kind: Kind, policy: &PolicyView, known: &Entities) -> Option<PolicyFault>
    requires { is_policy_kind kind ≡ true }
    ensures { result ≡ absent_name kind policy.now known.now }
{
    let left = absent_place(left_kind(kind), policy.left.ids.as_slice(), known);
    if let Some(place) = left {
        return Some(PolicyFault::UnknownRef {
            right: false,
            place,
        });
    }
    let place = absent_place(right_kind(kind), policy.right.ids.as_slice(), known)?;
    Some(PolicyFault::UnknownRef { right: true, place })
}

/// Whether a policy may be put: `Exists` comes exactly where it is fresh and its name is taken, `Unknown` exactly where it is
/// not fresh and nothing has its name; else `UnknownRef` tells the first `@` name that no entity has, on the left side before
/// the right one; and else `Full` comes exactly where it is fresh and its kind has reached its limit or its numbers have run
/// out (docs/RULES.md, "Commands on policies").
pub fn may_put(
    kept: &Policies,
    kind: Kind,
    policy: &PolicyView,
    fresh: bool,
    known: &Entities,
) -> Result<(), PolicyFault>
    requires { is_policy_kind kind ≡ true }
    ensures fault { result ≡ may_put kind policy.now fresh kept.now known.now }
    // A policy that may be put can be put.
    ensures can { OnOk result (can_put kind policy.now.name fresh kept.now ≡ true) }
{
    let taken = kept.number_of(kind, policy.name).is_some();
    if fresh && taken {
        return Err(PolicyFault::Exists);
    }
    if !fresh && !taken {
        return Err(PolicyFault::Unknown);
    }
    if let Some(fault) = absent_name(kind, policy, known) {
        return Err(fault);
    }
    if fresh && !kept.has_room(kind) {
        return Err(PolicyFault::Full(kind));
    }
    Ok(())
}
