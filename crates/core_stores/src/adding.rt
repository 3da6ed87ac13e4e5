ghost use Rattle.std.specs.Prelude.{◌≡◌, ◌==◌, ◌+◌, ◌<◌, cond, nat_le, true, option_map};
ghost use Rattle.ctrl_model.specs.Tables.{table};
ghost use Rattle.row_codec.specs.RowKeys.{kind_number};
ghost use Rattle.core_stores.specs.ChangeParts.{adds, adds_entity, adds_policy, forgotten_name, least_after};
ghost use Rattle.core_stores.specs.StoredState.{state_of};

use crate::changes::Change;
use crate::stores::Stores;
use circuits::CircuitChange;
use ctrl_model::{Kind, Name};
use entity_store::EntityChange;
use fabric_graph::LinkChange;
use policy_store::PolicyChange;
use terminators::TermChange;

/// The kinds that have records, in the order of their numbers.
pub const KINDS: [Kind; 9] = [
    Kind::Identity,
    Kind::Service,
    Kind::Router,
    Kind::Link,
    Kind::ServicePolicy,
    Kind::EdgeRouterPolicy,
    Kind::ServiceEdgeRouterPolicy,
    Kind::Terminator,
    Kind::Circuit,
];

// The number of a kind.
fn number_of(kind: Kind) -> u8
    ensures { result ≡ kind_number kind }
{
    match kind {
        Kind::Identity => 1,
        Kind::Service => 2,
        Kind::Router => 3,
        Kind::Link => 4,
        Kind::ServicePolicy => 5,
        Kind::EdgeRouterPolicy => 6,
        Kind::ServiceEdgeRouterPolicy => 7,
        Kind::Terminator => 8,
        Kind::Circuit => 9,
        Kind::Attribute => 0,
    }
}

/// The next number once a record is added, or none is.
pub fn next_if(adds: bool, next: u32) -> u32
    requires { adds ≡ true → next < 4294967295 }
    ensures { result ≡ next + cond adds 1 0 }
{
    if adds { next + 1 } else { next }
}

// Whether a change adds an entity of a kind.
fn adds_entity(change: Option<&EntityChange>, kind: Kind) -> bool
    ensures { result ≡ adds_entity (option_map (λ c. c.now) change.entry) kind }
{
    match change {
        Some(EntityChange::Add { kind: added, .. }) => number_of(*added) == number_of(kind),
        Some(EntityChange::AddRouter { .. }) => number_of(Kind::Router) == number_of(kind),
        _ => false,
    }
}

// Whether a change adds a policy of a kind.
fn adds_policy(change: Option<&PolicyChange>, kind: Kind) -> bool
    ensures { result ≡ adds_policy (option_map (λ c. c.now) change.entry) kind }
{
    match change {
        Some(PolicyChange::Add { kind: added, .. }) => number_of(*added) == number_of(kind),
        _ => false,
    }
}

/// Whether a change adds a record of a kind.
pub fn adds(change: &Change, kind: Kind) -> bool
    requires { nat_le 1 (kind_number kind) ≡ true }
    ensures { result ≡ adds change.now kind }
{
    match kind {
        Kind::Identity | Kind::Service | Kind::Router => adds_entity(change.of_entities(), kind),
        Kind::ServicePolicy | Kind::EdgeRouterPolicy | Kind::ServiceEdgeRouterPolicy => {
            adds_policy(change.of_policies(), kind)
        }
        Kind::Link => matches!(change.of_links(), Some(LinkChange::Add(_))),
        Kind::Terminator => matches!(change.of_terminators(), Some(TermChange::Add(_))),
        Kind::Circuit => matches!(change.of_circuits(), Some(CircuitChange::Add(_))),
        Kind::Attribute => unreachable!(),
    }
}

/// The next number of a kind.
pub fn next_of(stores: &Stores, kind: Kind) -> u32
    requires { nat_le 1 (kind_number kind) ≡ true }
    ensures { result ≡ (table kind (state_of stores.now)).next }
{
    match kind {
        Kind::Identity => stores.entities.next(Kind::Identity),
        Kind::Service => stores.entities.next(Kind::Service),
        Kind::Router => stores.entities.next(Kind::Router),
        Kind::Link => stores.fabric.next(),
        Kind::ServicePolicy => stores.policies.next(Kind::ServicePolicy),
        Kind::EdgeRouterPolicy => stores.policies.next(Kind::EdgeRouterPolicy),
        Kind::ServiceEdgeRouterPolicy => stores.policies.next(Kind::ServiceEdgeRouterPolicy),
        Kind::Terminator => stores.terminators.next(),
        Kind::Circuit => stores.circuits.next(),
        Kind::Attribute => unreachable!(),
    }
}

/// The least router cost after a change of the links, if there is one.
pub fn least_after(change: Option<&LinkChange>, least: u32) -> u32
    ensures { result ≡ least_after (option_map (λ c. c.now) change.entry) least }
{
    match change {
        Some(LinkChange::SetLeast(cost)) => *cost,
        _ => least,
    }
}

/// The `@` name that a change takes out of the sides of policies, and the kind of its entity, if it takes one out.
pub fn forgotten(change: Option<&EntityChange>) -> Option<(Kind, &Name)>
    ensures { option_map (λ f. (f.0, f.1.now)) result ≡ forgotten_name (option_map (λ c. c.now) change.entry) }
{
    match change {
        Some(EntityChange::Remove { kind, name, .. }) => Some((*kind, name)),
        _ => None,
    }
}
