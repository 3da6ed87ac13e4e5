ghost use Rattle.std.specs.Prelude.{◌≡◌, Some, IfOk, option_map};
ghost use Rattle.core_stores.specs.declared.changes.Change.TheVariants as change;
ghost use Rattle.entity_store.specs.declared.changes.EntityChange.TheVariants as entity;
ghost use Rattle.policy_store.specs.declared.changes.PolicyChange.TheVariants as policy;
ghost use Rattle.ctrl_model.specs.declared.kinds.Kind.TheVariants as kinds;
ghost use Rattle.circuits.specs.declared.changes.CircuitChange.TheVariants as circuit;
ghost use Rattle.fabric_graph.specs.declared.changes.LinkChange.TheVariants as link;
ghost use Rattle.terminators.specs.declared.changes.TermChange.TheVariants as term;
ghost use Rattle.core_stores.specs.SaidRecords.{circuit_in, link_in, policy_in, term_in};
ghost use Rattle.core_stores.specs.NewRecords.{new_in};

use crate::changes::Change;
use crate::said_records::{circuit_in, link_in, policy_in, term_in};
use circuits::CircuitChange;
use ctrl_model::{Copies, Kind, Name, Names};
use entity_store::EntityChange;
use fabric_graph::LinkChange;
use policy_store::PolicyChange;
use row_codec::Row;
use std::alloc::AllocError;
use terminators::TermChange;

/// A record that a row says and that one change adds: its kind, its number, and the change.
#[derive(Drop)]
pub struct NewRecord {
    pub kind: Kind,
    pub number: u32,
    pub change: Change,
}

// An identity or a service that comes new.
fn new_plain(
    kind: Kind,
    number: u32,
    name: &Name,
    attributes: &Names,
) -> Result<Option<NewRecord>, AllocError>
    ensures { IfOk result (λ o. o ≡ Some (record { kind = kind; number = number; change = change.Entity (entity.Add kind name.now attributes.now) })) }
{
    let name = name.copy()?;
    let attributes = attributes.copy()?;
    let change = Change::Entity(EntityChange::Add {
        kind,
        name,
        attributes,
    });
    Ok(Some(NewRecord {
        kind,
        number,
        change,
    }))
}

// The record of a kind that a change adds, if there is one.
fn new_of(kind: Kind, number: u32, change: Option<Change>) -> Option<NewRecord>
    ensures { result ≡ option_map (λ c. record { kind = kind; number = number; change = c }) change }
{
    change.map(|change| NewRecord {
        kind,
        number,
        change,
    })
}

// The policy of a kind that a row says.
fn new_policy(kind: Kind, number: u32, row: &Row) -> Result<Option<NewRecord>, AllocError>
    ensures { IfOk result (λ o. o ≡ option_map (λ p. record { kind = kind; number = number; change = change.Policy (policy.Add kind p) }) (policy_in row.now)) }
{
    let change = policy_in(row)?.map(|policy| Change::Policy(PolicyChange::Add { kind, policy }));
    Ok(new_of(kind, number, change))
}

// The link that a row says.
fn new_link(number: u32, row: &Row) -> Result<Option<NewRecord>, AllocError>
    ensures { IfOk result (λ o. o ≡ option_map (λ l. record { kind = kinds.Link; number = number; change = change.Link (link.Add l) }) (link_in row.now)) }
{
    let change = link_in(row)?.map(|link| Change::Link(LinkChange::Add(link)));
    Ok(new_of(Kind::Link, number, change))
}

// The terminator that a row says.
fn new_term(number: u32, row: &Row) -> Result<Option<NewRecord>, AllocError>
    ensures { IfOk result (λ o. o ≡ option_map (λ t. record { kind = kinds.Terminator; number = number; change = change.Terminator (term.Add t) }) (term_in row.now)) }
{
    let change = term_in(row)?.map(|term| Change::Terminator(TermChange::Add(term)));
    Ok(new_of(Kind::Terminator, number, change))
}

// The circuit that a row says.
fn new_circuit(number: u32, row: &Row) -> Result<Option<NewRecord>, AllocError>
    ensures { IfOk result (λ o. o ≡ option_map (λ c. record { kind = kinds.Circuit; number = number; change = change.Circuit (circuit.Add c) }) (circuit_in row.now)) }
{
    let change = circuit_in(row)?.map(|circuit| Change::Circuit(CircuitChange::Add(circuit)));
    Ok(new_of(Kind::Circuit, number, change))
}

/// The record that a row says, if one change adds it. None is a router, which takes two, and a row that says no record. An `Err` is want
/// of memory.
pub fn new_in(row: &Row) -> Result<Option<NewRecord>, AllocError>
    ensures { IfOk result (λ o. o ≡ new_in row.now) }
{
    match row {
        Row::Identity {
            no,
            name,
            attributes,
        } => new_plain(Kind::Identity, no.0, name, attributes),
        Row::Service {
            no,
            name,
            attributes,
        } => new_plain(Kind::Service, no.0, name, attributes),
        Row::Link { no, .. } => new_link(no.0, row),
        Row::ServicePolicy { no, .. } => new_policy(Kind::ServicePolicy, no.0, row),
        Row::EdgeRouterPolicy { no, .. } => new_policy(Kind::EdgeRouterPolicy, no.0, row),
        Row::ServiceEdgeRouterPolicy { no, .. } => {
            new_policy(Kind::ServiceEdgeRouterPolicy, no.0, row)
        }
        Row::Terminator { no, .. } => new_term(no.0, row),
        Row::Circuit { no, .. } => new_circuit(no.0, row),
        _ => Ok(None),
    }
}
