ghost use Rattle.std.specs.Prelude.{◌≡◌, ◌<◌, ◌==◌, ℕ, List, position, [], true, None, IfOk, OnOk, OnErr};
ghost use Rattle.std.specs.Option.{option_map};
ghost use Rattle.ctrl_model.specs.Numbered.{at, is_present, numbers};
ghost use Rattle.ctrl_model.specs.State.{as_entity};
ghost use Rattle.record_tables.specs.Entries.{KeepsOrder};
ghost use Rattle.entity_store.specs.EntityTables.{is_entity_kind, entities, next_of, number_of, new_router, with_entity, with_attributes, with_router, without_entity};
ghost use Rattle.entity_store.specs.TableRules.{is_there};
ghost use Rattle.entity_store.specs.KeptTables.{tables_of, IsPlaceOf};

use crate::records::{KeptEntity, KeptRouter};
use ctrl_model::{Copies, Kind, Name, Names};
use record_tables::{Named, NamedTable};
use std::alloc::AllocError;

/// The tables of the three kinds.
#[derive(Drop)]
pub struct KindTables {
    pub identities: NamedTable<KeptEntity>,
    pub services: NamedTable<KeptEntity>,
    pub routers: NamedTable<KeptRouter>,
}

// A new identity or service.
fn new_entity(name: &Name, attributes: &Names) -> Result<KeptEntity, AllocError>
    ensures { IfOk result (λ e. e ≡ record { name = name.now; attributes = attributes.now }) }
{
    Ok(KeptEntity {
        name: name.copy()?,
        attributes: attributes.copy()?,
    })
}

// A new router.
fn new_router(name: &Name, attributes: &Names) -> Result<KeptRouter, AllocError>
    ensures { IfOk result (λ r. r ≡ new_router name.now attributes.now) }
{
    Ok(KeptRouter {
        name: name.copy()?,
        attributes: attributes.copy()?,
        cost: 0,
        through: true,
        connected: false,
    })
}

// The name and the attributes of an identity or a service.
fn seen_entity(table: &NamedTable<KeptEntity>, no: u32) -> Option<(&Name, &Names)>
    ensures { option_map (λ p. record { name = p.0.now; attributes = p.1.now }) result ≡ at table.now.rows no }
{
    let entity = table.get(no)?;
    Some((&entity.name, &entity.attributes))
}

// The name and the attributes of a router.
fn seen_router(table: &NamedTable<KeptRouter>, no: u32) -> Option<(&Name, &Names)>
    ensures { option_map (λ p. record { name = p.0.now; attributes = p.1.now }) result ≡ option_map as_entity (at table.now.rows no) }
{
    let router = table.get(no)?;
    Some((&router.name, &router.attributes))
}

/// The name and the attributes of an entity. None exactly where it is absent.
pub fn seen(tables: &KindTables, kind: Kind, no: u32) -> Option<(&Name, &Names)>
    requires { is_entity_kind kind ≡ true }
    ensures { (held : List (List ℕ × ℕ)) → option_map (λ p. record { name = p.0.now; attributes = p.1.now }) result ≡ at (entities kind (tables_of tables.now held)) no }
{
    match kind {
        Kind::Identity => seen_entity(&tables.identities, no),
        Kind::Service => seen_entity(&tables.services, no),
        Kind::Router => seen_router(&tables.routers, no),
        _ => unreachable!(),
    }
}

// The place of a record in the order of the numbers.
fn found_in<R: Named>(table: &NamedTable<R>, no: u32) -> Option<usize>
    ensures { result ≡ position (λ row. row.0 == no) table.now.rows }
{
    table.rows().position(|row| row.0 == no)
}

// The place of a present record in the order of the numbers.
fn place_in<R: Named>(table: &NamedTable<R>, no: u32) -> usize
    requires { is_present table.now.rows no ≡ true }
    ensures { IsPlaceOf no (numbers table.now.rows) result }
{
    found_in(table, no).unwrap()
}

/// The place of a present entity in the order of the numbers of its kind.
pub fn place_of(tables: &KindTables, kind: Kind, no: u32) -> usize
    requires kind { is_entity_kind kind ≡ true }
    requires there { is_there kind no (tables_of tables.now []) ≡ true }
    ensures { (held : List (List ℕ × ℕ)) → IsPlaceOf no (numbers (entities kind (tables_of tables.now held))) result }
{
    match kind {
        Kind::Identity => place_in(&tables.identities, no),
        Kind::Service => place_in(&tables.services, no),
        Kind::Router => place_in(&tables.routers, no),
        _ => unreachable!(),
    }
}

/// Tells that the numbers of each kind ascend.
pub fn tell_order(tables: &KindTables)
    ensures identities { KeepsOrder tables.now.identities }
    ensures services { KeepsOrder tables.now.services }
    ensures routers { KeepsOrder tables.now.routers }
{
    let _identities = tables.identities.next();
    let _services = tables.services.next();
    let _routers = tables.routers.next();
}

/// Adds an entity under the next number, which it answers.
pub fn add_row(
    tables: &mut KindTables,
    kind: Kind,
    name: &Name,
    attributes: &Names,
) -> Result<u32, AllocError>
    requires kind { is_entity_kind kind ≡ true }
    requires free { number_of kind name.now (tables_of tables.old []) ≡ None }
    requires room { next_of kind (tables_of tables.old []) < 4294967295 }
    ensures number { IfOk result (λ n. (held : List (List ℕ × ℕ)) → n ≡ next_of kind (tables_of tables.old held)) }
    ensures ok { OnOk result ((held : List (List ℕ × ℕ)) → tables_of tables.new held ≡ with_entity kind name.now attributes.now (tables_of tables.old held)) }
    ensures err { OnErr result ((held : List (List ℕ × ℕ)) → tables_of tables.new held ≡ tables_of tables.old held) }
{
    match kind {
        Kind::Identity => tables.identities.add(new_entity(name, attributes)?),
        Kind::Service => tables.services.add(new_entity(name, attributes)?),
        Kind::Router => tables.routers.add(new_router(name, attributes)?),
        _ => unreachable!(),
    }
}

/// Replaces the attributes of a present entity.
pub fn edit_row(tables: &mut KindTables, kind: Kind, no: u32, attributes: Names)
    requires kind { is_entity_kind kind ≡ true }
    requires there { is_there kind no (tables_of tables.old []) ≡ true }
    ensures { (held : List (List ℕ × ℕ)) → tables_of tables.new held ≡ with_attributes kind no attributes (tables_of tables.old held) }
{
    match kind {
        Kind::Identity => tables.identities.edit(no, move |entity| {
            entity.attributes = attributes;
        }),
        Kind::Service => tables.services.edit(no, move |entity| {
            entity.attributes = attributes;
        }),
        Kind::Router => tables.routers.edit(no, move |router| {
            router.attributes = attributes;
        }),
        _ => unreachable!(),
    }
}

/// Sets the cost and the marks of a present router.
pub fn mark_row(tables: &mut KindTables, no: u32, cost: u32, through: bool, connected: bool)
    requires { is_there Kind.Router no (tables_of tables.old []) ≡ true }
    ensures { (held : List (List ℕ × ℕ)) → tables_of tables.new held ≡ with_router no cost through connected (tables_of tables.old held) }
{
    tables.routers.edit(no, |router| {
        router.cost = cost;
        router.through = through;
        router.connected = connected;
    });
}

/// Removes a present entity.
pub fn remove_row(tables: &mut KindTables, kind: Kind, no: u32)
    requires kind { is_entity_kind kind ≡ true }
    requires there { is_there kind no (tables_of tables.old []) ≡ true }
    ensures { (held : List (List ℕ × ℕ)) → tables_of tables.new held ≡ without_entity kind no (tables_of tables.old held) }
{
    match kind {
        Kind::Identity => tables.identities.remove(no),
        Kind::Service => tables.services.remove(no),
        Kind::Router => tables.routers.remove(no),
        _ => unreachable!(),
    }
}
