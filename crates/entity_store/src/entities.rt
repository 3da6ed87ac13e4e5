ghost use Rattle.std.specs.Prelude.{◌≡◌, ◌≤◌, ⊤, true, [], IfOk, OnOk, OnErr, length, map, option_map, Ok};
ghost use Rattle.ctrl_model.specs.ValueForms.{is_cost};
ghost use Rattle.ctrl_model.specs.Limits as limits;
ghost use Rattle.ctrl_model.specs.Networks.{seen};
ghost use Rattle.ctrl_model.specs.Numbered.{at, numbers};
ghost use Rattle.attr_pool.specs.AttributeRows.{AreRows};
ghost use Rattle.entity_store.specs.EntityTables.{no_entities, is_entity_kind, entities, next_of, number_of, with_entity, with_attributes, with_router, without_entity, with_next};
ghost use Rattle.entity_store.specs.AttributeUses.{has_attribute_room, AreUsed, AreHeld, Holds, LetsGo};
ghost use Rattle.entity_store.specs.TableRules.{may_add, found, is_there, attributes_at, KeepsNumbers};

use crate::held_names::{hold_names, let_names_go};
use crate::kind_rows::{AllRows, KindRows, Lanes, lent, remove_entry, set_row};
use crate::kind_tables::{KindTables, edit_row, mark_row, place_of, remove_row, seen, tell_order};
use crate::listing::add_listed;
use crate::records::{EntityView, KeptRouter, RouterView};
use attr_pool::Pool;
use ctrl_model::{Kind, Name, Names, Numbers, RouterNo, RouterSeen, limit};
use record_tables::NamedTable;
use std::alloc::{AllocError, Global};
use std::marker::Model;
use thiserror::Error;

/// Why an entity is not added or not found.
#[derive(Clone, Copy, Debug, PartialEq, Eq, Error)]
pub enum EntityFault {
    /// An entity of the kind has the name already.
    #[error("the name is taken")]
    Exists,
    /// No entity of the kind has the name.
    #[error("nothing has the name")]
    Unknown,
    /// No entity of the kind can be added.
    #[error("the kind is full")]
    Full(Kind),
}

/// The identities, services and edge routers of a controller. Contracts see them as tables (`EntityTables`).
///
/// A kind that a call takes is Identity, Service or Router.
#[derive(Drop)]
pub struct Entities {
    tables: KindTables,
    listed: AllRows,
    held: Vec<Name>,
    pool: Pool,
}

impl Model for Entities {
    ghost use Rattle.entity_store.specs.EntityTables.{Tables};
    ghost use Rattle.entity_store.specs.KeptTables.{held_once, tables_of, IsKept};
    ghost use Rattle.entity_store.specs.KeptRows.{AreAllListed};

    ghost Value = { Tables };

    ghost view = { λ e. tables_of e.tables (held_once e.held.items) };

    ghost invariant = { λ e. IsKept (tables_of e.tables (held_once e.held.items)) e.pool × AreAllListed e.pool (tables_of e.tables (held_once e.held.items)) e.listed };
}

// A router as routes see it.
fn seen_row(number: u32, router: &KeptRouter) -> RouterSeen
    ensures { result ≡ seen (number, router.now) }
{
    RouterSeen {
        no: RouterNo(number),
        cost: router.cost,
        through: router.through,
        connected: router.connected,
    }
}

// The routers as routes see them.
fn routers_in(alloc: Global, table: &NamedTable<KeptRouter>) -> Result<Vec<RouterSeen>, AllocError>
    ensures { IfOk result (λ v. v.items ≡ map seen table.now.rows) }
{
    let mut found = Vec::new(alloc);
    'rows: for (number, router) in table.rows() {
        found.push(seen_row(*number, router))?;
    }
    Ok(found)
}

impl Entities {
    /// A store without entities.
    pub fn new(alloc: Global) -> Result<Entities, AllocError>
        ensures { IfOk result (λ e. e ≡ no_entities) }
    {
        let pool = Pool::new(alloc)?;
        Ok(Entities {
            tables: KindTables {
                identities: NamedTable::new(alloc),
                services: NamedTable::new(alloc),
                routers: NamedTable::new(alloc),
            },
            listed: AllRows {
                identities: KindRows::new(alloc),
                services: KindRows::new(alloc),
                routers: KindRows::new(alloc),
            },
            held: Vec::new(alloc),
            pool,
        })
    }

    // The number of the entity that has the name.
    fn number_of(&self, kind: Kind, name: &Name) -> Option<u32>
        requires { is_entity_kind kind ≡ true }
        ensures found { result ≡ number_of kind name.now self.now }
        ensures numbers { KeepsNumbers kind self.now }
    {
        match kind {
            Kind::Identity => self.tables.identities.find(name.bytes()),
            Kind::Service => self.tables.services.find(name.bytes()),
            Kind::Router => self.tables.routers.find(name.bytes()),
            _ => unreachable!(),
        }
    }

    /// Whether an entity of the name may be added: `Exists` comes exactly where one of the kind has the name, and else `Full`
    /// exactly where the kind has reached its limit or its numbers have run out.
    pub fn may_add(&self, kind: Kind, name: &Name) -> Result<(), EntityFault>
        requires { is_entity_kind kind ≡ true }
        ensures { result ≡ may_add kind name.now self.now }
    {
        if self.number_of(kind, name).is_some() {
            return Err(EntityFault::Exists);
        }
        if self.count(kind) >= limit(kind) || self.next(kind) == u32::MAX {
            return Err(EntityFault::Full(kind));
        }
        Ok(())
    }

    /// Adds an entity under the next number, which it answers. A router costs nothing to enter, may be passed through and is not
    /// connected. Each attribute gets a use.
    pub fn add(&mut self, kind: Kind, name: &Name, attributes: &Names) -> Result<u32, AllocError>
        requires kind { is_entity_kind kind ≡ true }
        requires may { may_add kind name.now self.old ≡ Ok tt }
        requires room { has_attribute_room self.old [] attributes.now ≡ true }
        ensures ok { IfOk result (λ n. (n ≡ next_of kind self.old) × (self.new ≡ with_entity kind name.now attributes.now self.old)) }
        ensures err { OnErr result (self.new ≡ self.old) }
    {
        if !self.pool.can_count(attributes) {
            return Err(AllocError);
        }
        let place = self.count(kind);
        let number = add_listed(&mut self.tables, &mut self.listed, kind, name, attributes)?;
        self.pool.intern_all(attributes);
        set_row(&mut self.listed, kind, place, self.pool.row_of(attributes));
        Ok(number)
    }

    /// The number of the entity that has the name. `Unknown` comes exactly where none has it.
    pub fn find(&self, kind: Kind, name: &Name) -> Result<u32, EntityFault>
        requires { is_entity_kind kind ≡ true }
        ensures found { result ≡ found kind name.now self.now }
        // The numbers ascend from 1 below the next one, and the kind keeps its limit.
        ensures numbers { KeepsNumbers kind self.now }
    {
        self.number_of(kind, name).ok_or(EntityFault::Unknown)
    }

    /// Replaces the attributes of a present entity: their uses go, and each new one gets one.
    pub fn update(&mut self, kind: Kind, no: u32, attributes: &Names) -> Result<(), AllocError>
        requires kind { is_entity_kind kind ≡ true }
        requires there { is_there kind no self.old ≡ true }
        requires room { has_attribute_room self.old (attributes_at kind no self.old) attributes.now ≡ true }
        ensures ok { OnOk result (self.new ≡ with_attributes kind no attributes.now self.old) }
        ensures err { OnErr result (self.new ≡ self.old) }
    {
        if !self.pool.can_count(attributes) {
            return Err(AllocError);
        }
        let copied = attributes.copy()?;
        tell_order(&self.tables);
        let (_, had) = seen(&self.tables, kind, no).unwrap();
        self.pool.release_all(had);
        self.pool.intern_all(attributes);
        let row = self.pool.row_of(attributes);
        set_row(
            &mut self.listed,
            kind,
            place_of(&self.tables, kind, no),
            row,
        );
        edit_row(&mut self.tables, kind, no, copied);
        Ok(())
    }

    /// Sets what a present router costs to enter, 0 to 65,535, whether it may be passed through, and whether it is connected.
    pub fn set_router(&mut self, no: RouterNo, cost: u32, through: bool, connected: bool)
        requires there { is_there Kind.Router no.0 self.old ≡ true }
        requires cost { is_cost cost ≡ true }
        ensures { self.new ≡ with_router no.0 cost through connected self.old }
    {
        mark_row(&mut self.tables, no.0, cost, through, connected);
    }

    /// Removes a present entity, and with it a use of each of its attributes.
    pub fn remove(&mut self, kind: Kind, no: u32)
        requires kind { is_entity_kind kind ≡ true }
        requires there { is_there kind no self.old ≡ true }
        ensures { self.new ≡ without_entity kind no self.old }
    {
        tell_order(&self.tables);
        let (_, had) = seen(&self.tables, kind, no).unwrap();
        self.pool.release_all(had);
        remove_entry(&mut self.listed, kind, place_of(&self.tables, kind, no));
        remove_row(&mut self.tables, kind, no);
    }

    /// The routers as routes see them, by ascending number.
    pub fn routers(&self, alloc: Global) -> Result<Vec<RouterSeen>, AllocError>
        ensures { IfOk result (λ v. v.items ≡ map seen self.now.routers.rows) }
    {
        routers_in(alloc, &self.tables.routers)
    }

    /// Whether at most 4,096 attributes are in use once a use of each entry of `gone` is taken away, and one of each entry of
    /// `fresh` is added.
    pub fn has_room(&self, gone: &Names, fresh: &Names) -> bool
        requires { AreUsed self.now gone.now }
        ensures { result ≡ has_attribute_room self.now gone.now fresh.now }
    {
        self.pool.has_room(gone, fresh)
    }

    /// Holds a use of each name, beside those of entities.
    pub fn hold(&mut self, names: &Names) -> Result<(), AllocError>
        requires { has_attribute_room self.old [] names.now ≡ true }
        ensures ok { OnOk result (Holds names.now self.old self.new) }
        ensures err { OnErr result (self.new ≡ self.old) }
    {
        if !self.pool.can_count(names) {
            return Err(AllocError);
        }
        hold_names(&mut self.held, names)?;
        self.pool.intern_all(names);
        Ok(())
    }

    /// Lets a held use of each name go.
    pub fn let_go(&mut self, names: &Names)
        requires { AreHeld self.old names.now }
        ensures { LetsGo names.now self.old self.new }
    {
        let_names_go(&mut self.held, names.as_slice());
        self.pool.release_all(names);
    }

    /// The name and the attributes of an entity. None exactly where it is absent.
    pub fn seen(&self, kind: Kind, no: u32) -> Option<(&Name, &Names)>
        requires { is_entity_kind kind ≡ true }
        ensures { option_map (λ p. record { name = p.0.now; attributes = p.1.now }) result ≡ at (entities kind self.now) no }
    {
        seen(&self.tables, kind, no)
    }

    /// The entities of a kind, lent: their names in the order of their numbers, and the rows of their attributes in the pool.
    pub fn lanes(&self, kind: Kind) -> Lanes<'_>
        requires { is_entity_kind kind ≡ true }
        ensures names { result.names.now ≡ map (λ row. row.1.name) (entities kind self.now) }
        ensures rows { AreRows result.pool.now (map (λ row. row.1.attributes) (entities kind self.now)) result.rows.now }
    {
        lent(&self.listed, kind, &self.pool)
    }

    /// The entity of a number, lent. None exactly where it is absent.
    pub fn entity(&self, kind: Kind, no: u32) -> Option<EntityView<'_>>
        requires { is_entity_kind kind ≡ true }
        ensures { result ≡ at (entities kind self.now) no }
    {
        match self.seen(kind, no) {
            Some((name, attributes)) => Some(EntityView { name, attributes }),
            None => None,
        }
    }

    /// The router of a number, lent. None exactly where it is absent.
    pub fn router(&self, no: RouterNo) -> Option<RouterView<'_>>
        ensures { result ≡ at self.now.routers.rows no.0 }
    {
        let router = self.tables.routers.get(no.0)?;
        Some(RouterView {
            name: &router.name,
            attributes: &router.attributes,
            cost: router.cost,
            through: router.through,
            connected: router.connected,
        })
    }

    /// The numbers of the present entities of a kind, ascending.
    pub fn numbers(&self, alloc: Global, kind: Kind) -> Result<Numbers, AllocError>
        requires { is_entity_kind kind ≡ true }
        ensures all { IfOk result (λ ns. ns ≡ numbers (entities kind self.now)) }
        // The numbers ascend from 1 below the next one, and the kind keeps its limit.
        ensures numbers { KeepsNumbers kind self.now }
    {
        match kind {
            Kind::Identity => self.tables.identities.numbers(alloc),
            Kind::Service => self.tables.services.numbers(alloc),
            Kind::Router => self.tables.routers.numbers(alloc),
            _ => unreachable!(),
        }
    }

    /// How many entities of a kind there are.
    pub fn count(&self, kind: Kind) -> usize
        requires { is_entity_kind kind ≡ true }
        ensures count { result ≡ length (entities kind self.now) }
        ensures few { result ≤ limits.limit kind }
    {
        match kind {
            Kind::Identity => self.tables.identities.len(),
            Kind::Service => self.tables.services.len(),
            Kind::Router => self.tables.routers.len(),
            _ => unreachable!(),
        }
    }

    /// The number that the next entity of a kind gets, 1 in a new store.
    pub fn next(&self, kind: Kind) -> u32
        requires { is_entity_kind kind ≡ true }
        ensures next { result ≡ next_of kind self.now }
        // The numbers ascend from 1 below it, and the kind keeps its limit.
        ensures numbers { KeepsNumbers kind self.now }
    {
        match kind {
            Kind::Identity => self.tables.identities.next(),
            Kind::Service => self.tables.services.next(),
            Kind::Router => self.tables.routers.next(),
            _ => unreachable!(),
        }
    }

    /// Raises the next number of a kind.
    pub fn skip(&mut self, kind: Kind, next: u32)
        requires kind { is_entity_kind kind ≡ true }
        requires later { next_of kind self.old ≤ next }
        ensures { self.new ≡ with_next kind next self.old }
    {
        match kind {
            Kind::Identity => self.tables.identities.skip(next),
            Kind::Service => self.tables.services.skip(next),
            Kind::Router => self.tables.routers.skip(next),
            _ => unreachable!(),
        }
    }
}
