ghost use Rattle.std.specs.Prelude.{◌≡◌, ◌<◌, true, [], length, OnOk, OnErr};
ghost use Rattle.std.specs.List.{flat_map};
ghost use Rattle.entity_store.specs.EntityTables.{is_entity_kind};
ghost use Rattle.entity_store.specs.ListedRows.{no_entries, with_entry, without_last, with_words, without_entry};
ghost use Rattle.entity_store.specs.ListedKinds.{on_kind, listed_of};

use attr_pool::{Pool, Row, WORDS};
use ctrl_model::{Kind, Name};
use std::alloc::{AllocError, Global};
use std::marker::Model;

/// The names of a kind's entities, and the rows of bits of their attributes, each in the order of the numbers.
#[derive(Drop)]
pub struct KindRows {
    names: Vec<Name>,
    rows: Vec<Row>,
}

impl Model for KindRows {
    ghost use Rattle.entity_store.specs.ListedRows.{Listed};

    ghost Value = { Listed };

    ghost view = { λ k. record { names = k.names.items; rows = k.rows.items } };
}

/// The names and rows of the three kinds.
#[derive(Drop)]
pub struct AllRows {
    pub identities: KindRows,
    pub services: KindRows,
    pub routers: KindRows,
}

/// The entities of a kind, lent, in the order of their numbers.
#[derive(Drop)]
pub struct Lanes<'a> {
    /// Their names.
    pub names: &'a [Name],
    /// The rows of bits of their attributes, `attr_pool::WORDS` words for each, one row behind the other.
    pub rows: &'a [u64],
    /// What numbers the bits of the rows.
    pub pool: &'a Pool,
}

impl KindRows {
    /// No names.
    pub fn new(alloc: Global) -> KindRows
        ensures { result ≡ no_entries }
    {
        KindRows {
            names: Vec::new(alloc),
            rows: Vec::new(alloc),
        }
    }

    // Puts a name behind the others, with a row without a bit.
    fn push(&mut self, name: Name) -> Result<(), AllocError>
        ensures ok { OnOk result (self.new ≡ with_entry name self.old) }
        ensures err { OnErr result (self.new ≡ self.old) }
    {
        self.rows.reserve(1)?;
        self.names.push(name)?;
        // There is room for it.
        let _pushed = self.rows.push([0; WORDS]);
        Ok(())
    }

    // Takes the last name and its row away.
    fn pop(&mut self)
        ensures { self.new ≡ without_last self.old }
    {
        let _name = self.names.pop();
        let _row = self.rows.pop();
    }

    // Replaces the row at a place.
    fn set(&mut self, place: usize, row: Row)
        requires { place < length self.old.rows }
        ensures { self.new ≡ with_words place row self.old }
    {
        self.rows[place] = row;
    }

    // Takes the name and the row at a place out.
    fn remove(&mut self, place: usize)
        requires names { place < length self.old.names }
        requires rows { place < length self.old.rows }
        ensures { self.new ≡ without_entry place self.old }
    {
        let _name = self.names.remove(place);
        let _row = self.rows.remove(place);
    }

    // The names and rows, lent beside a pool.
    fn lend<'a>(&'a self, pool: &'a Pool) -> Lanes<'a>
        ensures names { result.names.now ≡ self.now.names }
        ensures rows { result.rows.now ≡ flat_map (λ words. words) self.now.rows }
        ensures pool { result.pool.now ≡ pool.now }
    {
        Lanes {
            names: self.names.as_slice(),
            rows: self.rows.as_slice().as_flattened(),
            pool,
        }
    }
}

/// Puts a name of a kind behind the others, with a row without a bit.
pub fn push_entry(all: &mut AllRows, kind: Kind, name: Name) -> Result<(), AllocError>
    requires { is_entity_kind kind ≡ true }
    ensures ok { OnOk result (all.new ≡ on_kind kind (with_entry name) all.old) }
    ensures err { OnErr result (all.new ≡ all.old) }
{
    match kind {
        Kind::Identity => all.identities.push(name),
        Kind::Service => all.services.push(name),
        Kind::Router => all.routers.push(name),
        _ => unreachable!(),
    }
}

/// Takes the last name of a kind and its row away.
pub fn pop_entry(all: &mut AllRows, kind: Kind)
    requires { is_entity_kind kind ≡ true }
    ensures { all.new ≡ on_kind kind without_last all.old }
{
    match kind {
        Kind::Identity => all.identities.pop(),
        Kind::Service => all.services.pop(),
        Kind::Router => all.routers.pop(),
        _ => unreachable!(),
    }
}

/// Replaces the row at a place of a kind.
pub fn set_row(all: &mut AllRows, kind: Kind, place: usize, row: Row)
    requires kind { is_entity_kind kind ≡ true }
    requires place { place < length (listed_of kind all.old).rows }
    ensures { all.new ≡ on_kind kind (with_words place row) all.old }
{
    match kind {
        Kind::Identity => all.identities.set(place, row),
        Kind::Service => all.services.set(place, row),
        Kind::Router => all.routers.set(place, row),
        _ => unreachable!(),
    }
}

/// Takes the name and the row at a place of a kind out.
pub fn remove_entry(all: &mut AllRows, kind: Kind, place: usize)
    requires kind { is_entity_kind kind ≡ true }
    requires names { place < length (listed_of kind all.old).names }
    requires rows { place < length (listed_of kind all.old).rows }
    ensures { all.new ≡ on_kind kind (without_entry place) all.old }
{
    match kind {
        Kind::Identity => all.identities.remove(place),
        Kind::Service => all.services.remove(place),
        Kind::Router => all.routers.remove(place),
        _ => unreachable!(),
    }
}

/// The names and rows of a kind, lent beside a pool.
pub fn lent<'a>(all: &'a AllRows, kind: Kind, pool: &'a Pool) -> Lanes<'a>
    requires { is_entity_kind kind ≡ true }
    ensures names { result.names.now ≡ (listed_of kind all.now).names }
    ensures rows { result.rows.now ≡ flat_map (λ words. words) (listed_of kind all.now).rows }
    ensures pool { result.pool.now ≡ pool.now }
{
    match kind {
        Kind::Identity => all.identities.lend(pool),
        Kind::Service => all.services.lend(pool),
        Kind::Router => all.routers.lend(pool),
        _ => unreachable!(),
    }
}
