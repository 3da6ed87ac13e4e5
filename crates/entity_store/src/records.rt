ghost use Rattle.std.specs.Prelude.{◌≡◌};

use ctrl_model::{Name, Names};
use record_tables::Named;
use std::marker::Model;

/// An identity or a service as it is kept.
#[derive(Drop)]
pub struct KeptEntity {
    pub name: Name,
    pub attributes: Names,
}

impl Model for KeptEntity {
    ghost use Rattle.ctrl_model.specs.State.{Entity};

    ghost Value = { Entity };

    ghost view = { λ e. record { name = e.name; attributes = e.attributes } };
}

impl Named for KeptEntity {
    ghost name_of = { λ e. e.name };

    fn name(&self) -> &[u8] {
        self.name.bytes()
    }
}

/// An edge router as it is kept.
#[derive(Drop)]
pub struct KeptRouter {
    pub name: Name,
    pub attributes: Names,
    pub cost: u32,
    pub through: bool,
    pub connected: bool,
}

impl Model for KeptRouter {
    ghost use Rattle.ctrl_model.specs.State.{Router};

    ghost Value = { Router };

    ghost view = { λ r. record { name = r.name; attributes = r.attributes; cost = r.cost; through = r.through; connected = r.connected } };
}

impl Named for KeptRouter {
    ghost name_of = { λ r. r.name };

    fn name(&self) -> &[u8] {
        self.name.bytes()
    }
}

/// An identity or a service, or a router by its name and attributes alone, as it is: both are lent. Contracts see it as an entity of
/// the controller's state.
#[derive(Drop)]
pub struct EntityView<'a> {
    pub name: &'a Name,
    pub attributes: &'a Names,
}

impl<'a> Model for EntityView<'a> {
    ghost use Rattle.ctrl_model.specs.State.{Entity};

    ghost Value = { Entity };

    ghost view = { λ e. record { name = e.name.now; attributes = e.attributes.now } };
}

/// An edge router as it is: its name and its attributes are lent, the rest are values. Contracts see it as a router of the
/// controller's state.
#[derive(Drop)]
pub struct RouterView<'a> {
    pub name: &'a Name,
    pub attributes: &'a Names,
    /// What a path pays to enter it, 0 to 65,535.
    pub cost: u32,
    pub through: bool,
    pub connected: bool,
}

impl<'a> Model for RouterView<'a> {
    ghost use Rattle.ctrl_model.specs.State.{Router};

    ghost Value = { Router };

    ghost view = { λ r. record { name = r.name.now; attributes = r.attributes.now; cost = r.cost; through = r.through; connected = r.connected } };
}
