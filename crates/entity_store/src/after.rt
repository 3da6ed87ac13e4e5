ghost use Rattle.std.specs.Prelude.{◌≡◌, true, IfOk, map};
ghost use Rattle.std.specs.Option.{option_map};
ghost use Rattle.ctrl_model.specs.Networks.{seen};
ghost use Rattle.ctrl_model.specs.Numbered.{numbers};
ghost use Rattle.record_tables.specs.AfterChange.{changed_by};
ghost use Rattle.entity_store.specs.EntityChanges.{after_entity_change};
ghost use Rattle.entity_store.specs.EntityTables.{is_entity_kind, entities};

use crate::changed_routers::routers_after;
use crate::changes::EntityChange;
use crate::entities::Entities;
use crate::turns::turn_of;
use ctrl_model::{Kind, Numbers, RouterSeen};
use record_tables::turned;
use std::alloc::{AllocError, Global};
use std::marker::Model;

/// The entities as they will be after a change, if there is one. Contracts see them as tables (`EntityTables`).
///
/// A kind that a call takes is Identity, Service or Router.
#[derive(Drop)]
pub struct EntitiesAfter<'a> {
    pub entities: &'a Entities,
    pub change: Option<&'a EntityChange>,
}

impl<'a> Model for EntitiesAfter<'a> {
    ghost use Rattle.std.specs.Prelude.{option_map};
    ghost use Rattle.record_tables.specs.AfterChange.{changed_by};
    ghost use Rattle.entity_store.specs.EntityTables.{Tables};
    ghost use Rattle.entity_store.specs.EntityChanges.{after_entity_change};

    ghost Value = { Tables };

    ghost view = { λ a. changed_by after_entity_change (option_map (λ c. c.now) a.change) a.entities.now };
}

impl<'a> EntitiesAfter<'a> {
    /// The entities after a change, if there is one.
    pub fn new(entities: &'a Entities, change: Option<&'a EntityChange>) -> EntitiesAfter<'a>
        ensures { result ≡ changed_by after_entity_change (option_map (λ c. c.now) change.entry) entities.now }
    {
        EntitiesAfter { entities, change }
    }

    /// The numbers of the entities of a kind, ascending.
    pub fn numbers(&self, alloc: Global, kind: Kind) -> Result<Numbers, AllocError>
        requires { is_entity_kind kind ≡ true }
        ensures { IfOk result (λ ns. ns ≡ numbers (entities kind self.now)) }
    {
        let numbers = self.entities.numbers(alloc, kind)?;
        turned(
            alloc,
            turn_of(kind, self.change),
            self.entities.next(kind),
            numbers,
        )
    }

    /// The routers as routes see them, by ascending number.
    pub fn routers(&self, alloc: Global) -> Result<Vec<RouterSeen>, AllocError>
        ensures { IfOk result (λ v. v.items ≡ map seen self.now.routers.rows) }
    {
        let routers = self.entities.routers(alloc)?;
        match self.change {
            None => Ok(routers),
            Some(change) => {
                routers_after(alloc, change, self.entities.next(Kind::Router), routers)
            }
        }
    }
}
