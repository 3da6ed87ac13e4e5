ghost use Rattle.std.specs.Prelude.{◌≡◌, true, IfOk};
ghost use Rattle.ctrl_model.specs.Numbered.{is_present};
ghost use Rattle.entity_store.specs.EntityTables.{is_entity_kind};
ghost use Rattle.entity_store.specs.TableRules.{is_there};
ghost use Rattle.circuit_rules.specs.PlannedCircuits.{name_at, router_at};

use ctrl_model::{Copies, Kind, Name, RouterNo};
use entity_store::Entities;
use std::alloc::AllocError;

/// The name of a present entity.
pub fn name_at(entities: &Entities, kind: Kind, number: u32) -> Result<Name, AllocError>
    requires kind { is_entity_kind kind ≡ true }
    requires there { is_there kind number entities.now ≡ true }
    ensures { IfOk result (λ name. name ≡ name_at kind number entities.now) }
{
    let Some((name, _attributes)) = entities.seen(kind, number) else {
        unreachable!()
    };
    name.copy()
}

/// The name of a present router.
pub fn router_name(entities: &Entities, router: RouterNo) -> Result<Name, AllocError>
    requires { is_present entities.now.routers.rows router.0 ≡ true }
    ensures { IfOk result (λ name. name ≡ router_at router.0 entities.now) }
{
    let Some(router) = entities.router(router) else {
        unreachable!()
    };
    router.name.copy()
}
