ghost use Rattle.std.specs.Prelude.{◌≡◌, OnOk};
ghost use Rattle.ctrl_model.specs.ValidState.{ValidState};
ghost use Rattle.ctrl_model.specs.declared.kinds.Kind.TheVariants as kind;
ghost use Rattle.state_building.specs.JoinedRecords.{skipped, joined};
ghost use Rattle.ctrl_core.specs.Changes.{CanChange, after_change};
ghost use Rattle.ctrl_core.specs.JoinedRows.{CanJoin, KeepState, MayJoin};
ghost use Rattle.ctrl_core.specs.KeptState.{Keeps};
ghost use Rattle.core_stores.specs.StoredState.{state_of};

use crate::applying::apply_change;
use crate::counting::change_steps;
use core_stores::{Change, Settled, Stores, apply_steps, count_loads, loads_after, skip};
use ctrl_model::{Kind, Name, Names};
use entity_commands::EntityChange;
use std::alloc::{AllocError, Global};

// Makes a change after which nothing settles, and takes the steps of the counts.
fn make(alloc: Global, stores: &mut Stores, change: Change) -> Result<(), AllocError>
    requires kept { Keeps stores.old }
    requires can { CanChange change (state_of stores.old) }
    requires valid { ValidState (after_change change (state_of stores.old)) }
    ensures { OnOk result (KeepState stores.new (after_change change (state_of stores.old))) }
{
    let steps = change_steps(alloc, stores, &change)?;
    let loads = loads_after(&change, &Settled::nothing(alloc));
    apply_change(alloc, stores, change)?;
    count_loads(alloc, stores, loads)?;
    apply_steps(&mut stores.grants, &steps)?;
    Ok(())
}

/// Makes a change that adds a record of a kind under a number.
pub fn make_at(
    alloc: Global,
    stores: &mut Stores,
    kind: Kind,
    number: u32,
    change: Change,
) -> Result<(), AllocError>
    requires kept { Keeps stores.old }
    requires may { CanJoin kind number change (state_of stores.old) }
    ensures { OnOk result (KeepState stores.new (after_change change (skipped kind number (state_of stores.old)))) }
{
    skip(stores, kind, number);
    make(alloc, stores, change)
}

/// Adds a router under its number: it is made, and then marked.
pub fn join_router(
    alloc: Global,
    stores: &mut Stores,
    number: u32,
    name: Name,
    attributes: Names,
    cost: u32,
    through: bool,
    connected: bool,
) -> Result<(), AllocError>
    requires kept { Keeps stores.old }
    requires may { MayJoin kind.Router number (record { name = name; attributes = attributes; cost = cost; through = through; connected = connected }) (state_of stores.old) }
    ensures { OnOk result (KeepState stores.new (joined kind.Router number (record { name = name; attributes = attributes; cost = cost; through = through; connected = connected }) (state_of stores.old))) }
{
    let change = EntityChange::AddRouter {
        name,
        attributes,
        cost,
        through,
    };
    make_at(alloc, stores, Kind::Router, number, Change::Entity(change))?;
    let mark = EntityChange::Mark {
        number,
        cost,
        through,
        connected,
    };
    make(alloc, stores, Change::Entity(mark))
}
