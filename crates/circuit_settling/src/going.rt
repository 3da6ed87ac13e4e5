ghost use Rattle.std.specs.Prelude.{◌≡◌, IfOk};
ghost use Rattle.ctrl_model.specs.Numbered.{numbers};
ghost use Rattle.circuits.specs.MovedCircuits.{moves_by, ended_by};
ghost use Rattle.fabric_graph.specs.Routers.{AreRouters, HaveGraph};
ghost use Rattle.circuit_settling.specs.OtherLinks.{going_after, granted_at, keeps_at, way_at};
ghost use Rattle.circuit_settling.specs.PresentRecords.{Remains};

use crate::granting::GrantsAfter;
use crate::judging::{Judged, judge};
use crate::rerouting::search_of;
use crate::settling::{going_among, revoked_among};
use crate::staying::Present;
use circuits::{CircuitsAfter, Moves};
use ctrl_model::{Kind, Numbers, RouterSeen};
use entity_store::EntitiesAfter;
use std::alloc::{AllocError, Global};

/// What circuits need of the entities that there will be: the numbers of the identities and of the services, and the routers as routes
/// see them.
#[derive(Drop)]
pub struct Remaining {
    pub identities: Numbers,
    pub services: Numbers,
    pub routers: Vec<RouterSeen>,
}

/// What circuits need of the entities that there will be after a change.
pub fn remaining_of(alloc: Global, entities: &EntitiesAfter) -> Result<Remaining, AllocError>
    ensures { IfOk result (Remains entities.now) }
{
    Ok(Remaining {
        identities: entities.numbers(alloc, Kind::Identity)?,
        services: entities.numbers(alloc, Kind::Service)?,
        routers: entities.routers(alloc)?,
    })
}

/// The circuits that do not stay as they are after a change: where what granted each circuit stood before and no count falls, those whose
/// path the change takes (docs/RULES.md, "Settling").
pub fn going_after(
    alloc: Global,
    circuits: &CircuitsAfter,
    present: &Present,
    grants: &GrantsAfter,
    pathless: &Numbers,
    granted: bool,
) -> Result<Numbers, AllocError>
    ensures { IfOk result (λ ns. ns ≡ going_after granted pathless.now (numbers circuits.now.circuits.rows) (granted_at present.now grants.now circuits.now.circuits.rows) (keeps_at present.now grants.now circuits.now.circuits.rows)) }
{
    if granted {
        return pathless.copy();
    }
    let all = circuits.numbers(alloc)?;
    if pathless.is_empty() {
        return revoked_among(alloc, circuits, present, grants, &all);
    }
    going_among(alloc, circuits, present, grants, &all)
}

/// What becomes of circuits that do not stay as they are. Where there are none, nothing is searched.
pub fn judged(
    alloc: Global,
    present: &Present,
    grants: &GrantsAfter,
    circuits: &CircuitsAfter,
    going: &Numbers,
) -> Result<Judged, AllocError>
    requires routers { AreRouters present.now.routers.now }
    requires links { HaveGraph present.now.fabric.now }
    ensures ended { IfOk result (λ j. j.ended ≡ ended_by (way_at present.now grants.now circuits.now.circuits.rows) going.now) }
    ensures moves { IfOk result (λ j. j.moves ≡ moves_by (way_at present.now grants.now circuits.now.circuits.rows) going.now) }
{
    if going.is_empty() {
        return Ok(Judged {
            ended: Numbers::of(Vec::new(alloc)),
            moves: Moves::of(Vec::new(alloc)),
        });
    }
    let mut search = search_of(alloc, present)?;
    judge(alloc, present, grants, &mut search, circuits, going)
}
