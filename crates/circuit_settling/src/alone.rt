ghost use Rattle.std.specs.Prelude.{◌≡◌, IfOk};
ghost use Rattle.circuit_settling.specs.PresentRecords.{stays_with};

use crate::staying::{Present, stays};
use circuits::{Circuit, CircuitView};
use ctrl_model::{Kind, Numbers};
use entity_store::Entities;
use fabric_graph::{Fabric, FabricAfter};
use std::alloc::{AllocError, Global};
use terminators::{Terminators, TerminatorsAfter};

/// Whether a circuit would stay beside some entities, links and terminators (docs/RULES.md, "Settling").
pub fn would_stay(
    alloc: Global,
    entities: &Entities,
    fabric: &FabricAfter,
    terminators: &TerminatorsAfter,
    circuit: &Circuit,
) -> Result<bool, AllocError>
    ensures { IfOk result (λ b. b ≡ stays_with entities.now fabric.now terminators.now (0, circuit.now)) }
{
    let identities = entities.numbers(alloc, Kind::Identity)?;
    let services = entities.numbers(alloc, Kind::Service)?;
    let routers = entities.routers(alloc)?;
    let present = Present {
        identities: &identities,
        services: &services,
        terminators,
        routers: routers.as_slice(),
        fabric,
    };
    stays(alloc, &present, &CircuitView::of(circuit))
}

/// Whether a circuit stays beside the entities, links and terminators that stand.
pub fn stays_here(
    alloc: Global,
    entities: &Entities,
    fabric: &Fabric,
    terminators: &Terminators,
    circuit: &Circuit,
) -> Result<bool, AllocError>
    ensures { IfOk result (λ b. b ≡ stays_with entities.now fabric.now terminators.now (0, circuit.now)) }
{
    let links = Numbers::of(Vec::new(alloc));
    let terms = Numbers::of(Vec::new(alloc));
    let present = FabricAfter::new(fabric, None, &links);
    let offered = TerminatorsAfter::new(terminators, None, &terms);
    would_stay(alloc, entities, &present, &offered, circuit)
}
