ghost use Rattle.std.specs.Prelude.{◌≡◌, IfOk};
ghost use Rattle.circuit_settling.specs.PresentRecords.{stays_beside};

use crate::paths::is_path;
use circuits::CircuitView;
use ctrl_model::{Numbers, RouterSeen};
use fabric_graph::FabricAfter;
use record_tables::is_among;
use std::alloc::{AllocError, Global};
use terminators::TerminatorsAfter;

/// What is present, as circuits need it: the numbers of the identities and of the services, the terminators, the routers, and
/// the links.
#[derive(Clone, Copy)]
pub struct Present<'a> {
    pub identities: &'a Numbers,
    pub services: &'a Numbers,
    pub terminators: &'a TerminatorsAfter<'a>,
    pub routers: &'a [RouterSeen],
    pub fabric: &'a FabricAfter<'a>,
}

/// Whether the circuit stays: its identity, its service and its terminator are present, and its links are a path from its
/// ingress to the terminator's router.
pub fn stays(alloc: Global, present: &Present, circuit: &CircuitView) -> Result<bool, AllocError>
    ensures { IfOk result (λ b. b ≡ stays_beside present.now circuit.now) }
{
    if !is_among(circuit.identity.0, present.identities.as_slice()) {
        return Ok(false);
    }
    if !is_among(circuit.service.0, present.services.as_slice()) {
        return Ok(false);
    }
    match present.terminators.get(circuit.terminator) {
        Some(term) => is_path(alloc, present, circuit.ingress, circuit.links, term.router),
        None => Ok(false),
    }
}
