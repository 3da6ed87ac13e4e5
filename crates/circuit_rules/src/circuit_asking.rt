ghost use Rattle.std.specs.Prelude.{◌≡◌, IfOk};
ghost use Rattle.ctrl_model.specs.CircuitCommands.{wanted_ingress};
ghost use Rattle.ctrl_model.specs.Claims.{justified};
ghost use Rattle.circuit_rules.specs.Decisions.{Decides};
ghost use Rattle.circuit_rules.specs.Views.{network, asked, wanted_of};
ghost use Rattle.circuit_rules.specs.Explanations.{Explains};
ghost use Rattle.circuit_rules.specs.CircuitParts.{AreParts};
ghost use Rattle.circuit_rules.specs.PlannedCircuits.{with_entities, ask_at, network_over, network_in};

use crate::circuit_parts::Parts;
use crate::deciding::decide;
use crate::explaining::explain;
use crate::verifying::verify;
use crate::views::{Ask, DecideFault, Route, View, Wanted};
use ctrl_model::{
    Copies, Explanation, IdentityNo, Instance, Kind, Name, RouterNo, RouterSeen, ServiceNo,
};
use entity_store::Entities;
use std::alloc::{AllocError, Global};

/// A circuit request by the names that its command gives.
#[derive(Clone, Copy)]
pub struct Request<'a> {
    pub identity: &'a Name,
    pub service: &'a Name,
    pub ingress: &'a Option<Name>,
    pub instance: &'a Instance,
}

// The ingress that a request names, by its number.
fn wanted(entities: &Entities, ingress: &Option<Name>) -> Wanted
    ensures { wanted_of result ≡ wanted_ingress (with_entities entities.now) ingress.now }
{
    match ingress {
        None => Wanted::Any,
        Some(name) => match entities.find(Kind::Router, name) {
            Ok(number) => Wanted::One(RouterNo(number)),
            Err(_) => Wanted::Absent,
        },
    }
}

/// A request by the numbers of what it names.
pub fn ask_of(entities: &Entities, request: &Request) -> Result<Ask, AllocError>
    ensures { IfOk result (λ ask. asked ask ≡ ask_at request.now (with_entities entities.now)) }
{
    let identity = match entities.find(Kind::Identity, request.identity) {
        Ok(number) => Some(IdentityNo(number)),
        Err(_) => None,
    };
    let service = match entities.find(Kind::Service, request.service) {
        Ok(number) => Some(ServiceNo(number)),
        Err(_) => None,
    };
    let ingress = wanted(entities, request.ingress);
    let instance = request.instance.copy()?;
    Ok(Ask {
        identity,
        service,
        ingress,
        instance,
    })
}

// What decides about routes, of the parts and of their routers.
fn view_of<'a>(parts: &'a Parts, routers: &'a [RouterSeen]) -> View<'a>
    ensures network { network result ≡ network_over parts.now routers.now }
    ensures routers { result.routers.now ≡ routers.now }
{
    View {
        dial: parts.dial,
        bind: parts.bind,
        identity_router: parts.identity_router,
        service_router: parts.service_router,
        routers,
        fabric: parts.fabric,
        terminators: parts.terminators,
        circuits_full: parts.circuits.is_full(),
    }
}

/// The least route of a request, or why it gets none.
pub fn decided(alloc: Global, parts: &Parts, ask: &Ask) -> Result<Route, DecideFault>
    requires { AreParts parts.now }
    ensures { Decides (network_in parts.now) (asked ask.now) result }
{
    let routers = parts.entities.routers(alloc)?;
    let view = view_of(parts, routers.as_slice());
    decide(alloc, &view, ask)
}

/// The explanation of the least route of a request, or why it gets none.
pub fn explained(alloc: Global, parts: &Parts, ask: &Ask) -> Result<Explanation, DecideFault>
    requires { AreParts parts.now }
    ensures { Explains (network_in parts.now) (asked ask.now) result }
{
    let routers = parts.entities.routers(alloc)?;
    let view = view_of(parts, routers.as_slice());
    explain(alloc, &view, ask)
}

/// Whether a claimed route is justified for a request.
pub fn verified(
    alloc: Global,
    parts: &Parts,
    ask: &Ask,
    claim: &Explanation,
) -> Result<bool, AllocError>
    ensures { IfOk result (λ yes. yes ≡ justified (network_in parts.now) (asked ask.now) claim.now) }
{
    let routers = parts.entities.routers(alloc)?;
    let view = view_of(parts, routers.as_slice());
    verify(alloc, &view, ask, claim)
}
