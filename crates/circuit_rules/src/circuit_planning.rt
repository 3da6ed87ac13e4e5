ghost use Rattle.std.specs.Prelude.{◌≡◌, true, false, IfOk, MatchOption};
ghost use Rattle.ctrl_model.specs.CircuitCommands.{create_circuit, delete_circuit, explain, claim_from, verify_route, show_circuit};
ghost use Rattle.ctrl_model.specs.Claims.{justified};
ghost use Rattle.ctrl_model.specs.Controller.{carry};
ghost use Rattle.ctrl_model.specs.State.{State};
ghost use Rattle.circuit_rules.specs.Decisions.{Grants};
ghost use Rattle.circuit_rules.specs.Views.{asked};
ghost use Rattle.circuit_rules.specs.CircuitParts.{AreParts};
ghost use Rattle.circuit_rules.specs.CircuitPlans.{is_circuit_command, is_claim, is_unclaimed};
ghost use Rattle.circuit_rules.specs.PlannedCircuits.{Answers, with_entities, ask_at, network_in};
ghost use Rattle.circuit_rules.specs.Explanations.{IsExplained};

use crate::circuit_asking::{Request, ask_of, decided, explained, verified};
use crate::circuit_names::{name_at, router_name};
use crate::circuit_parts::Parts;
use crate::views::{Ask, DecideFault, Route};
use circuits::{Circuit, CircuitChange};
use ctrl_model::{
    CircuitNo, Command, Explanation, Field, Kind, Name, Numbers, Reaches, Refusal, Reply, RouterNo,
    TermNo,
};
use model_laws::Plan;
use std::alloc::{AllocError, Global};

// Plans the circuit of a route that was granted.
fn plan_grant(parts: &Parts, ask: &Ask, route: Route) -> Result<Plan<CircuitChange>, AllocError>
    requires parts { AreParts parts.now }
    requires granted { Grants (network_in parts.now) (asked ask.now) route }
    ensures { IfOk result (Answers (create_circuit (asked ask.now)) parts.now) }
{
    let Some(identity) = ask.identity else {
        unreachable!()
    };
    let Some(service) = ask.service else {
        unreachable!()
    };
    let name = router_name(parts.entities, route.ingress)?;
    let links = route.links.copy()?;
    let reply = Reply::Circuit {
        circuit: CircuitNo(parts.circuits.next()),
        ingress: name,
        links,
        terminator: route.terminator,
        total: route.total,
    };
    let circuit = Circuit {
        identity,
        service,
        terminator: route.terminator,
        ingress: route.ingress,
        links: route.links,
    };
    Ok(Plan {
        reply,
        change: Some(CircuitChange::Add(circuit)),
    })
}

// Plans the answer to CreateCircuit.
fn plan_create_circuit(
    alloc: Global,
    parts: &Parts,
    request: &Request,
) -> Result<Plan<CircuitChange>, AllocError>
    requires { AreParts parts.now }
    ensures { IfOk result (Answers (λ s. create_circuit (ask_at request.now s) s) parts.now) }
{
    let ask = ask_of(parts.entities, request)?;
    match decided(alloc, parts, &ask) {
        Ok(route) => plan_grant(parts, &ask, route),
        Err(DecideFault::Denied(denial)) => Ok(Plan::refused(Refusal::Denied(denial))),
        Err(DecideFault::NoMemory) => Err(AllocError),
    }
}

// Plans the answer to DeleteCircuit.
fn plan_delete_circuit(parts: &Parts, no: CircuitNo) -> Plan<CircuitChange>
    ensures { Answers (delete_circuit no.0) parts.now result }
{
    match parts.circuits.get(no) {
        Ok(_) => Plan::changed(Reply::Done, CircuitChange::Remove(no)),
        Err(_) => Plan::refused(Refusal::Unknown { field: Field::No }),
    }
}

// Plans the reply to Explain, of the explanation of a route that would be granted.
fn plan_explained(
    parts: &Parts,
    ask: &Ask,
    claim: Explanation,
) -> Result<Plan<CircuitChange>, AllocError>
    requires parts { AreParts parts.now }
    requires explained { IsExplained (network_in parts.now) (asked ask.now) claim }
    ensures { IfOk result (Answers (explain (asked ask.now)) parts.now) }
{
    let ingress = router_name(parts.entities, claim.ingress)?;
    Ok(Plan::shown(Reply::Explained { ingress, claim }))
}

// Plans the answer to Explain.
fn plan_explain(
    alloc: Global,
    parts: &Parts,
    request: &Request,
) -> Result<Plan<CircuitChange>, AllocError>
    requires { AreParts parts.now }
    ensures { IfOk result (Answers (λ s. explain (ask_at request.now s) s) parts.now) }
{
    let ask = ask_of(parts.entities, request)?;
    match explained(alloc, parts, &ask) {
        Ok(claim) => plan_explained(parts, &ask, claim),
        Err(DecideFault::Denied(denial)) => Ok(Plan::refused(Refusal::Denied(denial))),
        Err(DecideFault::NoMemory) => Err(AllocError),
    }
}

// What is claimed from the ingress of a number.
fn claim_of(
    ingress: u32,
    links: &Numbers,
    potentials: &Reaches,
    routers: &Numbers,
    terminator: u32,
    total: u32,
) -> Result<Explanation, AllocError>
    ensures { IfOk result (λ claim. claim ≡ claim_from links.now potentials.now routers.now terminator total ingress) }
{
    let links = links.copy()?;
    let potentials = potentials.copy()?;
    let routers = routers.copy()?;
    Ok(Explanation {
        ingress: RouterNo(ingress),
        links,
        potentials,
        routers,
        terminator: TermNo(terminator),
        total,
    })
}

// Whether a claimed route is justified for a request.
fn is_certified(
    alloc: Global,
    parts: &Parts,
    request: &Request,
    claim: &Explanation,
) -> Result<bool, AllocError>
    ensures { IfOk result (λ yes. yes ≡ justified (network_in parts.now) (ask_at request.now (with_entities parts.now.entities.now)) claim.now) }
{
    let ask = ask_of(parts.entities, request)?;
    verified(alloc, parts, &ask, claim)
}

// Whether a route that is claimed from the ingress of a number is justified for a request.
fn is_certified_from(
    alloc: Global,
    parts: &Parts,
    request: &Request,
    ingress: u32,
    links: &Numbers,
    potentials: &Reaches,
    routers: &Numbers,
    terminator: u32,
    total: u32,
) -> Result<bool, AllocError>
    ensures { IfOk result (λ yes. yes ≡ justified (network_in parts.now) (ask_at request.now (with_entities parts.now.entities.now)) (claim_from links.now potentials.now routers.now terminator total ingress)) }
{
    let claim = claim_of(ingress, links, potentials, routers, terminator, total)?;
    is_certified(alloc, parts, request, &claim)
}

// Plans the answer to VerifyRoute.
fn plan_verify_route(
    alloc: Global,
    parts: &Parts,
    request: &Request,
    chosen: &Name,
    links: &Numbers,
    potentials: &Reaches,
    routers: &Numbers,
    terminator: u32,
    total: u32,
) -> Result<Plan<CircuitChange>, AllocError>
    ensures { IfOk result (Answers (λ s. verify_route (ask_at request.now s) chosen.now links.now potentials.now routers.now terminator total s) parts.now) }
{
    let Ok(ingress) = parts.entities.find(Kind::Router, chosen) else {
        return Ok(Plan::shown(Reply::Verified { certified: false }));
    };
    let certified = is_certified_from(
        alloc, parts, request, ingress, links, potentials, routers, terminator, total,
    )?;
    Ok(Plan::shown(Reply::Verified { certified }))
}

// Plans the answer to a VerifyRoute. None is another command.
fn plan_claim(
    alloc: Global,
    parts: &Parts,
    command: &Command,
) -> Result<Option<Plan<CircuitChange>>, AllocError>
    ensures { IfOk result (λ o. MatchOption o (is_claim command.now ≡ false) (Answers (carry command.now) parts.now)) }
{
    let Command::VerifyRoute {
        identity,
        service,
        ingress,
        instance,
        chosen,
        links,
        potentials,
        routers,
        terminator,
        total,
    } = command
    else {
        return Ok(None);
    };
    let request = Request {
        identity,
        service,
        ingress,
        instance,
    };
    let plan = plan_verify_route(
        alloc,
        parts,
        &request,
        chosen,
        links,
        potentials,
        routers,
        *terminator,
        *total,
    )?;
    Ok(Some(plan))
}

// Plans the answer to ShowCircuit.
fn plan_show_circuit(parts: &Parts, no: CircuitNo) -> Result<Plan<CircuitChange>, AllocError>
    requires { AreParts parts.now }
    ensures { IfOk result (Answers (show_circuit no.0) parts.now) }
{
    let Ok(circuit) = parts.circuits.get(no) else {
        return Ok(Plan::refused(Refusal::Unknown { field: Field::No }));
    };
    let identity = name_at(parts.entities, Kind::Identity, circuit.identity.0)?;
    let ingress = router_name(parts.entities, circuit.ingress)?;
    let service = name_at(parts.entities, Kind::Service, circuit.service.0)?;
    let links = circuit.links.copy()?;
    Ok(Plan::shown(Reply::Shown {
        identity,
        ingress,
        links,
        service,
        terminator: circuit.terminator,
    }))
}

// Plans the answer to a command on circuits that has no claim. None is another command.
fn plan_without_claim(
    alloc: Global,
    parts: &Parts,
    command: &Command,
) -> Result<Option<Plan<CircuitChange>>, AllocError>
    requires { AreParts parts.now }
    ensures { IfOk result (λ o. MatchOption o (is_unclaimed command.now ≡ false) (Answers (carry command.now) parts.now)) }
{
    match command {
        Command::CreateCircuit {
            identity,
            service,
            ingress,
            instance,
        } => {
            let request = Request {
                identity,
                service,
                ingress,
                instance,
            };
            Ok(Some(plan_create_circuit(alloc, parts, &request)?))
        }
        Command::DeleteCircuit { no } => Ok(Some(plan_delete_circuit(parts, CircuitNo(*no)))),
        Command::Explain {
            identity,
            service,
            ingress,
            instance,
        } => {
            let request = Request {
                identity,
                service,
                ingress,
                instance,
            };
            Ok(Some(plan_explain(alloc, parts, &request)?))
        }
        Command::ShowCircuit { no } => Ok(Some(plan_show_circuit(parts, CircuitNo(*no))?)),
        _ => Ok(None),
    }
}

/// Plans the answer to a command on circuits: in every valid state with these parts and these grant counts it is the controller's
/// (docs/RULES.md, "Circuits"). None is a command on something else.
pub fn plan_circuit_command(
    alloc: Global,
    parts: &Parts,
    command: &Command,
) -> Result<Option<Plan<CircuitChange>>, AllocError>
    requires { AreParts parts.now }
    ensures { IfOk result (λ o. MatchOption o (is_circuit_command command.now ≡ false) (Answers (carry command.now) parts.now)) }
{
    if let Some(plan) = plan_without_claim(alloc, parts, command)? {
        return Ok(Some(plan));
    }
    plan_claim(alloc, parts, command)
}
