ghost use Rattle.std.specs.Prelude.{◌≡◌, IfOk, IsErrOf, true, map};
ghost use Rattle.ctrl_model.specs.Claims.{justified, router_numbers};
ghost use Rattle.ctrl_model.specs.Networks.{admissible};
ghost use Rattle.fabric_graph.specs.Routers.{AreRouters};
ghost use Rattle.circuit_rules.specs.Views.{network, asked};
ghost use Rattle.circuit_rules.specs.BestClaims.{IsBestClaim};
ghost use Rattle.circuit_rules.specs.Decisions.{Grants, MayWantMemory};
ghost use Rattle.circuit_rules.specs.Explanations.{IsExplained, Explains};
ghost use Rattle.circuit_rules.specs.Offers.{offer_of};
ghost use Rattle.circuit_rules.specs.Reached.{explained, potentials_of};
ghost use Rattle.circuit_rules.specs.Searched.{IsSearchOf};

use crate::deciding::{Found, find_route};
use crate::numbers::router_numbers;
use crate::offers::{offer_at, offers};
use crate::reaching::reaches;
use crate::views::{Ask, DecideFault, View};
use ctrl_model::{Explanation, Instance, Numbers, Reaches, ServiceNo};
use path_search::CostSearch;
use route_choice::place_of;
use std::alloc::{AllocError, Global};

// What shows that a route is the least.
#[derive(Drop)]
struct Shown {
    potentials: Reaches,
    routers: Numbers,
}

// The least costs to each router that carries an admissible terminator of a precedence of at most a place.
fn potentials_of(
    alloc: Global,
    view: &View,
    search: &mut CostSearch,
    service: ServiceNo,
    instance: &Instance,
    most: u8,
) -> Result<Reaches, AllocError>
    requires routers { AreRouters view.now.routers.now }
    requires search { IsSearchOf (network view.now) search.old }
    ensures { IfOk result (λ reaches. reaches ≡ potentials_of (network view.now) (map (offer_of (network view.now)) (admissible (network view.now) service.0 instance.now)) most) }
{
    let offers = offers(alloc, view, service, instance)?;
    let potentials = reaches(alloc, view, search, offers.as_slice(), most)?;
    Ok(Reaches::of(potentials))
}

// These least costs, and the numbers of the routers.
fn shown_by(
    alloc: Global,
    view: &View,
    search: &mut CostSearch,
    service: ServiceNo,
    instance: &Instance,
    most: u8,
) -> Result<Shown, AllocError>
    requires routers { AreRouters view.now.routers.now }
    requires search { IsSearchOf (network view.now) search.old }
    ensures potentials { IfOk result (λ shown. shown.potentials ≡ potentials_of (network view.now) (map (offer_of (network view.now)) (admissible (network view.now) service.0 instance.now)) most) }
    ensures routers { IfOk result (λ shown. shown.routers ≡ router_numbers (network view.now)) }
{
    let potentials = potentials_of(alloc, view, search, service, instance, most)?;
    let routers = router_numbers(alloc, view.routers)?;
    Ok(Shown {
        potentials,
        routers: Numbers::of(routers),
    })
}

// A route with what shows that it is the least: the least costs to each router that carries an admissible terminator of a
// precedence of at most a place.
fn explanation(
    alloc: Global,
    view: &View,
    service: ServiceNo,
    instance: &Instance,
    found: Found,
    most: u8,
) -> Result<Explanation, AllocError>
    requires routers { AreRouters view.now.routers.now }
    requires search { IsSearchOf (network view.now) found.search }
    ensures { IfOk result (λ e. e ≡ explained (network view.now) (map (offer_of (network view.now)) (admissible (network view.now) service.0 instance.now)) most found.route) }
{
    let Found { route, mut search } = found;
    let shown = shown_by(alloc, view, &mut search, service, instance, most)?;
    Ok(Explanation {
        ingress: route.ingress,
        links: route.links,
        potentials: shown.potentials,
        routers: shown.routers,
        terminator: route.terminator,
        total: route.total,
    })
}

// A route that a request gets, with what shows that it is the least.
fn explain_route(
    alloc: Global,
    view: &View,
    ask: &Ask,
    found: Found,
) -> Result<Explanation, AllocError>
    requires routers { AreRouters view.now.routers.now }
    requires granted { Grants (network view.now) (asked ask.now) found.route }
    requires search { IsSearchOf (network view.now) found.search }
    ensures explained { IfOk result (IsExplained (network view.now) (asked ask.now)) }
    ensures justified { IfOk result (λ e. justified (network view.now) (asked ask.now) e ≡ true) }
    ensures best { IfOk result (IsBestClaim (network view.now) (asked ask.now)) }
{
    let _next = view.terminators.next();
    let _next_link = view.fabric.next();
    let service = ask.service.unwrap();
    let offer = offer_at(view, found.route.terminator).unwrap();
    let most = place_of(offer.precedence);
    explanation(alloc, view, service, &ask.instance, found, most)
}

/// The route that a request would get, with what shows that it is the least; or why it gets none (docs/RULES.md, "Explanations and
/// claims").
pub fn explain(alloc: Global, view: &View, ask: &Ask) -> Result<Explanation, DecideFault>
    requires { AreRouters view.now.routers.now }
    ensures explains { Explains (network view.now) (asked ask.now) result }
    // Memory can be wanting only where no rule fails that needs none.
    ensures memory { IsErrOf result DecideFault.NoMemory → MayWantMemory (network view.now) (asked ask.now) }
    // An explanation is a justified claim, so that no candidate is better.
    ensures justified { IfOk result (λ e. justified (network view.now) (asked ask.now) e ≡ true) }
    ensures best { IfOk result (IsBestClaim (network view.now) (asked ask.now)) }
{
    let found = find_route(alloc, view, ask)?;
    let explanation = explain_route(alloc, view, ask, found)?;
    Ok(explanation)
}
