ghost use Rattle.std.specs.Prelude.{◌≡◌, ℕ, ◌<◌, ◌≤◌, All, length, option_map, IfOk, IfSome, IsErrOf};
ghost use Rattle.ctrl_model.specs.Limits.{most_terminator_cost};
ghost use Rattle.ctrl_model.specs.Claims.{no_path};
ghost use Rattle.path_certificate.specs.Graphs.{potential};
ghost use Rattle.path_search.specs.Searches.{IsLeast};
ghost use Rattle.fabric_graph.specs.Routers.{AreRouters};
ghost use Rattle.circuit_rules.specs.Views.{network, asked};
ghost use Rattle.circuit_rules.specs.Decisions.{Decides, MayWantMemory};
ghost use Rattle.path_search.specs.Visits.{costs_to};
ghost use Rattle.circuit_rules.specs.Searched.{MayBeEntered, Passes, end_rules, GoesFirst, IsSearched, IsBestWay, IsSearchOf};
ghost use Rattle.path_search.specs.ExitCosts.{AreCosts};
ghost use Rattle.route_choice.specs.RouteChoices.{exits_at};
ghost use Rattle.circuit_rules.specs.FoundRoutes.{AreWithin, IsFoundFirst, AreEnds, route_found};

use crate::ingresses::allowed_ingresses;
use crate::offers::allowed_offers;
use crate::places::{entries, exits};
use crate::views::{Ask, DecideFault, Route, View};
use ctrl_model::{Denial, IdentityNo, Potentials, Precedence, RouterNo, ServiceNo, TermNo};
use path_certificate::Graph;
use path_search::{CostSearch, visit_exits, walk};
use route_choice::{Choice, Entry, Exit, exits_at, first_of_all, place_of};
use std::alloc::{AllocError, Global};

/// Where a circuit may enter and end.
#[derive(Drop)]
pub struct Ends {
    pub entries: Vec<Entry>,
    pub exits: Vec<Exit>,
}

/// A route, and the search that found it.
#[derive(Drop)]
pub struct Found {
    pub route: Route,
    pub search: CostSearch,
}

// The route of a choice: over the first of the least paths between its places.
fn route_of(
    alloc: Global,
    graph: &Graph,
    costs: &[Potentials],
    choice: &Choice,
) -> Result<Route, AllocError>
    requires to { choice.now.to < length graph.now.through }
    requires from { choice.now.from < length graph.now.through }
    requires listed { choice.now.to < length costs.now }
    requires least { IsLeast graph.now choice.now.to (costs_to costs.now choice.now.to) }
    requires there { potential (costs_to costs.now choice.now.to) choice.now.from < no_path }
    ensures { IfOk result (GoesFirst graph.now costs.now choice.now) }
{
    let costs = &costs[choice.to as usize];
    let Some(links) = walk(alloc, graph, choice.to, costs, choice.from)? else {
        unreachable!()
    };
    Ok(Route {
        ingress: RouterNo(choice.ingress),
        links,
        terminator: TermNo(choice.terminator),
        total: choice.total,
    })
}

// The least route from entries to exits by a search that was at the places of the exits, if there is one.
fn route_over(
    alloc: Global,
    view: &View,
    search: &CostSearch,
    entries: &[Entry],
    exits: &[Exit],
) -> Result<Option<Route>, AllocError>
    requires routers { AreRouters view.now.routers.now }
    requires search { IsSearchOf (network view.now) search.now }
    requires least { (t : ℕ) → AreCosts search.now.graph exits.now t (costs_to search.now.costs t) }
    requires entries { All (λ x. x.place < length view.now.routers.now) entries.now }
    requires exits { All (λ o. o.place < length view.now.routers.now) exits.now }
    requires costs { All (λ o. o.cost ≤ most_terminator_cost) exits.now }
    ensures { IfOk result (IsSearched (network view.now) entries.now exits.now) }
{
    let costs = search.costs();
    let Some(choice) = first_of_all(costs, entries, exits, view.routers.len()) else {
        return Ok(None);
    };
    let route = route_of(alloc, search.graph(), costs, &choice)?;
    Ok(Some(route))
}

// The least route between the ends to an exit of the precedence that stands at a place, if there is one.
fn route_at(
    alloc: Global,
    view: &View,
    search: &mut CostSearch,
    ends: &Ends,
    place: u8,
) -> Result<Option<Route>, AllocError>
    requires routers { AreRouters view.now.routers.now }
    requires search { IsSearchOf (network view.now) search.old }
    requires ends { AreWithin (length view.now.routers.now) ends.now }
    ensures search { IsSearchOf (network view.now) search.new }
    ensures route { IfOk result (IsSearched (network view.now) ends.now.entries.items (exits_at place ends.now.exits.items)) }
{
    let some = exits_at(alloc, ends.exits.as_slice(), place)?;
    let exits = some.as_slice();
    visit_exits(alloc, search, exits)?;
    route_over(alloc, view, search, ends.entries.as_slice(), exits)
}

// The least route between the ends to an exit of the best precedence that has one. Places of a worse precedence are not searched.
fn first_route(
    alloc: Global,
    view: &View,
    search: &mut CostSearch,
    ends: &Ends,
) -> Result<Option<Route>, AllocError>
    requires routers { AreRouters view.now.routers.now }
    requires search { IsSearchOf (network view.now) search.old }
    requires ends { AreWithin (length view.now.routers.now) ends.now }
    ensures search { IsSearchOf (network view.now) search.new }
    ensures route { IfOk result (IsFoundFirst (network view.now) ends.now.entries.items ends.now.exits.items) }
{
    'places: for place in place_of(Precedence::Required)..place_of(Precedence::Failed) + 1 {
        let route = route_at(alloc, view, search, ends, place)?;
        if let Some(route) = route {
            return Ok(Some(route));
        }
    }
    Ok(None)
}

// Where a circuit of a request may enter and end. `Denied` comes where a rule on that fails.
fn ends_of(
    alloc: Global,
    view: &View,
    ask: &Ask,
    identity: IdentityNo,
    service: ServiceNo,
) -> Result<Ends, DecideFault>
    requires routers { AreRouters view.now.routers.now }
    ensures ends { Passes (end_rules (network view.now) (asked ask.now) identity.0 service.0) (AreEnds (network view.now) (asked ask.now) identity.0 service.0) result }
    ensures memory { IsErrOf result DecideFault.NoMemory → MayBeEntered (network view.now) (asked ask.now).ingress identity.0 service.0 }
{
    let ingresses = allowed_ingresses(alloc, view, ask.ingress, identity, service)?;
    let offers = allowed_offers(alloc, view, service, &ask.instance)?;
    let entries = entries(alloc, view.routers, ingresses.as_slice())?;
    let exits = exits(alloc, view.routers, offers.as_slice())?;
    Ok(Ends { entries, exits })
}

// The least route between ends, if there is one, and the search that found it.
fn found_between(alloc: Global, view: &View, ends: &Ends) -> Result<Option<Found>, AllocError>
    requires routers { AreRouters view.now.routers.now }
    requires ends { AreWithin (length view.now.routers.now) ends.now }
    ensures search { IfOk result (λ o. IfSome o (λ f. IsSearchOf (network view.now) f.search)) }
    ensures route { IfOk result (λ o. IsFoundFirst (network view.now) ends.now.entries.items ends.now.exits.items (option_map (λ f. f.route) o)) }
{
    let graph = view.fabric.graph_of(alloc, view.routers)?;
    let mut search = CostSearch::over(alloc, graph)?;
    match first_route(alloc, view, &mut search, ends)? {
        Some(route) => Ok(Some(Found { route, search })),
        None => Ok(None),
    }
}

// The least route of a request whose identity and service are present, if there is one, and the search that found it. `Denied` comes
// where a rule fails on where the circuit enters or ends.
fn best_route(
    alloc: Global,
    view: &View,
    ask: &Ask,
    identity: IdentityNo,
    service: ServiceNo,
) -> Result<Option<Found>, DecideFault>
    requires routers { AreRouters view.now.routers.now }
    requires who { (asked ask.now).identity ≡ Some identity.0 }
    requires what { (asked ask.now).service ≡ Some service.0 }
    ensures best { Passes (end_rules (network view.now) (asked ask.now) identity.0 service.0) (λ o. IsBestWay (network view.now) (asked ask.now) identity.0 service.0 (option_map (λ f. f.route) o)) result }
    ensures search { IfOk result (λ o. IfSome o (λ f. IsSearchOf (network view.now) f.search)) }
    ensures memory { IsErrOf result DecideFault.NoMemory → MayBeEntered (network view.now) (asked ask.now).ingress identity.0 service.0 }
{
    let _next = view.terminators.next();
    let ends = ends_of(alloc, view, ask, identity, service)?;
    let found = found_between(alloc, view, &ends)?;
    Ok(found)
}

/// The least route of a request and the search that found it, or why it gets none, as `decide` says.
pub fn find_route(alloc: Global, view: &View, ask: &Ask) -> Result<Found, DecideFault>
    requires { AreRouters view.now.routers.now }
    ensures decides { Decides (network view.now) (asked ask.now) (route_found result) }
    ensures search { IfOk result (λ f. IsSearchOf (network view.now) f.search) }
    ensures memory { IsErrOf result DecideFault.NoMemory → MayWantMemory (network view.now) (asked ask.now) }
{
    let Some(identity) = ask.identity else {
        return Err(DecideFault::Denied(Denial::UnknownIdentity));
    };
    let Some(service) = ask.service else {
        return Err(DecideFault::Denied(Denial::UnknownService));
    };
    let Some(found) = best_route(alloc, view, ask, identity, service)? else {
        return Err(DecideFault::Denied(Denial::NoPath));
    };
    if view.circuits_full {
        return Err(DecideFault::Denied(Denial::CircuitsFull));
    }
    Ok(found)
}

/// The least route of a request, or why it gets none: `Denied` with the first rule that fails, exactly where one does
/// (docs/RULES.md, "Circuits").
pub fn decide(alloc: Global, view: &View, ask: &Ask) -> Result<Route, DecideFault>
    requires { AreRouters view.now.routers.now }
    ensures decides { Decides (network view.now) (asked ask.now) result }
    // Memory can be wanting only where no rule fails that needs none.
    ensures memory { IsErrOf result DecideFault.NoMemory → MayWantMemory (network view.now) (asked ask.now) }
{
    let found = find_route(alloc, view, ask)?;
    Ok(found.route)
}
