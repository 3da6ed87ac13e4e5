ghost use Rattle.std.specs.Prelude.{◌≡◌, map, IfOk, IsTrue};
ghost use Rattle.std.specs.List.{list_all};
ghost use Rattle.ctrl_model.specs.Networks.{hops};
ghost use Rattle.ctrl_model.specs.ValueForms.{is_cost};
ghost use Rattle.ctrl_model.specs.Numbered.{numbers, Between};
ghost use Rattle.ctrl_model.specs.Claims.{router_numbers, value_at, does_not_improve, is_settled};
ghost use Rattle.fabric_graph.specs.Routers.{AreRouters, numbered, IsGraphOf};
ghost use Rattle.circuit_rules.specs.Views.{network};

use crate::places::place_in;
use crate::values::value_at;
use crate::views::View;
use ctrl_model::{LinkNo, MOST_COST, MOST_ROUTERS, Reach, RouterNo, RouterSeen};
use path_certificate::{Graph, check};
use std::alloc::{AllocError, Global};

// Whether the hop over a link does not improve the value of the router that it leaves.
fn does_not_improve(
    view: &View,
    values: &[u64],
    target: RouterNo,
    router: RouterNo,
    link: u32,
) -> bool
    ensures { result ≡ does_not_improve (value_at (router_numbers (network view.now)) values.now) router.0 (hops (network view.now) target.0 router.0 link) }
{
    match view.fabric.hop(view.routers, target, router, LinkNo(link)) {
        Some(hop) => {
            let reach = hop.cost.saturating_add(value_at(view, values, hop.to));
            value_at(view, values, router) <= reach
        }
        None => true,
    }
}

// Whether no hop from the router improves its value.
fn none_improves_at(
    view: &View,
    links: &[u32],
    values: &[u64],
    target: RouterNo,
    router: RouterNo,
) -> bool
    ensures { result ≡ list_all (λ l. does_not_improve (value_at (router_numbers (network view.now)) values.now) router.0 (hops (network view.now) target.0 router.0 l)) links.now }
{
    'links: for link in links {
        if !does_not_improve(view, values, target, router, *link) {
            return false;
        }
    }
    true
}

// Whether no hop improves a value.
fn none_improves(view: &View, links: &[u32], values: &[u64], target: RouterNo) -> bool
    ensures { result ≡ list_all (λ r. list_all (λ l. does_not_improve (value_at (router_numbers (network view.now)) values.now) r.no.0 (hops (network view.now) target.0 r.no.0 l)) links.now) view.now.routers.now }
{
    'routers: for router in view.routers {
        if !none_improves_at(view, links, values, target, router.no) {
            return false;
        }
    }
    true
}

// Whether the entry has a value for each router, 0 at its own, and no hop on the way to it improves a value.
fn is_settled(view: &View, links: &[u32], entry: &Reach) -> bool
    requires { links.now ≡ numbers view.now.fabric.now.links.rows }
    ensures { result ≡ is_settled (network view.now) entry.now }
{
    let values = entry.values.as_slice();
    if values.len() != view.routers.len() {
        return false;
    }
    if value_at(view, values, entry.router) != 0 {
        return false;
    }
    none_improves(view, links, values, entry.router)
}

// Whether each entry is settled, judged hop by hop.
fn are_settled_by_hops(view: &View, links: &[u32], entries: &[Reach]) -> bool
    requires { links.now ≡ numbers view.now.fabric.now.links.rows }
    ensures { result ≡ list_all (is_settled (network view.now)) entries.now }
{
    'entries: for entry in entries {
        if !is_settled(view, links, entry) {
            return false;
        }
    }
    true
}

// Whether the check over the graph of the links certifies the entry.
fn is_certified(view: &View, graph: &Graph, entry: &Reach) -> bool
    requires routers { AreRouters view.now.routers.now }
    requires graph { IsGraphOf (network view.now) graph.now }
    ensures { result ≡ is_settled (network view.now) entry.now }
{
    let _places = graph.places();
    let place = place_in(view.routers, entry.router);
    if place >= view.routers.len() {
        return false;
    }
    let place = place as u16;
    check(graph, place, &entry.values, place, &[])
}

// Whether each entry is settled, judged by the check over the graph of the links.
fn are_certified(view: &View, graph: &Graph, entries: &[Reach]) -> bool
    requires routers { AreRouters view.now.routers.now }
    requires graph { IsGraphOf (network view.now) graph.now }
    ensures { result ≡ list_all (is_settled (network view.now)) entries.now }
{
    'entries: for entry in entries {
        if !is_certified(view, graph, entry) {
            return false;
        }
    }
    true
}

// Whether the routers ascend by number.
fn ascend(routers: &[RouterSeen]) -> bool
    ensures { IsTrue result → Between 0 4294967296 (map numbered routers.now) }
{
    let mut least = 0;
    'routers: for router in routers {
        let number = u64::from(router.no.0);
        if number < least {
            return false;
        }
        least = number + 1;
    }
    true
}

// Whether the cost of each router is in its range.
fn have_costs(routers: &[RouterSeen]) -> bool
    ensures { result ≡ list_all (λ r. is_cost r.cost) routers.now }
{
    routers.iter().all(|router| router.cost <= MOST_COST)
}

// Whether the routers are such as have a graph.
fn are_routers(routers: &[RouterSeen]) -> bool
    ensures { IsTrue result → AreRouters routers.now }
{
    routers.len() <= MOST_ROUTERS && have_costs(routers) && ascend(routers)
}

/// Whether each entry is settled: judged by the check over the graph of the links, and hop by hop where the routers are none that
/// have a graph, which no controller's are.
pub fn are_settled(alloc: Global, view: &View, entries: &[Reach]) -> Result<bool, AllocError>
    ensures { IfOk result (λ yes. yes ≡ list_all (is_settled (network view.now)) entries.now) }
{
    if are_routers(view.routers) {
        let graph = view.fabric.graph_of(alloc, view.routers)?;
        return Ok(are_certified(view, &graph, entries));
    }
    let links = view.fabric.numbers(alloc)?;
    Ok(are_settled_by_hops(view, links.as_slice(), entries))
}
