ghost use Rattle.std.specs.Prelude.{◌≡◌, ◌+◌, ◌++◌, ◌≤◌, length, map, None, IfOk, IfSome, IfNone, OnOk, true, false};
ghost use Rattle.std.specs.Bool.{OnTrue};
ghost use Rattle.ctrl_model.specs.Networks.{is_on, link_cost};
ghost use Rattle.ctrl_model.specs.Numbered.{at};
ghost use Rattle.ctrl_model.specs.ValidState.{each_passes};
ghost use Rattle.path_certificate.specs.Graphs.{IsGraph};
ghost use Rattle.record_tables.specs.Entries.{KeepsOrder};
ghost use Rattle.fabric_graph.specs.FabricRules.{is_fit};
ghost use Rattle.fabric_graph.specs.Routers.{AreRouters, IsPlaceOf, IsRouterPlace, crossed, numbered};
ghost use Rattle.fabric_graph.specs.Steps.{end_at, link_ends, step_between, link_steps, all_steps, by_place};

use crate::links::{LinkRow, LinkView};
use ctrl_model::{RouterNo, RouterSeen};
use path_certificate::{Graph, Step, StepEnd, StepLists};
use record_tables::NamedTable;
use std::alloc::{AllocError, Global};

/// An end of a usable link: the place of its router, and what a path pays to enter the router.
#[derive(Clone, Copy)]
pub struct End {
    pub place: u16,
    pub entry: u32,
}

// Whether the router that has the number stands at a place.
fn stands_at(routers: &[RouterSeen], place: usize, number: u32) -> bool
    ensures { OnTrue result (IsRouterPlace number routers.now place) }
{
    match routers.get(place) {
        Some(router) => router.no.0 == number,
        None => false,
    }
}

// The place of the router that has the number, by halving.
fn searched_place(routers: &[RouterSeen], number: u32) -> Option<usize>
    requires { AreRouters routers.now }
    ensures found { IfSome result (λ i. IsRouterPlace number routers.now i) }
    ensures absent { IfNone result (at (map numbered routers.now) number ≡ None) }
{
    routers
        .binary_search_by_key(&number, |router| router.no.0)
        .ok()
}

// The place of the router that has the number. Where no number before it was given up it stands where it is looked for first.
fn place_of(routers: &[RouterSeen], number: u32) -> Option<usize>
    requires { AreRouters routers.now }
    ensures found { IfSome result (λ i. IsRouterPlace number routers.now i) }
    ensures absent { IfNone result (at (map numbered routers.now) number ≡ None) }
{
    let likely = (number as usize).saturating_sub(1);
    if stands_at(routers, likely, number) {
        return Some(likely);
    }
    searched_place(routers, number)
}

// The end of a link at a router. None where the router is absent or not connected.
fn end_at(routers: &[RouterSeen], least: u32, router: RouterNo) -> Option<End>
    requires routers { AreRouters routers.now }
    requires least { least ≤ 65535 }
    ensures end { result ≡ end_at least router.0 routers.now }
    ensures entry { IfSome result (λ e. e.entry ≤ 65535) }
{
    let place = place_of(routers, router.0)?;
    let seen = &routers[place];
    if !seen.connected {
        return None;
    }
    Some(End {
        place: place as u16,
        entry: seen.cost.max(least),
    })
}

/// The place of a connected router: how many stand before it. None exactly where the router is absent or not connected.
pub fn connected_place(routers: &[RouterSeen], router: RouterNo) -> Option<u16>
    requires { AreRouters routers.now }
    ensures on { IfSome result (IsPlaceOf (crossed 0 routers.now) router.0) }
    ensures off { IfNone result (is_on (crossed 0 routers.now) router.0 ≡ false) }
{
    // Its place does not depend on what a path pays to enter it.
    let end = end_at(routers, 0, router)?;
    Some(end.place)
}

// What a link costs.
fn link_cost(link: &LinkView) -> u32
    requires { is_fit link.now ≡ true }
    ensures cost { result ≡ link_cost link.now }
    ensures most { result ≤ 185535 }
{
    link.cost + link.latency_a + link.latency_b
}

// The ends of a usable link. None where the link is not usable.
fn ends(routers: &[RouterSeen], least: u32, link: &LinkView) -> Option<(End, End)>
    requires routers { AreRouters routers.now }
    requires least { least ≤ 65535 }
    ensures ends { result ≡ link_ends routers.now least link.now }
    ensures entries { IfSome result (λ p. (p.0.entry ≤ 65535) × (p.1.entry ≤ 65535)) }
{
    if !link.up {
        return None;
    }
    let a = end_at(routers, least, link.a)?;
    let b = end_at(routers, least, link.b)?;
    Some((a, b))
}

// The step over a link from one end to the other.
fn step_between(link: u32, cost: u32, from: End, to: End) -> Step
    requires { cost + to.entry ≤ 251070 }
    ensures { result ≡ step_between link cost from to }
{
    Step {
        from: from.place,
        to: to.place,
        link,
        cost: cost + to.entry,
    }
}

/// Adds the steps over a link.
pub fn push_link(
    steps: &mut Vec<Step>,
    routers: &[RouterSeen],
    least: u32,
    number: u32,
    link: &LinkView,
) -> Result<(), AllocError>
    requires routers { AreRouters routers.now }
    requires fit { is_fit link.now ≡ true }
    requires least { least ≤ 65535 }
    ensures { OnOk result (steps.new.items ≡ steps.old.items ++ link_steps routers.now least (number, link.now)) }
{
    if let Some((a, b)) = ends(routers, least, link) {
        let cost = link_cost(link);
        steps.push(step_between(number, cost, a, b))?;
        steps.push(step_between(number, cost, b, a))?;
    }
    Ok(())
}

/// The steps over the links, in the order of the links.
pub fn all_steps(
    alloc: Global,
    table: &NamedTable<LinkRow>,
    least: u32,
    routers: &[RouterSeen],
) -> Result<Vec<Step>, AllocError>
    requires routers { AreRouters routers.now }
    requires fit { each_passes is_fit table.now.rows ≡ true }
    requires least { least ≤ 65535 }
    ensures steps { IfOk result (λ v. v.items ≡ all_steps routers.now least table.now.rows) }
    ensures order { KeepsOrder table.now }
{
    let mut steps = Vec::new(alloc);
    'rows: for (number, link) in table.rows() {
        push_link(&mut steps, routers, least, *number, &LinkView::of(link))?;
    }
    Ok(steps)
}

// The steps by the place that they leave.
fn by_place(alloc: Global, all: &[Step], places: u16) -> Result<Vec<Step>, AllocError>
    ensures { IfOk result (λ v. v.items ≡ by_place all.now places) }
{
    let lists = StepLists::by(alloc, all, places as usize, StepEnd::From)?;
    let mut steps = Vec::with_capacity(alloc, all.len())?;
    'places: for place in 0..places {
        steps.extend_from_slice(lists.at(place))?;
    }
    Ok(steps)
}

// For each router whether it may be passed through.
fn flags(alloc: Global, routers: &[RouterSeen]) -> Result<Vec<bool>, AllocError>
    ensures { IfOk result (λ v. v.items ≡ map (λ r. r.through) routers.now) }
{
    let mut through = Vec::new(alloc);
    'routers: for router in routers {
        through.push(router.through)?;
    }
    Ok(through)
}

/// The graph of the routers and of some steps between them.
pub fn graph_over(alloc: Global, routers: &[RouterSeen], all: &[Step]) -> Result<Graph, AllocError>
    requires routers { AreRouters routers.now }
    requires graph { IsGraph (map (λ r. r.through) routers.now) (by_place all.now (length routers.now)) }
    ensures { IfOk result (λ g. g ≡ record { through = map (λ r. r.through) routers.now; steps = by_place all.now (length routers.now) }) }
{
    let through = flags(alloc, routers)?;
    let steps = by_place(alloc, all, routers.len() as u16)?;
    Ok(Graph::new(through, steps))
}
