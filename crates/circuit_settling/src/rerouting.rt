ghost use Rattle.std.specs.Prelude.{◌≡◌, IfOk};
ghost use Rattle.ctrl_model.specs.Networks.{least_path};
ghost use Rattle.fabric_graph.specs.Routers.{AreRouters, HaveGraph, IsPlaceOf, IsGraphOf};
ghost use Rattle.circuit_settling.specs.PresentRecords.{network_in};

use crate::staying::Present;
use ctrl_model::{Numbers, RouterNo};
use fabric_graph::connected_place;
use path_search::{CostSearch, walk};
use std::alloc::{AllocError, Global};

/// A search over the graph of the usable links of what is present, of which no place was searched. A change may say anything, so it asks
/// that the links have a graph; those of a valid state do (`fabric_of_a_state` of `fabric_graph`).
pub fn search_of(alloc: Global, present: &Present) -> Result<CostSearch, AllocError>
    requires routers { AreRouters present.now.routers.now }
    requires links { HaveGraph present.now.fabric.now }
    ensures { IfOk result (λ s. IsGraphOf (network_in present.now) s.graph) }
{
    let graph = present.fabric.graph_of(alloc, present.routers)?;
    CostSearch::over(alloc, graph)
}

// The links of the least path between the connected routers of two places, if there is a path.
fn least_between(
    alloc: Global,
    present: &Present,
    search: &mut CostSearch,
    from: (RouterNo, u16),
    to: (RouterNo, u16),
) -> Result<Option<Numbers>, AllocError>
    requires graph { IsGraphOf (network_in present.now) search.old.graph }
    requires begins { IsPlaceOf (network_in present.now) from.0.0 from.1 }
    requires ends { IsPlaceOf (network_in present.now) to.0.0 to.1 }
    ensures graph { search.new.graph ≡ search.old.graph }
    ensures path { IfOk result (λ o. o ≡ least_path (network_in present.now) from.0.0 to.0.0) }
{
    search.visit(alloc, to.1)?;
    walk(
        alloc,
        search.graph(),
        to.1,
        &search.costs()[to.1 as usize],
        from.1,
    )
}

/// The links of the least path between two routers of what is present, if there is a path (docs/RULES.md, "Settling"). The search is one
/// of its graph (`search_of`) and stays one; what it has found is not searched again.
pub fn least_path(
    alloc: Global,
    present: &Present,
    search: &mut CostSearch,
    from: RouterNo,
    to: RouterNo,
) -> Result<Option<Numbers>, AllocError>
    requires routers { AreRouters present.now.routers.now }
    requires graph { IsGraphOf (network_in present.now) search.old.graph }
    ensures graph { search.new.graph ≡ search.old.graph }
    ensures path { IfOk result (λ o. o ≡ least_path (network_in present.now) from.0 to.0) }
{
    let Some(start) = connected_place(present.routers, from) else {
        return Ok(None);
    };
    let Some(target) = connected_place(present.routers, to) else {
        return Ok(None);
    };
    least_between(alloc, present, search, (from, start), (to, target))
}
