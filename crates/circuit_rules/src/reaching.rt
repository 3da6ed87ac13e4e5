ghost use Rattle.std.specs.Prelude.{◌≡◌, ◌<◌, true, length, map, filter, IfOk};
ghost use Rattle.ctrl_model.specs.Networks.{is_on};
ghost use Rattle.ctrl_model.specs.Claims.{router_numbers, reach_of};
ghost use Rattle.fabric_graph.specs.Routers.{AreRouters, number_at};
ghost use Rattle.circuit_rules.specs.Views.{network};
ghost use Rattle.circuit_rules.specs.Offers.{is_carried};
ghost use Rattle.circuit_rules.specs.Reached.{AreOn};
ghost use Rattle.circuit_rules.specs.Searched.{IsSearchOf};

use crate::offers::{Offer, is_carried};
use crate::views::View;
use ctrl_model::Reach;
use path_search::CostSearch;
use std::alloc::{AllocError, Global};

// The least costs of paths from each router to the one of a place.
fn reach_to(
    alloc: Global,
    view: &View,
    search: &mut CostSearch,
    place: u16,
) -> Result<Reach, AllocError>
    requires search { IsSearchOf (network view.now) search.old }
    requires place { place < length view.now.routers.now }
    requires on { is_on (network view.now) (number_at view.now.routers.now place) ≡ true }
    ensures search { IsSearchOf (network view.now) search.new }
    ensures reach { IfOk result (λ e. e ≡ reach_of (network view.now) (number_at view.now.routers.now place)) }
{
    search.visit(alloc, place)?;
    let values = search.costs()[place as usize].copy()?;
    let router = view.routers[place as usize].no;
    Ok(Reach { router, values })
}

/// The least costs of paths to each router that carries one of the offers, of a precedence of at most a place. What the search has
/// found is not searched again.
pub fn reaches(
    alloc: Global,
    view: &View,
    search: &mut CostSearch,
    offers: &[Offer],
    most: u8,
) -> Result<Vec<Reach>, AllocError>
    requires routers { AreRouters view.now.routers.now }
    requires search { IsSearchOf (network view.now) search.old }
    requires on { AreOn (network view.now) offers.now most }
    ensures { IfOk result (λ v. v.items ≡ map (reach_of (network view.now)) (filter (is_carried offers.now most) (router_numbers (network view.now)))) }
{
    let mut reaches = Vec::new(alloc);
    let places = view.routers.len() as u16;
    'places: for place in 0..places {
        let router = view.routers[place as usize].no;
        if !is_carried(offers, most, router) {
            continue;
        }
        reaches.push(reach_to(alloc, view, search, place)?)?;
    }
    Ok(reaches)
}
