ghost use Rattle.std.specs.Prelude.{◌≡◌, ◌+◌, ◌==◌, option_map};
ghost use Rattle.ctrl_model.specs.Networks.{hops};
ghost use Rattle.ctrl_model.specs.Claims.{is_tight, claimed, is_route};
ghost use Rattle.circuit_rules.specs.Views.{network};
ghost use Rattle.circuit_rules.specs.Parts.{tight_next, term_offered, unloaded};

use crate::offers::Offer;
use crate::values::claimed;
use crate::views::View;
use ctrl_model::{Explanation, LinkNo, Reach, RouterNo};
use route_choice::is_total;

// Where the link leads from the router by a tight hop: one that costs exactly what the claimed value falls.
fn tight_next(
    view: &View,
    entries: &[Reach],
    target: RouterNo,
    at: RouterNo,
    link: u32,
) -> Option<RouterNo>
    ensures { option_map (λ r. r.0) result ≡ tight_next (hops (network view.now) target.0) (claimed (network view.now) entries.now target.0) at.0 link }
{
    let hop = view.fabric.hop(view.routers, target, at, LinkNo(link))?;
    let here = claimed(view, entries, target, at);
    let there = claimed(view, entries, target, hop.to);
    if u128::from(here) == u128::from(hop.cost) + u128::from(there) && here < u64::MAX {
        Some(hop.to)
    } else {
        None
    }
}

// Whether the links are a chain of tight hops from a router to the target.
fn is_tight(view: &View, entries: &[Reach], target: RouterNo, from: RouterNo, links: &[u32]) -> bool
    ensures { result ≡ is_tight (hops (network view.now) target.0) (claimed (network view.now) entries.now target.0) target.0 from.0 links.now }
{
    let mut at = from;
    'links: for link in links {
        match tight_next(view, entries, target, at, *link) {
            Some(next) => at = next,
            None => return false,
        }
    }
    at.0 == target.0
}

// Whether the total is what the terminator costs and the value at the ingress.
fn has_its_total(view: &View, claim: &Explanation, offer: Offer) -> bool
    ensures { result ≡ (claim.now.total == offer.cost + claimed (network view.now) claim.now.potentials offer.router.0 claim.now.ingress.0) }
{
    let value = claimed(
        view,
        claim.potentials.as_slice(),
        offer.router,
        claim.ingress,
    );
    is_total(claim.total, offer.cost, value)
}

/// Whether the claimed links are a chain of tight hops from the ingress to the terminator's router, and the total is the
/// terminator's cost and the value at the ingress.
pub fn is_route(view: &View, claim: &Explanation, offer: Offer) -> bool
    ensures { result ≡ is_route (unloaded (network view.now)) claim.now (term_offered offer) }
{
    is_tight(
        view,
        claim.potentials.as_slice(),
        offer.router,
        claim.ingress,
        claim.links.as_slice(),
    ) && has_its_total(view, claim, offer)
}
