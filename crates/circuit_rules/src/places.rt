ghost use Rattle.std.specs.Prelude.{◌≡◌, ◌≤◌, length, map, IfOk};
ghost use Rattle.circuit_rules.specs.Searched.{place_in, entry_of, exit_from};

use crate::offers::Offer;
use ctrl_model::{RouterNo, RouterSeen};
use route_choice::{Entry, Exit};
use std::alloc::{AllocError, Global};

/// The place of the router of a number: how many stand before it.
pub fn place_in(routers: &[RouterSeen], router: RouterNo) -> usize
    ensures place { result ≡ place_in routers.now router.0 }
    ensures most { result ≤ length routers.now }
{
    let mut place = 0;
    'routers: for other in routers {
        if other.no.0 == router.0 {
            break;
        }
        place += 1;
    }
    place
}

/// Some of the routers as circuits enter there.
pub fn entries(
    alloc: Global,
    routers: &[RouterSeen],
    ingresses: &[RouterSeen],
) -> Result<Vec<Entry>, AllocError>
    requires { length routers.now ≤ 256 }
    ensures { IfOk result (λ v. v.items ≡ map (entry_of routers.now) ingresses.now) }
{
    ingresses
        .iter()
        .map(|ingress| Entry {
            place: place_in(routers, ingress.no) as u16,
            router: ingress.no,
        })
        .collect(alloc)
}

/// Some offers as circuits end there.
pub fn exits(
    alloc: Global,
    routers: &[RouterSeen],
    offers: &[Offer],
) -> Result<Vec<Exit>, AllocError>
    requires { length routers.now ≤ 256 }
    ensures { IfOk result (λ v. v.items ≡ map (exit_from routers.now) offers.now) }
{
    offers
        .iter()
        .map(|offer| Exit {
            place: place_in(routers, offer.router) as u16,
            terminator: offer.terminator,
            cost: offer.cost,
            precedence: offer.precedence,
        })
        .collect(alloc)
}
