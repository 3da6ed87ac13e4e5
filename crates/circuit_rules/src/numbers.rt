ghost use Rattle.std.specs.Prelude.{◌≡◌, IfOk, map, filter};
ghost use Rattle.circuit_rules.specs.Offers.{is_carried};

use crate::offers::{Offer, is_carried};
use ctrl_model::{Reach, RouterSeen};
use std::alloc::{AllocError, Global};

/// The numbers of the routers.
pub fn router_numbers(alloc: Global, routers: &[RouterSeen]) -> Result<Vec<u32>, AllocError>
    ensures { IfOk result (λ v. v.items ≡ map (λ r. r.no.0) routers.now) }
{
    routers.iter().map(|router| router.no.0).collect(alloc)
}

/// The numbers of the routers that carry one of the offers, of a precedence of at most the place.
pub fn carrying_numbers(
    alloc: Global,
    routers: &[RouterSeen],
    offers: &[Offer],
    place: u8,
) -> Result<Vec<u32>, AllocError>
    ensures { IfOk result (λ v. v.items ≡ filter (is_carried offers.now place) (map (λ r. r.no.0) routers.now)) }
{
    let mut carrying = Vec::new(alloc);
    'routers: for router in routers {
        if is_carried(offers, place, router.no) {
            carrying.push(router.no.0)?;
        }
    }
    Ok(carrying)
}

/// The numbers of the routers that the entries are for.
pub fn entry_numbers(alloc: Global, entries: &[Reach]) -> Result<Vec<u32>, AllocError>
    ensures { IfOk result (λ v. v.items ≡ map (λ e. e.router.0) entries.now) }
{
    entries.iter().map(|entry| entry.router.0).collect(alloc)
}
