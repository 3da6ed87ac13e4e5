//! A network of three routers in a row, with the records by which a request is granted over it.

ghost use Rattle.std.specs.Prelude.{◌≡◌, false, true};

use circuit_rules::{Ask, Wanted};
use ctrl_model::{IdentityNo, Instance, LinkNo, Name, Precedence, RouterNo, RouterSeen, ServiceNo};
use fabric_graph::{Fabric, LinkRow};
use grant_denorm::Counted;
use std::alloc::Global;
use std::test::Fail;
use terminators::{Term, Terminators};

pub(crate) fn router(number: u32, cost: u32) -> RouterSeen
    ensures { result ≡ record { no = record { 0 = number }; cost = cost; through = true; connected = true } }
{
    RouterSeen {
        no: RouterNo(number),
        cost,
        through: true,
        connected: true,
    }
}

/// A router that no path may pass through.
pub(crate) fn closed(number: u32) -> RouterSeen
    ensures { result ≡ record { no = record { 0 = number }; cost = 0; through = false; connected = true } }
{
    RouterSeen {
        no: RouterNo(number),
        cost: 0,
        through: false,
        connected: true,
    }
}

/// Adds a link of cost 11 as a caller has to: the rules allow it.
pub(crate) fn join(
    alloc: Global,
    fabric: &mut Fabric,
    name: &[u8],
    a: u32,
    b: u32,
) -> Result<LinkNo, Fail> {
    let name = Name::of(alloc, name)?;
    let (a, b) = (RouterNo(a), RouterNo(b));
    match fabric.may_add(&name, a, b) {
        Ok(()) => Ok(fabric.add(LinkRow {
            name,
            a,
            b,
            cost: 1,
            latency_a: 4,
            latency_b: 6,
            up: true,
        })?),
        Err(_fault) => Err(Fail::new("the link may not be added")),
    }
}

/// Links 1 and 2 join the routers 1, 2 and 3.
pub(crate) fn line(alloc: Global) -> Result<Fabric, Fail> {
    let mut fabric = Fabric::new(alloc);
    join(alloc, &mut fabric, b"l1", 1, 2)?;
    join(alloc, &mut fabric, b"l2", 2, 3)?;
    Ok(fabric)
}

/// Service 1 is offered on router 3.
pub(crate) fn offered(alloc: Global) -> Result<Terminators, Fail> {
    let mut terminators = Terminators::new(alloc);
    terminators.add(Term {
        service: ServiceNo(1),
        router: RouterNo(3),
        instance: Instance::of(alloc, b"")?,
        host: None,
        cost: 0,
        precedence: Precedence::Normal,
    })?;
    Ok(terminators)
}

/// The pair of 1 and 1: identity 1 may dial service 1, and both have router 1.
pub(crate) fn granted(alloc: Global) -> Result<Counted, Fail> {
    let mut counted = Counted::new(alloc);
    counted.raise(1, 1)?;
    Ok(counted)
}

/// Identity 1 asks for service 1.
pub(crate) fn asked(alloc: Global) -> Result<Ask, Fail> {
    Ok(Ask {
        identity: Some(IdentityNo(1)),
        service: Some(ServiceNo(1)),
        ingress: Wanted::Any,
        instance: Instance::of(alloc, b"")?,
    })
}
