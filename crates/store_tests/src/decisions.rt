//! A request where there may be no more circuits: it is denied for that where there is a path, and else for want of one.

ghost use Rattle.fabric_graph.specs.Routers.{AreRouters};

use crate::lines::{asked, closed, granted, line, offered, router};
use circuit_rules::{Ask, DecideFault, View, decide};
use ctrl_model::Denial;
use fabric_graph::Fabric;
use grant_denorm::Counted;
use std::alloc::Global;
use std::process::Abort;
use std::test::Fail;
use terminators::Terminators;

fn is_denied(
    rt: &impl Abort,
    alloc: Global,
    view: &View,
    ask: &Ask,
    denial: Denial,
) -> Result<(), Fail>
    requires { AreRouters view.now.routers.now }
{
    let denied = decide(alloc, view, ask).err();
    assert_eq!(rt; denied, Some(DecideFault::Denied(denial)));
    Ok(())
}

fn denies(
    rt: &impl Abort,
    alloc: Global,
    grants: &Counted,
    fabric: &Fabric,
    terminators: &Terminators,
    ask: &Ask,
) -> Result<(), Fail> {
    let full = View {
        dial: grants,
        bind: grants,
        identity_router: grants,
        service_router: grants,
        routers: &[router(1, 0), router(2, 0), router(3, 0)],
        fabric,
        terminators,
        circuits_full: true,
    };
    is_denied(rt, alloc, &full, ask, Denial::CircuitsFull)?;
    let cut = View {
        routers: &[router(1, 0), closed(2), router(3, 0)],
        ..full
    };
    is_denied(rt, alloc, &cut, ask, Denial::NoPath)
}

// Each function owns one value, and lends it to the next.
fn with_request(
    rt: &impl Abort,
    alloc: Global,
    grants: &Counted,
    fabric: &Fabric,
    terminators: &Terminators,
) -> Result<(), Fail> {
    let ask = asked(alloc)?;
    denies(rt, alloc, grants, fabric, terminators, &ask)
}

fn with_offers(
    rt: &impl Abort,
    alloc: Global,
    grants: &Counted,
    fabric: &Fabric,
) -> Result<(), Fail> {
    let terminators = offered(alloc)?;
    with_request(rt, alloc, grants, fabric, &terminators)
}

fn with_links(rt: &impl Abort, alloc: Global, grants: &Counted) -> Result<(), Fail> {
    let fabric = line(alloc)?;
    with_offers(rt, alloc, grants, &fabric)
}

#[test]
fn denies_where_circuits_are_full(rt: HostRuntime) -> Result<(), Fail> {
    let grants = granted(rt.alloc())?;
    with_links(&rt, rt.alloc(), &grants)
}
