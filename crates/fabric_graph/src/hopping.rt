ghost use Rattle.std.specs.Prelude.{◌≡◌, ◌==◌, ◌<◌, [], false, find, option_map};
ghost use Rattle.std.specs.Option.{option_map_or};
ghost use Rattle.ctrl_model.specs.Networks.{other_end, link_cost, is_usable, hop_to, across, hops};
ghost use Rattle.fabric_graph.specs.Hops.{hop_of};
ghost use Rattle.fabric_graph.specs.Routers.{network, crossed};

use crate::fabric::Fabric;
use crate::links::LinkView;
use ctrl_model::{LinkNo, RouterNo, RouterSeen};

/// Where a hop leads, and what its link and entering the router cost together.
#[derive(Clone, Copy, PartialEq, Eq)]
pub struct Hop {
    pub to: RouterNo,
    pub cost: u64,
}

// The router of a number, if it is present: the first of these that has it.
fn router_at(routers: &[RouterSeen], router: RouterNo) -> Option<&RouterSeen>
    ensures { option_map (λ r. r.now) result ≡ find (λ r. r.no.0 == router.0) routers.now }
{
    routers.iter().find(|other| other.no.0 == router.0)
}

// Whether the router of a number is present and connected.
fn is_connected(routers: &[RouterSeen], router: RouterNo) -> bool
    ensures { result ≡ option_map_or (λ r. r.connected) (find (λ r. r.no.0 == router.0) routers.now) false }
{
    match router_at(routers, router) {
        Some(present) => present.connected,
        None => false,
    }
}

// The other end of a link, seen from one end. None seen from elsewhere.
fn other_end(at: RouterNo, link: &LinkView) -> Option<RouterNo>
    ensures { option_map (λ r. r.0) result ≡ other_end at.0 link.now }
{
    if link.a.0 == at.0 {
        Some(link.b)
    } else if link.b.0 == at.0 {
        Some(link.a)
    } else {
        None
    }
}

// What the link costs.
fn link_cost(link: &LinkView) -> u64
    ensures cost { result ≡ link_cost link.now }
    ensures most { result < 12884901888 }
{
    let (cost, latency_a, latency_b) = (link.cost, link.latency_a, link.latency_b);
    u64::from(cost) + u64::from(latency_a) + u64::from(latency_b)
}

// Whether the link is up and both its routers are present and connected.
fn is_usable(routers: &[RouterSeen], link: &LinkView) -> bool
    ensures { result ≡ is_usable (crossed 0 routers.now) link.now }
{
    let (up, a, b) = (link.up, link.a, link.b);
    up && is_connected(routers, a) && is_connected(routers, b)
}

// The hop over a link to a router on the way to a target, if it is allowed.
fn hop_to(least: u32, target: RouterNo, link: &LinkView, router: &RouterSeen) -> Option<Hop>
    ensures { option_map hop_of result ≡ hop_to (crossed least []) target.0 link.now router.now }
{
    if router.no.0 == target.0 || router.through {
        Some(Hop {
            to: router.no,
            cost: link_cost(link) + u64::from(router.cost.max(least)),
        })
    } else {
        None
    }
}

/// The hop over a link from a router on the way to a target, between these routers and where entering one costs at least so much.
pub fn across(
    least: u32,
    routers: &[RouterSeen],
    target: RouterNo,
    at: RouterNo,
    link: &LinkView,
) -> Option<Hop>
    ensures { option_map hop_of result ≡ across (crossed least routers.now) target.0 at.0 link.now }
{
    let end = other_end(at, link)?;
    if !is_usable(routers, link) {
        return None;
    }
    let other = router_at(routers, end)?;
    hop_to(least, target, link, other)
}

impl Fabric {
    /// The hop over the link of a number from a router on the way to a target, between these routers. None exactly where the link
    /// is not usable or the hop is not allowed: only the target itself may be a router that is not passed through (docs/RULES.md,
    /// "Links and paths").
    pub fn hop(
        &self,
        routers: &[RouterSeen],
        target: RouterNo,
        at: RouterNo,
        link: LinkNo,
    ) -> Option<Hop>
        ensures { option_map hop_of result ≡ hops (network self.now routers.now) target.0 at.0 link.0 }
    {
        let link = self.link(link)?;
        across(self.least(), routers, target, at, &LinkView::of(link))
    }
}
