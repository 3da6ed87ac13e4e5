ghost use Rattle.std.specs.Prelude.{◌≡◌, [], ◌∷◌, map, filter};
ghost use Rattle.std.specs.List.{flat_map};
ghost use Rattle.ctrl_model.specs.Hits.{hit_rank, has_port, has_protocol, hits_at, hits_in};
ghost use Rattle.ctrl_model.specs.Ranks.{comes_before};
ghost use Rattle.intercepts.specs.FirstHits.{first_with};

use crate::nearness::nearness;
use ctrl_model::{Address, Intercept, PortRange};
use std::marker::Model;

/// The hit that is picked, whose address is lent. Contracts see it as a hit.
#[derive(Drop)]
pub struct Picked<'a> {
    /// The number of the service.
    pub service: u32,
    /// How near the address is to the destination.
    pub near: usize,
    pub address: &'a Address,
    /// The range that has the port.
    pub ports: PortRange,
}

impl<'a> Model for Picked<'a> {
    ghost use Rattle.ctrl_model.specs.Hits.{Hit};

    ghost Value = { Hit };

    ghost view = { λ p. record { service = p.service; near = p.near; address = p.address.now; ports = p.ports } };
}

/// Where something is sent: over which protocol, to which address and to which port.
#[derive(Clone, Copy)]
pub struct Destination<'a> {
    /// False for tcp.
    pub udp: bool,
    pub address: &'a Address,
    pub port: u32,
}

// What hits are compared by, from left to right.
#[derive(Clone, Copy, PartialEq, Eq, PartialOrd, Ord)]
struct Place {
    near: usize,
    span: u16,
    low: u16,
    service: u32,
}

fn place_of(hit: &Picked) -> Place
    ensures { hit_rank hit.now ≡ result.near ∷ result.span ∷ result.low ∷ result.service ∷ [] }
{
    Place {
        near: hit.near,
        span: hit.ports.high.saturating_sub(hit.ports.low),
        low: hit.ports.low,
        service: hit.service,
    }
}

// Whether one hit comes before another.
fn comes_before(hit: &Picked, other: &Picked) -> bool
    ensures { result ≡ comes_before hit_rank hit.now other.now }
{
    place_of(hit).cmp(&place_of(other)).is_lt()
}

// The first of a hit, if there is one, and another.
fn keep<'a>(best: Option<Picked<'a>>, hit: Picked<'a>) -> Option<Picked<'a>>
    ensures { result ≡ first_with best.entry (hit.entry ∷ []) }
{
    match best {
        Some(best) if !comes_before(&hit, &best) => Some(best),
        _ => Some(hit),
    }
}

// Whether a range of ports has a port.
fn has_port(port: u32, range: &PortRange) -> bool
    ensures { result ≡ has_port port range.now }
{
    u32::from(range.low) <= port && port <= u32::from(range.high)
}

// The first of a hit, if there is one, and those by one address of a service, which is so near: one for each range that has the port.
fn first_by_ranges<'a>(
    best: Option<Picked<'a>>,
    service: u32,
    near: usize,
    address: &'a Address,
    ranges: &[PortRange],
    port: u32,
) -> Option<Picked<'a>>
    ensures { result ≡ first_with best.entry (map (λ r. record { service = service; near = near; address = address.now; ports = r }) (filter (has_port port) ranges.now)) }
{
    let mut best = best;
    'held: for range in ranges {
        if has_port(port, range) {
            best = keep(
                best,
                Picked {
                    service,
                    near,
                    address,
                    ports: *range,
                },
            );
        }
    }
    best
}

// The first of a hit, if there is one, and those by one address of a service.
fn first_at<'a>(
    best: Option<Picked<'a>>,
    service: u32,
    ranges: &[PortRange],
    to: Destination,
    address: &'a Address,
) -> Option<Picked<'a>>
    ensures { result ≡ first_with best.entry (hits_at service ranges.now to.entry.port to.entry.address.now address.now) }
{
    match nearness(address, to.address) {
        Some(near) => first_by_ranges(best, service, near, address, ranges, to.port),
        None => best,
    }
}

// The first of a hit, if there is one, and those by the addresses of a service.
fn first_by_addresses<'a>(
    best: Option<Picked<'a>>,
    service: u32,
    intercept: &'a Intercept,
    to: Destination,
) -> Option<Picked<'a>>
    ensures { result ≡ first_with best.entry (flat_map (hits_at service intercept.now.ports to.entry.port to.entry.address.now) intercept.now.addresses) }
{
    let mut best = best;
    let ranges = intercept.ports.as_slice();
    'addresses: for address in intercept.addresses.as_slice() {
        best = first_at(best, service, ranges, to, address);
    }
    best
}

// Whether an intercept has a protocol: udp, or else tcp.
fn has_protocol(udp: bool, intercept: &Intercept) -> bool
    ensures { result ≡ has_protocol udp intercept.now }
{
    if udp { intercept.udp } else { intercept.tcp }
}

/// The first of a hit, if there is one, and those of a service by its intercept.
pub fn first_in<'a>(
    best: Option<Picked<'a>>,
    service: u32,
    intercept: &'a Intercept,
    to: Destination,
) -> Option<Picked<'a>>
    ensures { result ≡ first_with best.entry (hits_in to.entry.udp to.entry.address.now to.entry.port service intercept.now) }
{
    if has_protocol(to.udp, intercept) {
        first_by_addresses(best, service, intercept, to)
    } else {
        best
    }
}
