ghost use Rattle.std.specs.Prelude.{◌≡◌};
ghost use Rattle.ctrl_model.specs.Limits as limits;

use crate::kinds::Kind;

/// How many routers may be present (docs/RULES.md, "Limits", as each limit here).
pub const MOST_ROUTERS: usize = 256;

/// How many attributes may be in use.
pub const MOST_ATTRIBUTES: usize = 4_096;

/// How many links a path may have: it visits no router twice.
pub const LONGEST_PATH: usize = 255;

/// How many entries an attribute or role list may have.
pub const MOST_ENTRIES: usize = 64;

/// How many bytes a host of an address may have.
pub const LONGEST_HOST: usize = 253;

/// How many bytes a label of a host may have.
pub const LONGEST_LABEL: usize = 63;

/// How many bits an address of four numbers has.
pub const MOST_BITS: u8 = 32;

/// How many addresses an intercept may have, and how many ranges of ports.
pub const MOST_CLAIMED: usize = 32;

/// How many bytes a name may have.
pub const LONGEST_NAME: usize = 64;

/// The greatest cost of a router, a terminator or a link, and the greatest least router cost.
pub const MOST_COST: u32 = 65_535;

/// The greatest latency that one end of a link reports.
pub const MOST_LATENCY: u32 = 60_000;

/// The greatest port.
pub const MOST_PORT: u32 = 65_535;

/// The last serial: a state that has it is changed no more.
pub const LAST_SERIAL: u64 = 9_223_372_036_854_775_808;

/// How many records of a kind may be present, and how many attributes may be in use.
pub fn limit(kind: Kind) -> usize
    ensures { result ≡ limits.limit kind }
{
    match kind {
        Kind::Identity => 2_048,
        Kind::Service | Kind::ServicePolicy => 512,
        Kind::Router => MOST_ROUTERS,
        Kind::EdgeRouterPolicy | Kind::ServiceEdgeRouterPolicy => 256,
        Kind::Link | Kind::Terminator => 4_096,
        Kind::Circuit => 16_384,
        Kind::Attribute => MOST_ATTRIBUTES,
    }
}
