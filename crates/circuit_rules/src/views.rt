use ctrl_model::{Denial, IdentityNo, Instance, Numbers, RouterNo, RouterSeen, ServiceNo, TermNo};
use fabric_graph::Fabric;
use grant_denorm::Counted;
use std::alloc::AllocError;
use terminators::Terminators;
use thiserror::Error;

/// What decides about routes: the grant counts of pairs, the routers by ascending number, the links, the terminators, and whether
/// no circuit can be added.
#[derive(Clone, Copy)]
pub struct View<'a> {
    pub dial: &'a Counted,
    pub bind: &'a Counted,
    pub identity_router: &'a Counted,
    pub service_router: &'a Counted,
    pub routers: &'a [RouterSeen],
    pub fabric: &'a Fabric,
    pub terminators: &'a Terminators,
    pub circuits_full: bool,
}

/// The ingress that a request names.
#[derive(Clone, Copy, PartialEq, Eq)]
pub enum Wanted {
    /// It names none.
    Any,
    /// It names a router that is absent.
    Absent,
    /// It names this router.
    One(RouterNo),
}

/// A circuit request, its names looked up; an identity or a service that is absent has no number.
#[derive(Drop)]
pub struct Ask {
    pub identity: Option<IdentityNo>,
    pub service: Option<ServiceNo>,
    pub ingress: Wanted,
    pub instance: Instance,
}

/// A route: from its ingress over links to the router of its terminator. The total is what the terminator and the path cost.
#[derive(Drop)]
pub struct Route {
    pub ingress: RouterNo,
    pub links: Numbers,
    pub terminator: TermNo,
    pub total: u32,
}

/// Why a request gets no route.
#[derive(Clone, Copy, Debug, PartialEq, Eq, Error)]
pub enum DecideFault {
    /// The first rule of the request that fails.
    #[error("a rule fails")]
    Denied(Denial),
    /// There is no memory to decide.
    #[error("no memory")]
    NoMemory,
}

impl From<AllocError> for DecideFault {
    ghost use Rattle.std.specs.Prelude.{◌≡◌};
    ghost use Rattle.circuit_rules.specs.declared.views.DecideFault.TheVariants.{NoMemory};

    ghost from_gives = { λ error fault. fault ≡ NoMemory };

    fn from(_error: AllocError) -> DecideFault {
        DecideFault::NoMemory
    }
}
