ghost use Rattle.std.specs.Prelude.{◌≡◌};
ghost use Rattle.ctrl_model.specs.Networks.{is_shared, may_host, is_in_service};
ghost use Rattle.terminators.specs.TermRules.{granted, is_admissible};

use crate::offers::TermView;
use crate::routers::is_connected;
use ctrl_model::{IdentityNo, Instance, RouterNo, RouterSeen, ServiceNo};
use grant_denorm::CountedAfter;

/// The grants and the routers that decide which terminators are admissible, as they will be.
#[derive(Clone, Copy)]
pub struct Grants<'a> {
    pub bind: &'a CountedAfter<'a>,
    pub identity_router: &'a CountedAfter<'a>,
    pub service_router: &'a CountedAfter<'a>,
    pub routers: &'a [RouterSeen],
}

/// Whether an identity and a service share a router.
pub fn is_shared(
    grants: &Grants,
    identity: IdentityNo,
    service: ServiceNo,
    router: RouterNo,
) -> bool
    ensures { result ≡ is_shared (granted grants.now) identity.0 service.0 router.0 }
{
    grants.identity_router.count(identity.0, router.0) > 0
        && grants.service_router.count(service.0, router.0) > 0
}

// Whether the host may serve: it has Bind on the service, and shares the router with it.
fn may_host(grants: &Grants, term: &TermView, host: IdentityNo) -> bool
    ensures { result ≡ may_host (granted grants.now) term.now host.0 }
{
    grants.bind.count(host.0, term.service.0) > 0
        && is_shared(grants, host, term.service, term.router)
}

/// Whether the terminator can be used: its router is connected, and its host, if it has one, may serve (docs/RULES.md, "Terminators").
pub fn is_in_service(grants: &Grants, term: &TermView) -> bool
    ensures { result ≡ is_in_service (granted grants.now) (0, term.now) }
{
    is_connected(grants.routers, term.router)
        && match term.host {
            Some(host) => may_host(grants, term, host),
            None => true,
        }
}

/// Whether the terminator is an admissible one of the service and the instance.
pub fn is_admissible(
    grants: &Grants,
    service: ServiceNo,
    instance: &Instance,
    term: &TermView,
) -> bool
    ensures { result ≡ is_admissible (granted grants.now) service.0 instance.now (0, term.now) }
{
    term.service.0 == service.0
        && term.instance.bytes() == instance.bytes()
        && is_in_service(grants, term)
}
