ghost use Rattle.std.specs.Prelude.{◌≡◌, ◌&&◌, ◌||◌, not, IfOk, IsErrOf};
ghost use Rattle.std.specs.List.{list_any};
ghost use Rattle.ctrl_model.specs.Choices.{is_wanted, is_absent, ingresses, first_denial};
ghost use Rattle.ctrl_model.specs.Networks.{is_shared};
ghost use Rattle.circuit_rules.specs.Views.{network, wanted_of};
ghost use Rattle.circuit_rules.specs.Searched.{MayBeEntered, Passes, entry_rules};

use crate::views::{DecideFault, View, Wanted};
use ctrl_model::{Denial, IdentityNo, RouterNo, RouterSeen, ServiceNo};
use route_choice::first_denial;
use std::alloc::{AllocError, Global};

// Whether identity and service share the router, and the request allows it as its ingress.
fn is_shared(
    view: &View,
    ingress: Wanted,
    identity: IdentityNo,
    service: ServiceNo,
    router: RouterNo,
) -> bool
    ensures { result ≡ (is_wanted (wanted_of ingress) router.0 && is_shared (network view.now) identity.0 service.0 router.0) }
{
    let is_wanted = match ingress {
        Wanted::Any => true,
        Wanted::Absent => false,
        Wanted::One(wanted) => wanted.0 == router.0,
    };
    is_wanted
        && view.identity_router.count(identity.0, router.0) > 0
        && view.service_router.count(service.0, router.0) > 0
}

// Whether they share a router that the request allows, and that is connected where it has to be.
fn has_shared(
    view: &View,
    ingress: Wanted,
    identity: IdentityNo,
    service: ServiceNo,
    connected: bool,
) -> bool
    ensures { result ≡ list_any (λ r. (not connected || r.connected) && (is_wanted (wanted_of ingress) r.no.0 && is_shared (network view.now) identity.0 service.0 r.no.0)) view.now.routers.now }
{
    view.routers.iter().any(|router| (!connected || router.connected)
        && is_shared(view, ingress, identity, service, router.no))
}

/// The routers where a circuit may enter, whether or not the identity may dial the service.
pub fn ingresses(
    alloc: Global,
    view: &View,
    ingress: Wanted,
    identity: IdentityNo,
    service: ServiceNo,
) -> Result<Vec<RouterSeen>, AllocError>
    ensures { IfOk result (λ v. v.items ≡ ingresses (network view.now) (wanted_of ingress) identity.0 service.0) }
{
    view.routers
        .iter()
        .copied()
        .filter(|router| router.connected && is_shared(view, ingress, identity, service, router.no))
        .collect(alloc)
}

// Whether the request names an ingress that is absent.
fn is_absent(ingress: Wanted) -> bool
    ensures { result ≡ is_absent (wanted_of ingress) }
{
    matches!(ingress, Wanted::Absent)
}

// The denial of the first rule on where a circuit enters that fails, if one does.
fn entry_denial(
    view: &View,
    ingress: Wanted,
    identity: IdentityNo,
    service: ServiceNo,
) -> Option<Denial>
    ensures { result ≡ first_denial (entry_rules (network view.now) (wanted_of ingress) identity.0 service.0) }
{
    let absent = is_absent(ingress);
    let count = view.dial.count(identity.0, service.0);
    let shared = has_shared(view, ingress, identity, service, false);
    let connected = has_shared(view, ingress, identity, service, true);
    first_denial(&[
        (absent, Denial::UnknownRouter),
        (count == 0, Denial::NoDial),
        (!shared, Denial::NoSharedRouter),
        (!connected, Denial::SharedRoutersOffline),
    ])
}

/// The routers where a circuit may enter: `Denied` comes where a rule on them fails, and memory can be wanting only where none does.
pub fn allowed_ingresses(
    alloc: Global,
    view: &View,
    ingress: Wanted,
    identity: IdentityNo,
    service: ServiceNo,
) -> Result<Vec<RouterSeen>, DecideFault>
    ensures allowed { Passes (entry_rules (network view.now) (wanted_of ingress) identity.0 service.0) (λ v. v.items ≡ ingresses (network view.now) (wanted_of ingress) identity.0 service.0) result }
    ensures memory { IsErrOf result DecideFault.NoMemory → MayBeEntered (network view.now) (wanted_of ingress) identity.0 service.0 }
{
    if let Some(denial) = entry_denial(view, ingress, identity, service) {
        return Err(DecideFault::Denied(denial));
    }
    Ok(ingresses(alloc, view, ingress, identity, service)?)
}
