ghost use Rattle.std.specs.Prelude.{◌≡◌, [], filter, IfOk};
ghost use Rattle.ctrl_model.specs.Choices.{Any, shared, ingresses};
ghost use Rattle.ctrl_model.specs.Networks.{is_shared};
ghost use Rattle.circuit_rules.specs.Views.{network};
ghost use Rattle.policy_advisor.specs.Advice.{of_both, router_numbers};

use circuit_rules::View;
use ctrl_model::{Numbers, RouterNo, RouterSeen};
use std::alloc::{AllocError, Global};

/// Where a circuit may enter, by numbers of routers.
#[derive(Drop)]
pub struct Entries {
    /// The routers that identity and service share.
    pub common: Numbers,
    /// Those of them that are connected.
    pub online: Numbers,
}

// Whether an identity and a service share the router.
fn is_shared(view: &View, identity: u32, service: u32, router: RouterNo) -> bool
    ensures { result ≡ is_shared (network view.now) identity service router.0 }
{
    view.identity_router.count(identity, router.0) > 0
        && view.service_router.count(service, router.0) > 0
}

// The routers that an identity and a service share.
fn shared(
    alloc: Global,
    view: &View,
    identity: u32,
    service: u32,
) -> Result<Vec<RouterSeen>, AllocError>
    ensures { IfOk result (λ v. v.items ≡ shared (network view.now) Any identity service) }
{
    view.routers
        .iter()
        .copied()
        .filter(|router| is_shared(view, identity, service, router.no))
        .collect(alloc)
}

// The numbers of some routers.
fn numbers_of(alloc: Global, routers: &[RouterSeen]) -> Result<Numbers, AllocError>
    ensures { IfOk result (λ ns. ns ≡ router_numbers routers.now) }
{
    let numbers = routers.iter().map(|router| router.no.0).collect(alloc)?;
    Ok(Numbers::of(numbers))
}

// The numbers of those routers that are connected.
fn online_of(alloc: Global, routers: &[RouterSeen]) -> Result<Numbers, AllocError>
    ensures { IfOk result (λ ns. ns ≡ router_numbers (filter (λ r. r.connected) routers.now)) }
{
    let online: Vec<RouterSeen> = routers
        .iter()
        .copied()
        .filter(|router| router.connected)
        .collect(alloc)?;
    numbers_of(alloc, online.as_slice())
}

// Where a circuit of an identity and a service may enter.
fn entries_between(
    alloc: Global,
    view: &View,
    identity: u32,
    service: u32,
) -> Result<Entries, AllocError>
    ensures common { IfOk result (λ e. e.common ≡ router_numbers (shared (network view.now) Any identity service)) }
    ensures online { IfOk result (λ e. e.online ≡ router_numbers (ingresses (network view.now) Any identity service)) }
{
    let shared = shared(alloc, view, identity, service)?;
    let common = numbers_of(alloc, shared.as_slice())?;
    let online = online_of(alloc, shared.as_slice())?;
    Ok(Entries { common, online })
}

/// Where a circuit of an identity and a service may enter; nowhere if one of them is absent.
pub(crate) fn entries_for(
    alloc: Global,
    view: &View,
    identity: Option<u32>,
    service: Option<u32>,
) -> Result<Entries, AllocError>
    ensures common { IfOk result (λ e. e.common ≡ of_both identity service [] (λ i s. router_numbers (shared (network view.now) Any i s))) }
    ensures online { IfOk result (λ e. e.online ≡ of_both identity service [] (λ i s. router_numbers (ingresses (network view.now) Any i s))) }
{
    match (identity, service) {
        (Some(identity), Some(service)) => entries_between(alloc, view, identity, service),
        _ => Ok(Entries {
            common: Numbers::of(Vec::new(alloc)),
            online: Numbers::of(Vec::new(alloc)),
        }),
    }
}
