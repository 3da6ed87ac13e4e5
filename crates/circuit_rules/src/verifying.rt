ghost use Rattle.std.specs.Prelude.{◌≡◌, ℕ, ◌==◌, ◌&&◌, true, IfOk};
ghost use Rattle.std.specs.List.{list_any};
ghost use Rattle.ctrl_model.specs.Claims.{is_route, justified, justified_for};
ghost use Rattle.ctrl_model.specs.State.{Terminator};
ghost use Rattle.fabric_graph.specs.Routers.{AreRouters};
ghost use Rattle.circuit_rules.specs.BestClaims.{IsBestClaim};
ghost use Rattle.circuit_rules.specs.Offers.{offer_of};
ghost use Rattle.circuit_rules.specs.Views.{network, asked};
ghost use Rattle.circuit_rules.specs.Parts.{term_offered, unloaded, is_entitled_by, is_complete_by, none_beats_by, is_justified_by};

use crate::beating::none_beats;
use crate::ingresses::ingresses;
use crate::numbers::{carrying_numbers, entry_numbers, router_numbers};
use crate::offers::{Offer, offer_at, offers};
use crate::settling::are_settled;
use crate::tight::is_route;
use crate::views::{Ask, View};
use ctrl_model::{Explanation, IdentityNo, RouterSeen, ServiceNo};
use route_choice::place_of;
use std::alloc::{AllocError, Global};

// Whether the claimed ingress is one of these.
fn is_entered(claim: &Explanation, ingresses: &[RouterSeen]) -> bool
    ensures { result ≡ list_any (λ r. r.no.0 == claim.now.ingress.0) ingresses.now }
{
    ingresses
        .iter()
        .any(|ingress| ingress.no.0 == claim.ingress.0)
}

// Whether the claimed terminator is one that offers.
fn is_offered(claim: &Explanation, offers: &[Offer]) -> bool
    ensures { result ≡ list_any (λ o. o.terminator.0 == claim.now.terminator.0) offers.now }
{
    offers
        .iter()
        .any(|offer| offer.terminator.0 == claim.terminator.0)
}

// Whether the identity may dial the service, the claimed ingress is one of these, and the claimed terminator is one that offers.
fn is_entitled(
    view: &View,
    claim: &Explanation,
    identity: IdentityNo,
    service: ServiceNo,
    ingresses: &[RouterSeen],
    offers: &[Offer],
) -> bool
    ensures { result ≡ is_entitled_by (network view.now) claim.now identity.0 service.0 ingresses.now offers.now }
{
    view.dial.count(identity.0, service.0) > 0
        && is_entered(claim, ingresses)
        && is_offered(claim, offers)
}

// Whether the claim names exactly the present routers, and has an entry for exactly those that carry an offer.
fn is_complete(
    alloc: Global,
    view: &View,
    claim: &Explanation,
    place: u8,
    offers: &[Offer],
) -> Result<bool, AllocError>
    ensures { IfOk result (λ yes. yes ≡ is_complete_by (network view.now) claim.now place offers.now) }
{
    let present = router_numbers(alloc, view.routers)?;
    let carrying = carrying_numbers(alloc, view.routers, offers, place)?;
    let entries = entry_numbers(alloc, claim.potentials.as_slice())?;
    Ok(claim.routers.as_slice() == present.as_slice() && entries.as_slice() == carrying.as_slice())
}

// Whether the claim's links are a route to the offer, and no offer beats it from any of these ingresses.
fn is_unbeaten(
    view: &View,
    claim: &Explanation,
    place: u8,
    ingresses: &[RouterSeen],
    offers: &[Offer],
    offer: Offer,
) -> bool
    ensures { result ≡ (is_route (unloaded (network view.now)) claim.now (term_offered offer) && none_beats_by (network view.now) claim.now place ingresses.now offers.now) }
{
    is_route(view, claim, offer) && none_beats(view, claim, place, ingresses, offers)
}

// Whether the claim is justified for an offer, of all offers and ingresses.
fn is_justified_by(
    alloc: Global,
    view: &View,
    claim: &Explanation,
    identity: IdentityNo,
    service: ServiceNo,
    ingresses: &[RouterSeen],
    offers: &[Offer],
    offer: Offer,
) -> Result<bool, AllocError>
    ensures { IfOk result (λ yes. yes ≡ is_justified_by (network view.now) claim.now identity.0 service.0 ingresses.now offers.now offer) }
{
    let place = place_of(offer.precedence);
    Ok(
        is_entitled(view, claim, identity, service, ingresses, offers)
            && is_complete(alloc, view, claim, place, offers)?
            && are_settled(alloc, view, claim.potentials.as_slice())?
            && is_unbeaten(view, claim, place, ingresses, offers, offer),
    )
}

// Whether the claim is justified for a present identity and service and the offer of the terminator that it names.
fn is_justified(
    alloc: Global,
    view: &View,
    ask: &Ask,
    claim: &Explanation,
    identity: IdentityNo,
    service: ServiceNo,
    offer: Offer,
) -> Result<bool, AllocError>
    ensures { (e : ℕ × Terminator) → offer ≡ offer_of (network view.now) e → IfOk result (λ yes. yes ≡ justified_for (network view.now) (asked ask.now) claim.now identity.0 service.0 e) }
{
    let ingresses = ingresses(alloc, view, ask.ingress, identity, service)?;
    let offers = offers(alloc, view, service, &ask.instance)?;
    is_justified_by(
        alloc,
        view,
        claim,
        identity,
        service,
        ingresses.as_slice(),
        offers.as_slice(),
        offer,
    )
}

// Whether a claimed route is justified for a request: its identity, its service and its terminator are looked up.
fn judge(alloc: Global, view: &View, ask: &Ask, claim: &Explanation) -> Result<bool, AllocError>
    ensures { IfOk result (λ yes. yes ≡ justified (network view.now) (asked ask.now) claim.now) }
{
    let Some(identity) = ask.identity else {
        return Ok(false);
    };
    let Some(service) = ask.service else {
        return Ok(false);
    };
    match offer_at(view, claim.terminator) {
        Some(offer) => is_justified(alloc, view, ask, claim, identity, service, offer),
        None => Ok(false),
    }
}

/// Whether a claimed route is justified for a request (docs/RULES.md, "Explanations and claims").
pub fn verify(
    alloc: Global,
    view: &View,
    ask: &Ask,
    claim: &Explanation,
) -> Result<bool, AllocError>
    ensures justified { IfOk result (λ yes. yes ≡ justified (network view.now) (asked ask.now) claim.now) }
    // After yes the claimed route is a candidate, and none has a better precedence, or the same and a lower total.
    ensures best { AreRouters view.now.routers.now → IfOk result (λ yes. yes ≡ true → IsBestClaim (network view.now) (asked ask.now) claim.now) }
{
    let _next = view.terminators.next();
    let _next_link = view.fabric.next();
    judge(alloc, view, ask, claim)
}
