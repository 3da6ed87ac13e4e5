ghost use Rattle.std.specs.Prelude.{◌≡◌, map, not, IfOk};
ghost use Rattle.std.specs.List.{filter_map, list_any};
ghost use Rattle.ctrl_model.specs.Matches.{is_nothing};
ghost use Rattle.ctrl_model.specs.Networks.{is_counted, counted, admissible};
ghost use Rattle.terminators.specs.TermTables.{KeepsTerms};
ghost use Rattle.circuit_rules.specs.Views.{network};
ghost use Rattle.circuit_rules.specs.Offers.{offer_of, offer_at, is_carried};
ghost use Rattle.circuit_rules.specs.Searched.{Passes, offer_rules, counts};

use crate::views::{DecideFault, View};
use ctrl_model::{Denial, Instance, Precedence, RouterNo, ServiceNo, TermNo};
use route_choice::place_of;
use std::alloc::{AllocError, Global};
use terminators::Term;

/// What a terminator offers to routes: where it stands, what it costs with its load, and its precedence.
#[derive(Clone, Copy)]
pub struct Offer {
    pub terminator: TermNo,
    pub router: RouterNo,
    pub cost: u32,
    pub precedence: Precedence,
}

/// What the terminator of a number offers, if it is present.
pub fn offer_at(view: &View, no: TermNo) -> Option<Offer>
    ensures { result ≡ offer_at (network view.now) no.0 }
{
    match view.terminators.get(no) {
        Ok(term) => Some(Offer {
            terminator: no,
            router: term.router,
            cost: view.terminators.term_cost(no),
            precedence: term.precedence,
        }),
        Err(_) => None,
    }
}

// What the present terminators of some numbers offer.
fn offers_at(alloc: Global, view: &View, numbers: &[u32]) -> Result<Vec<Offer>, AllocError>
    ensures { IfOk result (λ v. v.items ≡ filter_map (offer_at (network view.now)) numbers.now) }
{
    numbers
        .iter()
        .filter_map(|no| offer_at(view, TermNo(*no)))
        .collect(alloc)
}

/// What the admissible terminators of a service and an instance offer, by ascending number.
pub fn offers(
    alloc: Global,
    view: &View,
    service: ServiceNo,
    instance: &Instance,
) -> Result<Vec<Offer>, AllocError>
    ensures offers { IfOk result (λ v. v.items ≡ map (offer_of (network view.now)) (admissible (network view.now) service.0 instance.now)) }
    // The terminators have different numbers, and each cost is in its range.
    ensures keeps { KeepsTerms view.now.terminators.now }
{
    // Its contract says what the terminators keep.
    let _next = view.terminators.next();
    let numbers = view.terminators.admissible(
        alloc,
        service,
        instance,
        view.bind,
        view.identity_router,
        view.service_router,
        view.routers,
    )?;
    offers_at(alloc, view, numbers.as_slice())
}

// Whether a request for the service and the instance counts the terminator.
fn is_counted(service: ServiceNo, instance: &Instance, term: &Term) -> bool
    ensures { result ≡ is_counted service.0 instance.now (0, term.now) }
{
    term.service.0 == service.0 && term.instance.bytes() == instance.bytes()
}

// Whether the request counts the terminator of a number.
fn counts(view: &View, service: ServiceNo, instance: &Instance, number: u32) -> bool
    ensures { result ≡ counts (network view.now) service.0 instance.now number }
{
    match view.terminators.get(TermNo(number)) {
        Ok(term) => is_counted(service, instance, term),
        Err(_) => false,
    }
}

// Whether the request counts the terminator of one of the numbers.
fn counts_one(view: &View, service: ServiceNo, instance: &Instance, numbers: &[u32]) -> bool
    ensures { result ≡ list_any (counts (network view.now) service.0 instance.now) numbers.now }
{
    numbers
        .iter()
        .any(|number| counts(view, service, instance, *number))
}

// Whether the request counts some terminator.
fn has_counted(
    alloc: Global,
    view: &View,
    service: ServiceNo,
    instance: &Instance,
) -> Result<bool, AllocError>
    requires { KeepsTerms view.now.terminators.now }
    ensures { IfOk result (λ b. is_nothing (counted (network view.now) service.0 instance.now) ≡ not b) }
{
    let numbers = view.terminators.numbers(alloc)?;
    Ok(counts_one(view, service, instance, numbers.as_slice()))
}

/// What the terminators where a circuit may end offer: `Denied` comes where a rule on them fails.
pub fn allowed_offers(
    alloc: Global,
    view: &View,
    service: ServiceNo,
    instance: &Instance,
) -> Result<Vec<Offer>, DecideFault>
    ensures offers { Passes (offer_rules (network view.now) service.0 instance.now) (λ v. v.items ≡ map (offer_of (network view.now)) (admissible (network view.now) service.0 instance.now)) result }
    // The terminators have different numbers, and each cost is in its range.
    ensures keeps { KeepsTerms view.now.terminators.now }
{
    let offers = offers(alloc, view, service, instance)?;
    if !offers.is_empty() {
        return Ok(offers);
    }
    if has_counted(alloc, view, service, instance)? {
        Err(DecideFault::Denied(Denial::NoAdmissibleTerminator))
    } else {
        Err(DecideFault::Denied(Denial::NoTerminators))
    }
}

/// Whether one of these stands on the router and has a precedence of at most the place.
pub fn is_carried(offers: &[Offer], place: u8, router: RouterNo) -> bool
    ensures { result ≡ is_carried offers.now place router.0 }
{
    offers.iter().any(|offer| offer.router.0 == router.0 && place_of(offer.precedence) <= place)
}
