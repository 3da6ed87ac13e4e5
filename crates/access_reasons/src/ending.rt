ghost use Rattle.std.specs.Prelude.{◌≡◌, ◌==◌, ◌∷◌, ◌++◌, [], decimal, map, length, IfOk, OnOk};
ghost use Rattle.std.specs.List.{list_any};
ghost use Rattle.std.specs.Option.{option_map};
ghost use Rattle.circuit_rules.specs.Views.{network};
ghost use Rattle.access_reasons.specs.Reasons.{admissible_parts, host_names, host_standing, routers_under, standing, standing_word, stands_on, terminator_items, terminator_part, terminator_parts};
ghost use Rattle.access_reasons.specs.Steps.{exit_findings};

use crate::entering::{finding_with, is_nothing};
use crate::findings::{Finding, Part, Standing};
use crate::naming::{decimal, entity_bytes, part_of_one, router_bytes, word};
use circuit_rules::View;
use ctrl_model::{Bytes, Denial, IdentityNo, Items, Kind, TermNo};
use entity_store::Entities;
use policy_advisor::Advice;
use std::alloc::{AllocError, Global};
use terminators::{TermView, is_connected};

// Whether the host of a terminator may serve, or the first cause why not.
fn host_standing(view: &View, term: &TermView, host: IdentityNo) -> Standing
    ensures { result ≡ host_standing (network view.now) term.now host.0 }
{
    if view.bind.count(host.0, term.service.0) == 0 {
        return Standing::HostWithoutBind;
    }
    if view.identity_router.count(host.0, term.router.0) > 0
        && view.service_router.count(term.service.0, term.router.0) > 0
    {
        return Standing::Admissible;
    }
    Standing::HostWithoutRouter
}

// Whether a circuit may end at a terminator, or the first cause why not.
fn standing(view: &View, term: &TermView) -> Standing
    ensures { result ≡ standing (network view.now) term.now }
{
    if !is_connected(view.routers, term.router) {
        return Standing::RouterOffline;
    }
    match term.host {
        Some(host) => host_standing(view, term, host),
        None => Standing::Admissible,
    }
}

fn standing_word(standing: Standing) -> &'static str
    ensures { result.now ≡ standing_word standing }
{
    match standing {
        Standing::Admissible => "admissible",
        Standing::RouterOffline => "router-offline",
        Standing::HostWithoutBind => "host-without-bind",
        Standing::HostWithoutRouter => "host-without-router",
    }
}

// Puts the name of a host down, if there is one.
fn put_host(
    alloc: Global,
    entities: &Entities,
    host: Option<IdentityNo>,
    items: &mut Vec<Bytes>,
) -> Result<(), AllocError>
    ensures { OnOk result (items.new.items ≡ items.old.items ++ host_names entities.now.identities.rows (option_map (λ h. h.0) host)) }
{
    match host {
        Some(host) => {
            items.push(entity_bytes(alloc, entities, Kind::Identity, host.0)?)?;
            Ok(())
        }
        None => Ok(()),
    }
}

// A terminator's router, its standing and its host.
fn terminator_items(
    alloc: Global,
    view: &View,
    entities: &Entities,
    term: &TermView,
) -> Result<Vec<Bytes>, AllocError>
    ensures { IfOk result (λ v. v.items ≡ terminator_items (network view.now) entities.now.identities.rows entities.now.routers.rows term.now) }
{
    let mut items = Vec::new(alloc);
    items.push(router_bytes(alloc, entities, term.router.0)?)?;
    items.push(word(alloc, standing_word(standing(view, term)))?)?;
    put_host(alloc, entities, term.host, &mut items)?;
    Ok(items)
}

// The same of the terminator of a number; nothing where it is absent.
fn items_at(
    alloc: Global,
    view: &View,
    entities: &Entities,
    number: u32,
) -> Result<Vec<Bytes>, AllocError>
    ensures { IfOk result (λ v. v.items ≡ (terminator_part (network view.now) entities.now.identities.rows entities.now.routers.rows number).items) }
{
    match view.terminators.seen(TermNo(number)) {
        Some(term) => terminator_items(alloc, view, entities, &term),
        None => Ok(Vec::new(alloc)),
    }
}

// The same under its number.
fn terminator_part(
    alloc: Global,
    view: &View,
    entities: &Entities,
    number: u32,
) -> Result<Part, AllocError>
    ensures { IfOk result (λ p. p ≡ terminator_part (network view.now) entities.now.identities.rows entities.now.routers.rows number) }
{
    let key = decimal(alloc, number as u64)?;
    let items = items_at(alloc, view, entities, number)?;
    Ok(Part {
        key,
        items: Items::of(items),
    })
}

// Each terminator that is counted.
fn admissible_parts(
    alloc: Global,
    view: &View,
    entities: &Entities,
    numbers: &[u32],
) -> Result<Vec<Part>, AllocError>
    ensures { IfOk result (λ ps. ps.items ≡ map (terminator_part (network view.now) entities.now.identities.rows entities.now.routers.rows) numbers.now) }
{
    let mut parts = Vec::new(alloc);
    'numbers: for number in numbers {
        parts.push(terminator_part(alloc, view, entities, *number)?)?;
    }
    Ok(parts)
}

// How many terminators are counted.
fn terminator_parts(alloc: Global, advice: &Advice) -> Result<Vec<Part>, AllocError>
    ensures { IfOk result (λ ps. ps.items ≡ terminator_parts advice.now) }
{
    let count = decimal(alloc, advice.terminators.len() as u64)?;
    let mut parts = Vec::new(alloc);
    parts.push(part_of_one(alloc, "count", count)?)?;
    Ok(parts)
}

// Whether the terminator of a number stands on a router.
fn stands_on(view: &View, router: u32, number: u32) -> bool
    ensures { result ≡ stands_on (network view.now) router number }
{
    match view.terminators.seen(TermNo(number)) {
        Some(term) => term.router.0 == router,
        None => false,
    }
}

// Whether one of the terminators of some numbers stands on a router.
fn carries(view: &View, router: u32, numbers: &[u32]) -> bool
    ensures { result ≡ list_any (stands_on (network view.now) router) numbers.now }
{
    numbers
        .iter()
        .any(|number| stands_on(view, router, *number))
}

/// The routers on which the terminators of some numbers stand.
pub(crate) fn routers_under(
    alloc: Global,
    view: &View,
    numbers: &[u32],
) -> Result<Vec<u32>, AllocError>
    ensures { IfOk result (λ v. v.items ≡ routers_under (network view.now) numbers.now) }
{
    view.routers
        .iter()
        .filter(|router| carries(view, router.no.0, numbers))
        .map(|router| router.no.0)
        .collect(alloc)
}

/// Puts down the findings of the rules on where a circuit ends.
pub(crate) fn put_exit_findings(
    alloc: Global,
    view: &View,
    entities: &Entities,
    advice: &Advice,
    findings: &mut Vec<Finding>,
) -> Result<(), AllocError>
    ensures { OnOk result (findings.new.items ≡ findings.old.items ++ exit_findings (network view.now) entities.now.identities.rows entities.now.routers.rows advice.now) }
{
    let count = terminator_parts(alloc, advice)?;
    findings.push(finding_with(
        Denial::NoTerminators,
        is_nothing(&advice.terminators),
        count,
    ))?;
    let each = admissible_parts(alloc, view, entities, advice.terminators.as_slice())?;
    findings.push(finding_with(
        Denial::NoAdmissibleTerminator,
        is_nothing(&advice.admissible),
        each,
    ))?;
    Ok(())
}
