ghost use Rattle.std.specs.Prelude.{◌≡◌, ◌==◌, ◌∷◌, ◌++◌, [], IfOk, OnOk};
ghost use Rattle.ctrl_model.specs.Matches.{is_nothing};
ghost use Rattle.circuit_rules.specs.Views.{network};
ghost use Rattle.access_reasons.specs.Reasons.{dial_parts, identity_routers, name_parts, offline, online_parts, service_routers, shared_parts};
ghost use Rattle.access_reasons.specs.Steps.{entry_findings};

use crate::findings::{Finding, Part, Sides};
use crate::naming::{marks_part, router_part};
use circuit_rules::View;
use ctrl_model::{Denial, Items, Numbers};
use entity_store::Entities;
use policy_advisor::{Advice, Marked};
use record_tables::is_among;
use std::alloc::{AllocError, Global};

/// The finding of a rule.
pub(crate) fn finding_with(rule: Denial, fails: bool, parts: Vec<Part>) -> Finding
    ensures { result ≡ record { rule = rule; fails = fails; parts = parts.items } }
{
    Finding {
        rule,
        fails,
        parts: Items::of(parts),
    }
}

/// Whether there are no numbers.
pub(crate) fn is_nothing(numbers: &Numbers) -> bool
    ensures { result ≡ is_nothing numbers.now }
{
    match numbers.as_slice() {
        [] => true,
        _ => false,
    }
}

// The policies that grant Dial to a pair, and those that match one of the two alone.
fn dial_parts(alloc: Global, marks: &[Marked]) -> Result<Vec<Part>, AllocError>
    ensures { IfOk result (λ ps. ps.items ≡ dial_parts marks.now) }
{
    let mut parts = Vec::new(alloc);
    parts.push(marks_part(alloc, "policies", Sides::Both, marks)?)?;
    parts.push(marks_part(alloc, "identity-only", Sides::IdentityOnly, marks)?)?;
    parts.push(marks_part(alloc, "service-only", Sides::ServiceOnly, marks)?)?;
    Ok(parts)
}

// The routers that an identity is granted.
fn identity_routers(alloc: Global, view: &View, identity: u32) -> Result<Vec<u32>, AllocError>
    ensures { IfOk result (λ v. v.items ≡ identity_routers (network view.now) identity) }
{
    view.routers
        .iter()
        .filter(|router| view.identity_router.count(identity, router.no.0) > 0)
        .map(|router| router.no.0)
        .collect(alloc)
}

// The routers that a service is granted.
fn service_routers(alloc: Global, view: &View, service: u32) -> Result<Vec<u32>, AllocError>
    ensures { IfOk result (λ v. v.items ≡ service_routers (network view.now) service) }
{
    view.routers
        .iter()
        .filter(|router| view.service_router.count(service, router.no.0) > 0)
        .map(|router| router.no.0)
        .collect(alloc)
}

// The shared routers, and those of each of the two.
fn shared_parts(
    alloc: Global,
    view: &View,
    entities: &Entities,
    advice: &Advice,
    identity: u32,
    service: u32,
) -> Result<Vec<Part>, AllocError>
    ensures { IfOk result (λ ps. ps.items ≡ shared_parts (network view.now) entities.now.routers.rows advice.now identity service) }
{
    let own = identity_routers(alloc, view, identity)?;
    let others = service_routers(alloc, view, service)?;
    let mut parts = Vec::new(alloc);
    parts.push(router_part(alloc, "shared", entities, advice.common.as_slice())?)?;
    parts.push(router_part(alloc, "identity", entities, own.as_slice())?)?;
    parts.push(router_part(alloc, "service", entities, others.as_slice())?)?;
    Ok(parts)
}

// The shared routers that are not connected.
fn offline(alloc: Global, advice: &Advice) -> Result<Vec<u32>, AllocError>
    ensures { IfOk result (λ v. v.items ≡ offline advice.now) }
{
    let online = advice.online.as_slice();
    advice
        .common
        .as_slice()
        .iter()
        .copied()
        .filter(|number| !is_among(*number, online))
        .collect(alloc)
}

// The shared routers that are connected, and those that are not.
fn online_parts(
    alloc: Global,
    entities: &Entities,
    advice: &Advice,
) -> Result<Vec<Part>, AllocError>
    ensures { IfOk result (λ ps. ps.items ≡ online_parts entities.now.routers.rows advice.now) }
{
    let offline = offline(alloc, advice)?;
    let mut parts = Vec::new(alloc);
    parts.push(router_part(alloc, "online", entities, advice.online.as_slice())?)?;
    parts.push(router_part(alloc, "offline", entities, offline.as_slice())?)?;
    Ok(parts)
}

/// Puts down the findings of the rules on Dial and on where a circuit enters.
pub(crate) fn put_entry_findings(
    alloc: Global,
    view: &View,
    entities: &Entities,
    advice: &Advice,
    identity: u32,
    service: u32,
    findings: &mut Vec<Finding>,
) -> Result<(), AllocError>
    ensures { OnOk result (findings.new.items ≡ findings.old.items ++ entry_findings (network view.now) entities.now.routers.rows advice.now identity service) }
{
    let dial = dial_parts(alloc, advice.policies.as_slice())?;
    findings.push(finding_with(Denial::NoDial, advice.dial == 0, dial))?;
    let shared = shared_parts(alloc, view, entities, advice, identity, service)?;
    findings.push(finding_with(Denial::NoSharedRouter, is_nothing(&advice.common), shared))?;
    let online = online_parts(alloc, entities, advice)?;
    findings.push(finding_with(
        Denial::SharedRoutersOffline,
        is_nothing(&advice.online),
        online,
    ))?;
    Ok(())
}
