ghost use Rattle.std.specs.Prelude.{◌≡◌, ◌++◌, ◌==◌, [], false, Some, IfOk, OnOk};
ghost use Rattle.ctrl_model.specs.Choices.{candidates_for};
ghost use Rattle.ctrl_model.specs.Matches.{is_nothing};
ghost use Rattle.circuit_rules.specs.Views.{asked, network};
ghost use Rattle.fabric_graph.specs.Routers.{AreRouters};
ghost use Rattle.grant_denorm.specs.PairCounts.{count_of};
ghost use Rattle.policy_advisor.specs.Advice.{plain_ask};
ghost use Rattle.access_reasons.specs.Reasons.{path_parts};
ghost use Rattle.access_reasons.specs.Steps.{granted_by, way_findings};

use crate::ending::routers_under;
use crate::entering::finding_with;
use crate::findings::{Finding, Part};
use crate::naming::router_part;
use circuit_rules::{Ask, DecideFault, View, Wanted, decide};
use ctrl_model::{Denial, IdentityNo, Instance, NameFault, ServiceNo};
use entity_store::Entities;
use grant_denorm::Counted;
use policy_advisor::Advice;
use std::alloc::{AllocError, Global};

// The request of an identity and a service for any ingress and the empty instance.
fn plain_ask(alloc: Global, identity: u32, service: u32) -> Result<Ask, AllocError>
    ensures { IfOk result (λ ask. asked ask ≡ plain_ask (Some identity) (Some service)) }
{
    match Instance::of(alloc, b"") {
        Ok(instance) => Ok(Ask {
            identity: Some(IdentityNo(identity)),
            service: Some(ServiceNo(service)),
            ingress: Wanted::Any,
            instance,
        }),
        Err(NameFault::NoMemory) => Err(AllocError),
        Err(NameFault::BadName) => unreachable!(),
    }
}

// The counts that grant one pair alone.
fn granting(alloc: Global, identity: u32, service: u32) -> Result<Counted, AllocError>
    ensures { IfOk result (λ c. (count_of c identity service == 0) ≡ false) }
{
    let mut counted = Counted::new(alloc);
    counted.raise(identity, service)?;
    Ok(counted)
}

// A view by other counts of Dial, where circuits are not full.
fn granted_view<'a>(view: &'a View, dial: &'a Counted) -> View<'a>
    ensures network { network result ≡ granted_by (network view.now) (count_of dial.now) }
    ensures routers { result.routers.now ≡ view.now.routers.now }
{
    View {
        dial,
        bind: view.bind,
        identity_router: view.identity_router,
        service_router: view.service_router,
        routers: view.routers,
        fabric: view.fabric,
        terminators: view.terminators,
        circuits_full: false,
    }
}

// Whether no path leads from where a circuit of the two may enter to where it may end: whether a request that is granted Dial, where
// circuits are not full, gets no route.
fn lacks_path(alloc: Global, view: &View, identity: u32, service: u32) -> Result<bool, AllocError>
    requires { AreRouters view.now.routers.now }
    ensures { IfOk result (λ lacks. lacks ≡ is_nothing (candidates_for (network view.now) (plain_ask (Some identity) (Some service)) identity service)) }
{
    let ask = plain_ask(alloc, identity, service)?;
    let dial = granting(alloc, identity, service)?;
    match decide(alloc, &granted_view(view, &dial), &ask) {
        Ok(_) => Ok(false),
        Err(DecideFault::Denied(_denial)) => Ok(true),
        Err(DecideFault::NoMemory) => Err(AllocError),
    }
}

// Where a path may begin, and where it may end.
fn path_parts(
    alloc: Global,
    view: &View,
    entities: &Entities,
    advice: &Advice,
) -> Result<Vec<Part>, AllocError>
    ensures { IfOk result (λ ps. ps.items ≡ path_parts (network view.now) entities.now.routers.rows advice.now) }
{
    let ends = routers_under(alloc, view, advice.admissible.as_slice())?;
    let mut parts = Vec::new(alloc);
    parts.push(router_part(alloc, "from", entities, advice.online.as_slice())?)?;
    parts.push(router_part(alloc, "to", entities, ends.as_slice())?)?;
    Ok(parts)
}

/// Puts down the findings of the rules on paths and on room for circuits.
pub(crate) fn put_way_findings(
    alloc: Global,
    view: &View,
    entities: &Entities,
    advice: &Advice,
    identity: u32,
    service: u32,
    findings: &mut Vec<Finding>,
) -> Result<(), AllocError>
    requires { AreRouters view.now.routers.now }
    ensures { OnOk result (findings.new.items ≡ findings.old.items ++ way_findings (network view.now) entities.now.routers.rows advice.now identity service) }
{
    let lacks = lacks_path(alloc, view, identity, service)?;
    let ends = path_parts(alloc, view, entities, advice)?;
    findings.push(finding_with(Denial::NoPath, lacks, ends))?;
    findings.push(finding_with(Denial::CircuitsFull, view.circuits_full, Vec::new(alloc)))?;
    Ok(())
}
