ghost use Rattle.std.specs.Prelude.{◌≡◌, ◌++◌, [], true, IfOk, OnOk};
ghost use Rattle.ctrl_model.specs.State.{State};
ghost use Rattle.circuit_rules.specs.Views.{network};
ghost use Rattle.entity_store.specs.EntityTables.{is_entity_kind, number_of};
ghost use Rattle.fabric_graph.specs.Routers.{AreRouters};
ghost use Rattle.policy_advisor.specs.Advice.{of_both};
ghost use Rattle.access_reasons.specs.Reasons.{name_parts, why};
ghost use Rattle.access_reasons.specs.StateStores.{AreOfValidState, AreStoresOf};
ghost use Rattle.access_reasons.specs.Steps.{findings_by, pair_findings};

use crate::ending::put_exit_findings;
use crate::entering::{finding_with, put_entry_findings};
use crate::findings::{Finding, Findings};
use crate::lending::Stores;
use crate::naming::name_parts;
use crate::searching::put_way_findings;
use crate::viewing::view_of;
use circuit_rules::View;
use ctrl_model::{Denial, Items, Kind, Name};
use entity_store::Entities;
use policy_advisor::{Advice, advise};
use std::alloc::{AllocError, Global};

/// The finding of the rule that an asked name is known.
pub(crate) fn name_finding(
    alloc: Global,
    rule: Denial,
    fails: bool,
    name: &Name,
) -> Result<Finding, AllocError>
    ensures { IfOk result (λ f. f ≡ record { rule = rule; fails = fails; parts = name_parts name.now }) }
{
    let parts = name_parts(alloc, name)?;
    Ok(finding_with(rule, fails, parts))
}

/// The number of the entity that has the name, if one has it.
pub(crate) fn number_named(entities: &Entities, kind: Kind, name: &Name) -> Option<u32>
    requires { is_entity_kind kind ≡ true }
    ensures { result ≡ number_of kind name.now entities.now }
{
    entities.find(kind, name).ok()
}

// Puts down the findings of the rules on two that are present.
fn put_pair(
    alloc: Global,
    view: &View,
    entities: &Entities,
    advice: &Advice,
    identity: u32,
    service: u32,
    findings: &mut Vec<Finding>,
) -> Result<(), AllocError>
    requires { AreRouters view.now.routers.now }
    ensures { OnOk result (findings.new.items ≡ findings.old.items ++ pair_findings (network view.now) entities.now.identities.rows entities.now.routers.rows advice.now identity service) }
{
    put_entry_findings(alloc, view, entities, advice, identity, service, findings)?;
    put_exit_findings(alloc, view, entities, advice, findings)?;
    put_way_findings(alloc, view, entities, advice, identity, service, findings)
}

// Puts down the findings of the rules on two of which each may be present; nothing where one is absent.
fn put_both(
    alloc: Global,
    view: &View,
    entities: &Entities,
    advice: &Advice,
    identity: Option<u32>,
    service: Option<u32>,
    findings: &mut Vec<Finding>,
) -> Result<(), AllocError>
    requires { AreRouters view.now.routers.now }
    ensures { OnOk result (findings.new.items ≡ findings.old.items ++ of_both identity service [] (pair_findings (network view.now) entities.now.identities.rows entities.now.routers.rows advice.now)) }
{
    match (identity, service) {
        (Some(identity), Some(service)) => {
            put_pair(alloc, view, entities, advice, identity, service, findings)
        }
        _ => Ok(()),
    }
}

// The findings on two names, of their advice.
fn findings_by(
    alloc: Global,
    view: &View,
    entities: &Entities,
    advice: &Advice,
    identity: &Name,
    service: &Name,
) -> Result<Findings, AllocError>
    requires { AreRouters view.now.routers.now }
    ensures { IfOk result (λ fs. fs ≡ findings_by (network view.now) entities.now.identities.rows entities.now.services.rows entities.now.routers.rows advice.now identity.now service.now) }
{
    let who = number_named(entities, Kind::Identity, identity);
    let what = number_named(entities, Kind::Service, service);
    let mut findings = Vec::new(alloc);
    findings.push(name_finding(alloc, Denial::UnknownIdentity, who.is_none(), identity)?)?;
    findings.push(name_finding(alloc, Denial::UnknownService, what.is_none(), service)?)?;
    put_both(alloc, view, entities, advice, who, what, &mut findings)?;
    Ok(Items::of(findings))
}

/// Why an identity can or cannot reach a service, by their names: a finding for each rule of a circuit request without an ingress and with
/// the empty instance, in the order of the rules; where one of the two is absent, for the rules alone that they are present. In every
/// state with these stores the findings are the state's (docs/RULES.md, "Reasons"). An `Err` is want of memory.
pub fn why(
    alloc: Global,
    stores: &Stores,
    identity: &Name,
    service: &Name,
) -> Result<Findings, AllocError>
    requires { AreOfValidState stores.now }
    ensures { IfOk result (λ fs. (s : State) → AreStoresOf stores.now s → fs ≡ why s identity.now service.now) }
{
    let entities = stores.entities;
    let routers = entities.routers(alloc)?;
    let view = view_of(stores, routers.as_slice());
    let advice = advise(alloc, &view, entities, stores.policies, identity, service)?;
    findings_by(alloc, &view, entities, &advice, identity, service)
}
