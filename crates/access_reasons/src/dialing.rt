ghost use Rattle.std.specs.Prelude.{◌≡◌, ◌∷◌, ◌++◌, ◌&&◌, [], cond, filter, map, nat_lt, Some, IfOk, OnOk};
ghost use Rattle.std.specs.Option.{option_map_or};
ghost use Rattle.ctrl_model.specs.Numbered.{at, numbers};
ghost use Rattle.ctrl_model.specs.State.{State};
ghost use Rattle.policy_advisor.specs.Advice.{dial_marks, grants_dial, has_both, marked};
ghost use Rattle.access_reasons.specs.declared.findings.Sides.TheVariants.{Both};
ghost use Rattle.access_reasons.specs.Reasons.{dialer_finding, dialers, dialers_in, names_with, who};
ghost use Rattle.access_reasons.specs.StateStores.{AreStoresOf, facts_in};

use crate::entering::finding_with;
use crate::findings::{Finding, Findings};
use crate::lending::Stores;
use crate::naming::{entity_bytes, name_bytes, part_of, part_of_one};
use crate::reasoning::{name_finding, number_named};
use ctrl_model::{Bytes, Denial, Items, Kind, Name, Relation};
use entity_store::EntityView;
use policy_store::{Policies, Policy};
use record_tables::NamedTable;
use role_expr::matches;
use std::alloc::{AllocError, Global};

// Whether a policy grants Dial to an identity on a service.
fn grants(policy: &Policy, identity: &EntityView, service: &EntityView) -> bool
    ensures { result ≡ (grants_dial policy.now && has_both (marked (Some identity.now) (Some service.now) policy.now)) }
{
    matches!(policy.relation, Relation::Dial)
        && matches(
            &policy.left,
            policy.semantic,
            identity.name,
            identity.attributes,
        )
        && matches(
            &policy.right,
            policy.semantic,
            service.name,
            service.attributes,
        )
}

// Puts the name of a policy down, if it grants Dial to an identity on a service.
fn put_name(
    alloc: Global,
    policy: &Policy,
    identity: &EntityView,
    service: &EntityView,
    names: &mut Vec<Bytes>,
) -> Result<(), AllocError>
    ensures { OnOk result (names.new.items ≡ names.old.items ++ cond (grants_dial policy.now && has_both (marked (Some identity.now) (Some service.now) policy.now)) (policy.now.name ∷ []) []) }
{
    if grants(policy, identity, service) {
        names.push(name_bytes(alloc, &policy.name)?)?;
    }
    Ok(())
}

// The names of the policies of a table that grant Dial to an identity on a service.
fn names_in(
    alloc: Global,
    table: &NamedTable<Policy>,
    identity: &EntityView,
    service: &EntityView,
) -> Result<Vec<Bytes>, AllocError>
    ensures { IfOk result (λ v. v.items ≡ names_with Both (dial_marks (Some identity.now) (Some service.now) table.now.rows)) }
{
    let mut names = Vec::new(alloc);
    'policies: for (_, policy) in table.rows() {
        put_name(alloc, policy, identity, service, &mut names)?;
    }
    Ok(names)
}

// The names of the policies that grant Dial to an identity on a service.
fn names_by(
    alloc: Global,
    policies: &Policies,
    identity: &EntityView,
    service: &EntityView,
) -> Result<Vec<Bytes>, AllocError>
    ensures { IfOk result (λ v. v.items ≡ names_with Both (dial_marks (Some identity.now) (Some service.now) policies.now.service_policies.rows)) }
{
    let Some(table) = policies.table(Kind::ServicePolicy) else {
        unreachable!()
    };
    names_in(alloc, table, identity, service)
}

// The same where the service is there, and else nothing.
fn names_on(
    alloc: Global,
    policies: &Policies,
    identity: &EntityView,
    service: &Option<EntityView>,
) -> Result<Vec<Bytes>, AllocError>
    ensures { IfOk result (λ v. v.items ≡ names_with Both (dial_marks (Some identity.now) service.now policies.now.service_policies.rows)) }
{
    match service {
        Some(service) => names_by(alloc, policies, identity, service),
        None => Ok(Vec::new(alloc)),
    }
}

// The same where the identity is there too, and else nothing.
fn granting_names(
    alloc: Global,
    policies: &Policies,
    identity: &Option<EntityView>,
    service: &Option<EntityView>,
) -> Result<Vec<Bytes>, AllocError>
    ensures { IfOk result (λ v. v.items ≡ names_with Both (dial_marks identity.now service.now policies.now.service_policies.rows)) }
{
    match identity {
        Some(identity) => names_on(alloc, policies, identity, service),
        None => Ok(Vec::new(alloc)),
    }
}

// The finding of an identity that is granted Dial on a service.
fn dialer_finding(
    alloc: Global,
    stores: &Stores,
    service: u32,
    identity: u32,
) -> Result<Finding, AllocError>
    ensures { IfOk result (λ f. f ≡ dialer_finding (facts_in stores.now) service identity) }
{
    let name = entity_bytes(alloc, stores.entities, Kind::Identity, identity)?;
    let names = granting_names(
        alloc,
        stores.policies,
        &stores.entities.entity(Kind::Identity, identity),
        &stores.entities.entity(Kind::Service, service),
    )?;
    let mut parts = Vec::new(alloc);
    parts.push(part_of_one(alloc, "identity", name)?)?;
    parts.push(part_of(alloc, "policies", names)?)?;
    Ok(finding_with(Denial::NoDial, false, parts))
}

// The identities that are granted Dial on a service.
fn dialers(alloc: Global, stores: &Stores, service: u32) -> Result<Vec<u32>, AllocError>
    ensures { IfOk result (λ v. v.items ≡ dialers (facts_in stores.now) service) }
{
    let identities = stores.entities.numbers(alloc, Kind::Identity)?;
    identities
        .as_slice()
        .iter()
        .copied()
        .filter(|identity| stores.dial.count(*identity, service) > 0)
        .collect(alloc)
}

// Puts down the findings of some identities that are granted Dial on a service.
fn put_dialers(
    alloc: Global,
    stores: &Stores,
    service: u32,
    identities: &[u32],
    findings: &mut Vec<Finding>,
) -> Result<(), AllocError>
    ensures { OnOk result (findings.new.items ≡ findings.old.items ++ map (dialer_finding (facts_in stores.now) service) identities.now) }
{
    'identities: for identity in identities {
        findings.push(dialer_finding(alloc, stores, service, *identity)?)?;
    }
    Ok(())
}

// Puts down the findings of all that are granted Dial on a service, if it is there.
fn put_all(
    alloc: Global,
    stores: &Stores,
    service: Option<u32>,
    findings: &mut Vec<Finding>,
) -> Result<(), AllocError>
    ensures { OnOk result (findings.new.items ≡ findings.old.items ++ option_map_or (λ s. map (dialer_finding (facts_in stores.now) s) (dialers (facts_in stores.now) s)) service []) }
{
    match service {
        Some(service) => {
            let identities = dialers(alloc, stores, service)?;
            put_dialers(alloc, stores, service, identities.as_slice(), findings)
        }
        None => Ok(()),
    }
}

// The findings on the name of a service.
fn dialers_in(alloc: Global, stores: &Stores, service: &Name) -> Result<Findings, AllocError>
    ensures { IfOk result (λ fs. fs ≡ dialers_in (facts_in stores.now) service.now) }
{
    let what = number_named(stores.entities, Kind::Service, service);
    let mut findings = Vec::new(alloc);
    findings.push(name_finding(alloc, Denial::UnknownService, what.is_none(), service)?)?;
    put_all(alloc, stores, what, &mut findings)?;
    Ok(Items::of(findings))
}

/// Who is granted Dial on a service, by its name: whether it is present, and then a finding for each identity that is granted it, by
/// ascending number, with the policies that grant it. In every state with these stores the findings are the state's (docs/RULES.md,
/// "Reasons"). An `Err` is want of memory.
pub fn who(alloc: Global, stores: &Stores, service: &Name) -> Result<Findings, AllocError>
    ensures { IfOk result (λ fs. (s : State) → AreStoresOf stores.now s → fs ≡ who s service.now) }
{
    dialers_in(alloc, stores, service)
}
