ghost use Rattle.std.specs.Prelude.{◌≡◌, true, Some, IfOk};
ghost use Rattle.ctrl_model.specs.State.{State};
ghost use Rattle.circuit_rules.specs.Views.{network};
ghost use Rattle.entity_store.specs.EntityTables.{is_entity_kind, number_of};
ghost use Rattle.grant_denorm.specs.PairCounts.{count_of};
ghost use Rattle.policy_advisor.specs.Advice.{advice_on, advice_of, of_both};
ghost use Rattle.policy_advisor.specs.AdvisedStates.{ArePartsOf, HasRouters};
ghost use Rattle.policy_advisor.specs.Steps.{rule_by};

use crate::advised::{Advice, Marks};
use crate::entering::{Entries, entries_for};
use crate::marking::{entity_at, marks};
use crate::offering::{Offers, offers_for};
use circuit_rules::View;
use ctrl_model::{Denial, Kind, Name};
use entity_store::Entities;
use grant_denorm::Counted;
use policy_store::Policies;
use std::alloc::{AllocError, Global};

// The count of a pair; 0 where one of the two is absent.
fn count_between(counted: &Counted, identity: Option<u32>, service: Option<u32>) -> u32
    ensures { result ≡ of_both identity service 0 (count_of counted.now) }
{
    match (identity, service) {
        (Some(identity), Some(service)) => counted.count(identity, service),
        _ => 0,
    }
}

// The first rule that fails where a circuit enters or ends.
fn rule_between(dial: u32, entries: &Entries, offers: &Offers) -> Option<Denial>
    ensures { result ≡ rule_by (Some 0) (Some 0) dial entries.now offers.now }
{
    if dial == 0 {
        return Some(Denial::NoDial);
    }
    if entries.common.is_empty() {
        return Some(Denial::NoSharedRouter);
    }
    if entries.online.is_empty() {
        return Some(Denial::SharedRoutersOffline);
    }
    if offers.terminators.is_empty() {
        return Some(Denial::NoTerminators);
    }
    if offers.admissible.is_empty() {
        return Some(Denial::NoAdmissibleTerminator);
    }
    None
}

// The first rule that fails.
fn rule_of(
    identity: Option<u32>,
    service: Option<u32>,
    dial: u32,
    entries: &Entries,
    offers: &Offers,
) -> Option<Denial>
    ensures { result ≡ rule_by identity service dial entries.now offers.now }
{
    if identity.is_none() {
        return Some(Denial::UnknownIdentity);
    }
    if service.is_none() {
        return Some(Denial::UnknownService);
    }
    rule_between(dial, entries, offers)
}

// The advice by numbers: what each policy says, and what was found of the two.
fn advice_by(
    alloc: Global,
    view: &View,
    policies: Marks,
    identity: Option<u32>,
    service: Option<u32>,
) -> Result<Advice, AllocError>
    ensures { IfOk result (λ a. a ≡ advice_on (network view.now) policies identity service) }
{
    let entries = entries_for(alloc, view, identity, service)?;
    let offers = offers_for(alloc, view, service)?;
    let dial = count_between(view.dial, identity, service);
    let bind = count_between(view.bind, identity, service);
    let rule = rule_of(identity, service, dial, &entries, &offers);
    let Entries { common, online } = entries;
    let Offers {
        terminators,
        admissible,
    } = offers;
    Ok(Advice {
        dial,
        bind,
        common,
        online,
        terminators,
        admissible,
        policies,
        rule,
    })
}

// The number of the entity that has the name, if one has it.
fn number_named(entities: &Entities, kind: Kind, name: &Name) -> Option<u32>
    requires { is_entity_kind kind ≡ true }
    ensures { result ≡ number_of kind name.now entities.now }
{
    entities.find(kind, name).ok()
}

/// The advice on the names of an identity and of a service: in every state with these parts it is the state's (docs/RULES.md,
/// "Advice"). An `Err` is want of memory.
pub fn advise(
    alloc: Global,
    view: &View,
    entities: &Entities,
    policies: &Policies,
    identity: &Name,
    service: &Name,
) -> Result<Advice, AllocError>
    ensures advice { IfOk result (λ a. (s : State) → ArePartsOf view.now entities.now policies.now s → a ≡ advice_of s identity.now service.now) }
    ensures routers { IfOk result (λ a. (s : State) → ArePartsOf view.now entities.now policies.now s → HasRouters entities.now.routers.rows a) }
{
    let who = number_named(entities, Kind::Identity, identity);
    let what = number_named(entities, Kind::Service, service);
    let marks = marks(
        alloc,
        policies,
        &entity_at(entities, Kind::Identity, who),
        &entity_at(entities, Kind::Service, what),
    )?;
    advice_by(alloc, view, Marks::of(marks), who, what)
}
