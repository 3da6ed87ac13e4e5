ghost use Rattle.std.specs.Prelude.{◌≡◌, true, false, IfOk, OnErr, MatchOption};
ghost use Rattle.ctrl_model.specs.SpelledCommands.{is_spelled};
ghost use Rattle.ctrl_model.specs.Controller.{carry};
ghost use Rattle.ctrl_model.specs.Grants.{count};
ghost use Rattle.ctrl_model.specs.InterceptCommands.{is_intercept_command, set_intercept, clear_intercept, pick, list_clashes};
ghost use Rattle.ctrl_model.specs.InterceptForm.{is_intercept};
ghost use Rattle.ctrl_model.specs.State.{State, entity_named};
ghost use Rattle.ctrl_model.specs.declared.refusals.Refusal.TheVariants.{Unknown};
ghost use Rattle.model_laws.specs.Plans.{refused};
ghost use Rattle.ctrl_model.specs.declared.kinds.Relation.TheVariants.{Dial};
ghost use Rattle.grant_denorm.specs.MovedCounts.{AreCountsOf};
ghost use Rattle.intercept_commands.specs.InterceptPlans.{KnowsNames, PlansIntercepts, over};
ghost use Rattle.intercept_commands.specs.PlannedIntercepts.{Answers, Knows};

use crate::showing::{dialled_by, names_of, picked_reply};
use ctrl_model::{
    Address, Command, Copies, Field, Intercept, Kind, Name, Names, Refusal, Reply, ServiceNo,
};
use entity_store::Entities;
use grant_denorm::Counted;
use intercepts::{InterceptChange, Intercepts};
use model_laws::Plan;
use std::alloc::{AllocError, Global};

// What a command on intercepts is judged by.
#[derive(Drop)]
struct Stores<'a> {
    entities: &'a Entities,
    intercepts: &'a Intercepts,
    dial: &'a Counted,
}

fn identity_named(entities: &Entities, name: &Name) -> Option<u32>
    ensures { result ≡ entity_named entities.now.identities.rows name.now }
{
    entities.find(Kind::Identity, name).ok()
}

fn service_named(entities: &Entities, name: &Name) -> Option<u32>
    ensures { result ≡ entity_named entities.now.services.rows name.now }
{
    entities.find(Kind::Service, name).ok()
}

// The plan that refuses a name which nothing has.
fn unknown(field: Field) -> Plan<InterceptChange>
    ensures { result ≡ refused (Unknown field) }
{
    Plan::refused(Refusal::Unknown { field })
}

// Plans the intercept of a service.
fn plan_set_intercept(
    stores: &Stores,
    service: &Name,
    intercept: &Intercept,
) -> Result<Plan<InterceptChange>, AllocError>
    requires { is_intercept intercept.now ≡ true }
    ensures plan { IfOk result (Answers (set_intercept service.now intercept.now) stores.now) }
    ensures memory { OnErr result (Knows (set_intercept service.now intercept.now) stores.now) }
{
    let Some(number) = service_named(stores.entities, service) else {
        return Ok(unknown(Field::Service));
    };
    let intercept = intercept.copy()?;
    let change = InterceptChange::Set {
        service: ServiceNo(number),
        intercept,
    };
    Ok(Plan::changed(Reply::Done, change))
}

// Plans that the intercept of a service goes.
fn plan_clear_intercept(stores: &Stores, service: &Name) -> Plan<InterceptChange>
    ensures { Answers (clear_intercept service.now) stores.now result }
{
    let Some(number) = service_named(stores.entities, service) else {
        return unknown(Field::Service);
    };
    let change = InterceptChange::Remove {
        service: ServiceNo(number),
    };
    Plan::changed(Reply::Done, change)
}

// Plans what is told of the service to which a destination belongs.
fn plan_pick(
    alloc: Global,
    stores: &Stores,
    identity: &Name,
    udp: bool,
    address: &Address,
    port: u32,
) -> Result<Plan<InterceptChange>, AllocError>
    ensures plan { IfOk result (Answers (pick identity.now udp address.now port) stores.now) }
    ensures memory { OnErr result (Knows (pick identity.now udp address.now port) stores.now) }
{
    let Some(number) = identity_named(stores.entities, identity) else {
        return Ok(unknown(Field::Identity));
    };
    let dialled = dialled_by(alloc, stores.entities, stores.dial, number)?;
    match stores
        .intercepts
        .pick(dialled.as_slice(), udp, address, port)
    {
        Some(hit) => Ok(Plan::shown(picked_reply(alloc, stores.entities, &hit)?)),
        None => Ok(Plan::refused(Refusal::NoIntercept)),
    }
}

// Plans what is told of the services that clash with one.
fn plan_list_clashes(
    alloc: Global,
    stores: &Stores,
    identity: &Name,
    service: &Name,
) -> Result<Plan<InterceptChange>, AllocError>
    ensures plan { IfOk result (Answers (list_clashes identity.now service.now) stores.now) }
    ensures memory { OnErr result (Knows (list_clashes identity.now service.now) stores.now) }
{
    let Some(identity) = identity_named(stores.entities, identity) else {
        return Ok(unknown(Field::Identity));
    };
    let Some(service) = service_named(stores.entities, service) else {
        return Ok(unknown(Field::Service));
    };
    let dialled = dialled_by(alloc, stores.entities, stores.dial, identity)?;
    let clashes = stores
        .intercepts
        .clashes(alloc, dialled.as_slice(), service)?;
    let names = names_of(alloc, stores.entities, clashes.as_slice())?;
    Ok(Plan::shown(Reply::Clashes {
        names: Names::of(names),
    }))
}

/// Plans the answer to a command on intercepts that some body spells: in every state with these entities, these intercepts and these
/// counts of Dial it is the controller's (docs/RULES.md, "Intercepts"). None is a command on something else. That a name is unknown is
/// told without memory.
pub fn plan_intercept_command(
    alloc: Global,
    entities: &Entities,
    intercepts: &Intercepts,
    dial: &Counted,
    command: &Command,
) -> Result<Option<Plan<InterceptChange>>, AllocError>
    requires { is_spelled command.now ≡ true }
    ensures plan { IfOk result (λ o. MatchOption o (is_intercept_command command.now ≡ false)
        (λ p. (s : State) → AreCountsOf (count Dial (over entities.now intercepts.now s)) dial.now
        → PlansIntercepts p (carry command.now (over entities.now intercepts.now s)) (over entities.now intercepts.now s))) }
    ensures memory { OnErr result ((is_intercept_command command.now ≡ true) × KnowsNames (carry command.now) entities.now intercepts.now) }
{
    let stores = Stores {
        entities,
        intercepts,
        dial,
    };
    match command {
        Command::SetIntercept { service, intercept } => {
            Ok(Some(plan_set_intercept(&stores, service, intercept)?))
        }
        Command::ClearIntercept { service } => Ok(Some(plan_clear_intercept(&stores, service))),
        Command::Pick {
            identity,
            udp,
            address,
            port,
        } => Ok(Some(plan_pick(alloc, &stores, identity, *udp, address, *port)?)),
        Command::ListClashes { identity, service } => {
            Ok(Some(plan_list_clashes(alloc, &stores, identity, service)?))
        }
        _ => Ok(None),
    }
}
