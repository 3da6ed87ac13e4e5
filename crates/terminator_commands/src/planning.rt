ghost use Rattle.std.specs.Prelude.{◌≡◌, true, false, IfOk, OnErr, Ok, Some, MatchOption, MatchResult};
ghost use Rattle.ctrl_model.specs.declared.kinds.Relation.TheVariants.{Bind};
ghost use Rattle.ctrl_model.specs.ValueForms.{is_cost};
ghost use Rattle.ctrl_model.specs.SpelledCommands.{is_spelled};
ghost use Rattle.ctrl_model.specs.Controller.{carry};
ghost use Rattle.ctrl_model.specs.Grants.{count};
ghost use Rattle.ctrl_model.specs.Numbered.{is_present};
ghost use Rattle.ctrl_model.specs.State.{State};
ghost use Rattle.ctrl_model.specs.TerminatorCommands.{create_terminator, update_terminator, delete_terminator};
ghost use Rattle.grant_denorm.specs.MovedCounts.{AreCountsOf};
ghost use Rattle.terminators.specs.TermRules.{may_add};
ghost use Rattle.terminator_commands.specs.TermChanges.{over};
ghost use Rattle.terminator_commands.specs.TermPlans.{is_terminator_command, PlansTerms, TellsChange};
ghost use Rattle.terminator_commands.specs.PlannedTerms.{unknown_place, plan_of_add, ArePlaced, PlansOver, PlansIn};

use ctrl_model::{
    Command, Field, IdentityNo, Instance, Kind, Name, Precedence, Refusal, Reply, RouterNo,
    ServiceNo, TermNo,
};
use entity_store::Entities;
use grant_denorm::Counted;
use model_laws::Plan;
use std::alloc::AllocError;
use terminators::{TermChange, TermFault, TermView, Terminators};

// What a command on terminators is judged by.
#[derive(Drop)]
struct Stores<'a> {
    entities: &'a Entities,
    terminators: &'a Terminators,
    bind: &'a Counted,
}

// Where a terminator stands, and who hosts it if one does.
#[derive(Drop)]
struct Places {
    service: ServiceNo,
    router: RouterNo,
    host: Option<IdentityNo>,
}

// Whether a terminator has the number.
fn is_there(terminators: &Terminators, no: TermNo) -> bool
    ensures { result ≡ is_present terminators.now.terminators.rows no.0 }
{
    terminators.get(no).is_ok()
}

// The numbers of a service, a router and a host. An error is the first field of which nothing has the name.
fn places_of(
    entities: &Entities,
    service: &Name,
    router: &Name,
    host: &Option<Name>,
) -> Result<Places, Field>
    ensures { MatchResult result (ArePlaced entities.now service.now router.now host.now)
        (λ field. unknown_place entities.now service.now router.now host.now ≡ Some field) }
{
    let Ok(service) = entities.find(Kind::Service, service) else {
        return Err(Field::Service);
    };
    let Ok(router) = entities.find(Kind::Router, router) else {
        return Err(Field::Router);
    };
    let host = match host {
        None => None,
        Some(name) => match entities.find(Kind::Identity, name) {
            Ok(number) => Some(IdentityNo(number)),
            Err(_) => return Err(Field::Host),
        },
    };
    Ok(Places {
        service: ServiceNo(service),
        router: RouterNo(router),
        host,
    })
}

// Plans one more terminator, which is copied once it may be added.
fn plan_add(
    terminators: &Terminators,
    bind: &Counted,
    term: &TermView,
) -> Result<Plan<TermChange>, AllocError>
    ensures plan { IfOk result (λ p. p ≡ plan_of_add term.now terminators.now bind.now) }
    ensures memory { OnErr result (may_add term.now terminators.now bind.now ≡ Ok tt) }
{
    match terminators.may_add(term, bind) {
        Err(TermFault::Full) => Ok(Plan::refused(Refusal::Full {
            kind: Kind::Terminator,
        })),
        Err(_) => Ok(Plan::refused(Refusal::NotBindable)),
        Ok(()) => {
            let term = term.copied()?;
            let reply = Reply::Made {
                no: terminators.next(),
            };
            Ok(Plan::changed(reply, TermChange::Add(term)))
        }
    }
}

// Plans the answer to CreateTerminator.
fn plan_create_terminator(
    stores: &Stores,
    service: &Name,
    router: &Name,
    instance: &Instance,
    host: &Option<Name>,
    cost: u32,
    precedence: Precedence,
) -> Result<Plan<TermChange>, AllocError>
    requires { is_cost cost ≡ true }
    ensures plan { IfOk result (λ p. PlansIn p (create_terminator service.now router.now instance.now host.now cost precedence)
        stores.now.entities.now stores.now.terminators.now stores.now.bind.now) }
    ensures memory { OnErr result (TellsChange (create_terminator service.now router.now instance.now host.now cost precedence)
        stores.now.entities.now stores.now.terminators.now stores.now.bind.now) }
{
    let places = match places_of(stores.entities, service, router, host) {
        Ok(places) => places,
        Err(field) => return Ok(Plan::refused(Refusal::Unknown { field })),
    };
    let term = TermView {
        service: places.service,
        router: places.router,
        instance,
        host: places.host,
        cost,
        precedence,
    };
    plan_add(stores.terminators, stores.bind, &term)
}

// Plans the answer to UpdateTerminator.
fn plan_update_terminator(
    terminators: &Terminators,
    no: TermNo,
    cost: u32,
    precedence: Precedence,
) -> Plan<TermChange>
    requires { is_cost cost ≡ true }
    ensures { PlansOver result (update_terminator no.0 cost precedence) terminators.now }
{
    if !is_there(terminators, no) {
        return Plan::refused(Refusal::Unknown { field: Field::No });
    }
    let change = TermChange::Set {
        no,
        cost,
        precedence,
    };
    Plan::changed(Reply::Done, change)
}

// Plans the answer to DeleteTerminator.
fn plan_delete_terminator(terminators: &Terminators, no: TermNo) -> Plan<TermChange>
    ensures { PlansOver result (delete_terminator no.0) terminators.now }
{
    if !is_there(terminators, no) {
        return Plan::refused(Refusal::Unknown { field: Field::No });
    }
    Plan::changed(Reply::Done, TermChange::Remove(no))
}

/// Plans the answer to a command on terminators that some body spells: in every state with these entities, these
/// terminators and these counts of Bind it is the controller's (docs/RULES.md, "Commands on terminators"). None is a command on
/// something else. Memory can be wanting only where a terminator is made: every refusal is told without.
pub fn plan_terminator_command(
    entities: &Entities,
    terminators: &Terminators,
    bind: &Counted,
    command: &Command,
) -> Result<Option<Plan<TermChange>>, AllocError>
    requires { is_spelled command.now ≡ true }
    ensures plan { IfOk result (λ o. MatchOption o (is_terminator_command command.now ≡ false)
        (λ p. (s : State) → AreCountsOf (count Bind (over entities.now terminators.now s)) bind.now
        → PlansTerms p (carry command.now (over entities.now terminators.now s)) (over entities.now terminators.now s))) }
    ensures memory { OnErr result ((is_terminator_command command.now ≡ true)
        × TellsChange (carry command.now) entities.now terminators.now bind.now) }
{
    let stores = Stores {
        entities,
        terminators,
        bind,
    };
    match command {
        Command::CreateTerminator {
            service,
            router,
            instance,
            host,
            cost,
            precedence,
        } => Ok(Some(plan_create_terminator(
            &stores,
            service,
            router,
            instance,
            host,
            *cost,
            *precedence,
        )?)),
        Command::UpdateTerminator {
            no,
            cost,
            precedence,
        } => Ok(Some(plan_update_terminator(terminators, TermNo(*no), *cost, *precedence))),
        Command::DeleteTerminator { no } => {
            Ok(Some(plan_delete_terminator(terminators, TermNo(*no))))
        }
        _ => Ok(None),
    }
}
