ghost use Rattle.std.specs.Prelude.{◌≡◌, true, false, IfOk, OnErr, MatchOption};
ghost use Rattle.ctrl_model.specs.Controller.{carry};
ghost use Rattle.ctrl_model.specs.RecordCommands.{delete};
ghost use Rattle.ctrl_model.specs.declared.refusals.Refusal.TheVariants.{Unknown};
ghost use Rattle.ctrl_model.specs.State.{State};
ghost use Rattle.ctrl_model.specs.ValidState.{ValidState};
ghost use Rattle.ctrl_model.specs.EntityCommands.{create_router, update_router, mark_router};
ghost use Rattle.model_laws.specs.Plans.{refused};
ghost use Rattle.entity_store.specs.EntityTables.{is_entity_kind};
ghost use Rattle.entity_store.specs.HeldUses.{with_entities, HoldsPolicies};
ghost use Rattle.entity_store.specs.TableRules.{is_there};
ghost use Rattle.entity_commands.specs.EntityChanges.{is_plain_kind};
ghost use Rattle.entity_commands.specs.EntityPlans.{is_entity_command, PlansEntities, TellsChange};
ghost use Rattle.entity_commands.specs.PlannedEntities.{Answers, answer_add, answer_update, refusal_of_add, refusal_of_describe};

use ctrl_model::{Command, Copies, Field, Kind, Name, Names, Refusal, Reply, RouterNo};
use entity_store::{Entities, EntityChange, EntityFault};
use model_laws::Plan;
use std::alloc::{AllocError, Global};

// A new entity is refused where its name is taken, its kind is full, or too many attributes would be in use.
fn refusal_of_add(
    alloc: Global,
    entities: &Entities,
    kind: Kind,
    name: &Name,
    attributes: &Names,
) -> Option<Refusal>
    requires { is_entity_kind kind ≡ true }
    ensures { result ≡ refusal_of_add kind name.now attributes.now entities.now }
{
    match entities.may_add(kind, name) {
        Err(EntityFault::Full(full)) => Some(Refusal::Full { kind: full }),
        Err(_) => Some(Refusal::Exists),
        Ok(()) => {
            let none = Names::of(Vec::new(alloc));
            if entities.has_room(&none, attributes) {
                None
            } else {
                Some(Refusal::Full {
                    kind: Kind::Attribute,
                })
            }
        }
    }
}

// Other attributes of a present entity are refused where too many would be in use.
fn refusal_of_describe(
    entities: &Entities,
    kind: Kind,
    number: u32,
    attributes: &Names,
) -> Option<Refusal>
    requires kind { is_entity_kind kind ≡ true }
    requires there { is_there kind number entities.now ≡ true }
    ensures { result ≡ refusal_of_describe kind number attributes.now entities.now }
{
    let Some((_, gone)) = entities.seen(kind, number) else {
        unreachable!()
    };
    if entities.has_room(gone, attributes) {
        None
    } else {
        Some(Refusal::Full {
            kind: Kind::Attribute,
        })
    }
}

// The plan of a command whose name nothing has.
fn unknown_name() -> Plan<EntityChange>
    ensures { result ≡ refused (Unknown Field.Name) }
{
    Plan::refused(Refusal::Unknown { field: Field::Name })
}

// Plans to add an identity or a service.
fn plan_add(
    alloc: Global,
    entities: &Entities,
    kind: Kind,
    name: &Name,
    attributes: &Names,
) -> Result<Plan<EntityChange>, AllocError>
    requires { is_plain_kind kind ≡ true }
    ensures plan { IfOk result (Answers (answer_add kind name.now attributes.now) entities.now) }
    ensures memory { OnErr result (TellsChange (answer_add kind name.now attributes.now) entities.now) }
{
    if let Some(refusal) = refusal_of_add(alloc, entities, kind, name, attributes) {
        return Ok(Plan::refused(refusal));
    }
    let number = entities.next(kind);
    let name = name.copy()?;
    let attributes = attributes.copy()?;
    let change = EntityChange::Add {
        kind,
        name,
        attributes,
    };
    Ok(Plan::changed(Reply::Made { no: number }, change))
}

// Plans to add a router.
fn plan_add_router(
    alloc: Global,
    entities: &Entities,
    name: &Name,
    attributes: &Names,
    cost: u32,
    no_traversal: bool,
) -> Result<Plan<EntityChange>, AllocError>
    ensures plan { IfOk result (Answers (create_router name.now attributes.now cost no_traversal) entities.now) }
    ensures memory { OnErr result (TellsChange (create_router name.now attributes.now cost no_traversal) entities.now) }
{
    if let Some(refusal) = refusal_of_add(alloc, entities, Kind::Router, name, attributes) {
        return Ok(Plan::refused(refusal));
    }
    let number = entities.next(Kind::Router);
    let name = name.copy()?;
    let attributes = attributes.copy()?;
    let change = EntityChange::AddRouter {
        name,
        attributes,
        cost,
        through: !no_traversal,
    };
    Ok(Plan::changed(Reply::Made { no: number }, change))
}

// Plans other attributes of an identity or a service.
fn plan_update(
    entities: &Entities,
    kind: Kind,
    name: &Name,
    attributes: &Names,
) -> Result<Plan<EntityChange>, AllocError>
    requires { is_plain_kind kind ≡ true }
    ensures plan { IfOk result (Answers (answer_update kind name.now attributes.now) entities.now) }
    ensures memory { OnErr result (TellsChange (answer_update kind name.now attributes.now) entities.now) }
{
    let Ok(number) = entities.find(kind, name) else {
        return Ok(unknown_name());
    };
    if let Some(refusal) = refusal_of_describe(entities, kind, number, attributes) {
        return Ok(Plan::refused(refusal));
    }
    let attributes = attributes.copy()?;
    let change = EntityChange::Describe {
        kind,
        number,
        attributes,
    };
    Ok(Plan::changed(Reply::Done, change))
}

// Plans other attributes, another cost and another mark of a router.
fn plan_update_router(
    entities: &Entities,
    name: &Name,
    attributes: &Names,
    cost: u32,
    no_traversal: bool,
) -> Result<Plan<EntityChange>, AllocError>
    ensures plan { IfOk result (Answers (update_router name.now attributes.now cost no_traversal) entities.now) }
    ensures memory { OnErr result (TellsChange (update_router name.now attributes.now cost no_traversal) entities.now) }
{
    let Ok(number) = entities.find(Kind::Router, name) else {
        return Ok(unknown_name());
    };
    if let Some(refusal) = refusal_of_describe(entities, Kind::Router, number, attributes) {
        return Ok(Plan::refused(refusal));
    }
    let Some(router) = entities.router(RouterNo(number)) else {
        unreachable!()
    };
    let attributes = attributes.copy()?;
    let change = EntityChange::DescribeRouter {
        number,
        attributes,
        cost,
        through: !no_traversal,
        connected: router.connected,
    };
    Ok(Plan::changed(Reply::Done, change))
}

// Plans that an entity goes.
fn plan_delete(
    entities: &Entities,
    kind: Kind,
    name: &Name,
) -> Result<Plan<EntityChange>, AllocError>
    requires { is_entity_kind kind ≡ true }
    ensures plan { IfOk result (Answers (delete kind Field.Name name.now) entities.now) }
    ensures memory { OnErr result (TellsChange (delete kind Field.Name name.now) entities.now) }
{
    let Ok(number) = entities.find(kind, name) else {
        return Ok(unknown_name());
    };
    let name = name.copy()?;
    let change = EntityChange::Remove { kind, number, name };
    Ok(Plan::changed(Reply::Done, change))
}

// Plans that a router is connected, or not.
fn plan_mark(entities: &Entities, name: &Name, connected: bool) -> Plan<EntityChange>
    ensures { Answers (mark_router name.now connected) entities.now result }
{
    let Ok(number) = entities.find(Kind::Router, name) else {
        return unknown_name();
    };
    let Some(router) = entities.router(RouterNo(number)) else {
        unreachable!()
    };
    let change = EntityChange::Mark {
        number,
        cost: router.cost,
        through: router.through,
        connected,
    };
    Plan::changed(Reply::Done, change)
}

/// Plans the answer to a command on identities, services or edge routers: in every valid state with these entities, of whose
/// policies the store holds the uses of attributes, it is the controller's (docs/RULES.md, "Commands on entities"). None is a
/// command on something else. Memory can be wanting only where the answer tells a change: every refusal is told without.
pub fn plan_entity_command(
    alloc: Global,
    entities: &Entities,
    command: &Command,
) -> Result<Option<Plan<EntityChange>>, AllocError>
    ensures plan { IfOk result (λ o. MatchOption o (is_entity_command command.now ≡ false)
        (λ p. (s : State) → ValidState (with_entities entities.now s) → HoldsPolicies entities.now s
        → PlansEntities p (carry command.now (with_entities entities.now s)) (with_entities entities.now s))) }
    ensures memory { OnErr result ((is_entity_command command.now ≡ true) × TellsChange (carry command.now) entities.now) }
{
    let plan = match command {
        Command::CreateIdentity { name, attributes } => {
            plan_add(alloc, entities, Kind::Identity, name, attributes)?
        }
        Command::UpdateIdentity { name, attributes } => {
            plan_update(entities, Kind::Identity, name, attributes)?
        }
        Command::DeleteIdentity { name } => plan_delete(entities, Kind::Identity, name)?,
        Command::CreateService { name, attributes } => {
            plan_add(alloc, entities, Kind::Service, name, attributes)?
        }
        Command::UpdateService { name, attributes } => {
            plan_update(entities, Kind::Service, name, attributes)?
        }
        Command::DeleteService { name } => plan_delete(entities, Kind::Service, name)?,
        Command::CreateRouter {
            name,
            attributes,
            cost,
            no_traversal,
        } => plan_add_router(alloc, entities, name, attributes, *cost, *no_traversal)?,
        Command::UpdateRouter {
            name,
            attributes,
            cost,
            no_traversal,
        } => plan_update_router(entities, name, attributes, *cost, *no_traversal)?,
        Command::DeleteRouter { name } => plan_delete(entities, Kind::Router, name)?,
        Command::ConnectRouter { name } => plan_mark(entities, name, true),
        Command::DisconnectRouter { name } => plan_mark(entities, name, false),
        _ => return Ok(None),
    };
    Ok(Some(plan))
}
