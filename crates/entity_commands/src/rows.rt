ghost use Rattle.std.specs.Prelude.{◌≡◌, ◌∷◌, [], true, IfOk, IfSome, OnOk};
ghost use Rattle.std.specs.Option.{option_map};
ghost use Rattle.ctrl_model.specs.declared.formats.Format.{Format};
ghost use Rattle.ctrl_model.specs.declared.formats.Format.TheVariants.{Two};
ghost use Rattle.ctrl_model.specs.Numbered.{at};
ghost use Rattle.ctrl_model.specs.State.{State};
ghost use Rattle.entity_store.specs.EntityChanges.{after_entity_change};
ghost use Rattle.entity_store.specs.EntityTables as entity_tables;
ghost use Rattle.entity_store.specs.EntityTables.{is_entity_kind};
ghost use Rattle.record_tables.specs.AfterChange.{changed_by};
ghost use Rattle.row_codec.specs.CoveredTables.{Covers};
ghost use Rattle.row_codec.specs.RowForm.{is_row};
ghost use Rattle.row_codec.specs.RowForm as row_form;
ghost use Rattle.row_codec.specs.RowKeys.{is_long};
ghost use Rattle.row_codec.specs.RowValues.{entity_value, router_value};
ghost use Rattle.row_laws.specs.FittingRecords.{fits};
ghost use Rattle.row_writing.specs.RecordChanges.{change_of};
ghost use Rattle.entity_commands.specs.EntityChanges.{CanChangeEntities};
ghost use Rattle.entity_commands.specs.EntityRows.{AreFit, Has, plain_after, router_after, row_change, touched_kind, touched_number};

use ctrl_model::{Bytes, Copies, Format, IdentityNo, Kind, RouterNo};
use entity_store::{Entities, EntityChange, EntityView, RouterView};
use row_codec::{Change, Changes, Row};
use row_writing::{change_of, value_of};
use std::alloc::{AllocError, Global};

// The value of a row.
fn value_in(alloc: Global, row: Row) -> Result<Bytes, AllocError>
    requires { is_row Two row ≡ true }
    ensures { IfOk result (λ value. value ≡ row_form.value_of Two row) }
{
    let value = value_of(alloc, Format::Two, &row);
    drop(row);
    value
}

// The value of the row of an identity or a service under a number: those of both kinds are spelled alike.
fn plain_value(alloc: Global, number: u32, entity: EntityView) -> Result<Bytes, AllocError>
    requires { fits Kind.Identity entity ≡ true }
    ensures { IfOk result (λ value. value ≡ entity_value entity.entry) }
{
    let name = entity.name.copy()?;
    let attributes = entity.attributes.copy()?;
    let row = Row::Identity {
        no: IdentityNo(number),
        name,
        attributes,
    };
    value_in(alloc, row)
}

// The value of the row of an identity or a service, if there is one.
fn plain_if_some(
    alloc: Global,
    number: u32,
    entity: Option<EntityView>,
) -> Result<Option<Bytes>, AllocError>
    requires { IfSome entity (λ e. fits Kind.Identity e ≡ true) }
    ensures { IfOk result (λ value. value ≡ option_map entity_value entity.entry) }
{
    let Some(entity) = entity else {
        return Ok(None);
    };
    Ok(Some(plain_value(alloc, number, entity)?))
}

// The identity or the service that a change touches, if it will be there.
fn plain_after<'a>(
    entities: &'a Entities,
    kind: Kind,
    number: u32,
    change: &'a EntityChange,
) -> Option<EntityView<'a>>
    requires { is_entity_kind kind ≡ true }
    ensures { result ≡ plain_after change.now (at (entity_tables.entities kind entities.now) number) }
{
    match change {
        EntityChange::Add {
            name,
            attributes,
            ..
        } => Some(EntityView { name, attributes }),
        EntityChange::Describe { attributes, .. } => {
            let entity = entities.entity(kind, number)?;
            Some(EntityView {
                name: entity.name,
                attributes,
            })
        }
        _ => None,
    }
}

// The value of the row of a router under a number.
fn row_value(alloc: Global, no: RouterNo, router: RouterView) -> Result<Bytes, AllocError>
    requires { fits Kind.Router router ≡ true }
    ensures { IfOk result (λ value. value ≡ router_value router.entry) }
{
    let name = router.name.copy()?;
    let attributes = router.attributes.copy()?;
    let row = Row::Router {
        no,
        name,
        attributes,
        cost: router.cost,
        through: router.through,
        connected: router.connected,
    };
    value_in(alloc, row)
}

// The value of the row of a router under a number, if there is one.
fn router_if_some(
    alloc: Global,
    no: RouterNo,
    router: Option<RouterView>,
) -> Result<Option<Bytes>, AllocError>
    requires { IfSome router (λ r. fits Kind.Router r ≡ true) }
    ensures { IfOk result (λ value. value ≡ option_map router_value router.entry) }
{
    match router {
        Some(router) => Ok(Some(row_value(alloc, no, router)?)),
        None => Ok(None),
    }
}

// A router with another cost and other marks.
fn marked<'a>(router: RouterView<'a>, cost: u32, through: bool, connected: bool) -> RouterView<'a>
    ensures { result ≡ record router.entry { cost = cost; through = through; connected = connected } }
{
    RouterView {
        cost,
        through,
        connected,
        ..router
    }
}

// The router that a change touches, if it will be there.
fn router_after<'a>(
    entities: &'a Entities,
    no: RouterNo,
    change: &'a EntityChange,
) -> Option<RouterView<'a>>
    ensures { result ≡ router_after change.now (at entities.now.routers.rows no.0) }
{
    match change {
        EntityChange::AddRouter {
            name,
            attributes,
            cost,
            through,
        } => Some(RouterView {
            name,
            attributes,
            cost: *cost,
            through: *through,
            connected: false,
        }),
        EntityChange::DescribeRouter {
            attributes,
            cost,
            through,
            connected,
            ..
        } => {
            let router = marked(entities.router(no)?, *cost, *through, *connected);
            Some(RouterView {
                attributes,
                ..router
            })
        }
        EntityChange::Mark {
            cost,
            through,
            connected,
            ..
        } => Some(marked(entities.router(no)?, *cost, *through, *connected)),
        _ => None,
    }
}

// The change of the row of an identity or a service.
fn plain_change(
    alloc: Global,
    entities: &Entities,
    kind: Kind,
    number: u32,
    change: &EntityChange,
) -> Result<Change, AllocError>
    requires entity { is_entity_kind kind ≡ true }
    requires before { IfSome (at (entity_tables.entities kind entities.now) number) (λ e. fits Kind.Identity e ≡ true) }
    requires after { IfSome (plain_after change.now (at (entity_tables.entities kind entities.now) number)) (λ e. fits Kind.Identity e ≡ true) }
    ensures { IfOk result (λ made. made ≡ change_of kind number (option_map entity_value (at (entity_tables.entities kind entities.now) number))
        (option_map entity_value (plain_after change.now (at (entity_tables.entities kind entities.now) number)))) }
{
    let before = plain_if_some(alloc, number, entities.entity(kind, number))?;
    let after = plain_if_some(alloc, number, plain_after(entities, kind, number, change))?;
    change_of(alloc, kind, number, before, after)
}

// The change of the row of a router.
fn router_change(
    alloc: Global,
    entities: &Entities,
    no: RouterNo,
    change: &EntityChange,
) -> Result<Change, AllocError>
    requires before { IfSome (at entities.now.routers.rows no.0) (λ r. fits Kind.Router r ≡ true) }
    requires after { IfSome (router_after change.now (at entities.now.routers.rows no.0)) (λ r. fits Kind.Router r ≡ true) }
    ensures { IfOk result (λ made. made ≡ change_of Kind.Router no.0 (option_map router_value (at entities.now.routers.rows no.0))
        (option_map router_value (router_after change.now (at entities.now.routers.rows no.0)))) }
{
    let before = router_if_some(alloc, no, entities.router(no))?;
    let after = router_if_some(alloc, no, router_after(entities, no, change))?;
    change_of(alloc, Kind::Router, no.0, before, after)
}

// The kind and the number of the entity that a change touches.
fn touched(entities: &Entities, change: &EntityChange) -> (Kind, u32)
    requires { CanChangeEntities change.now entities.now }
    ensures kind { result.0 ≡ touched_kind change.now }
    ensures number { result.1 ≡ touched_number change.now entities.now }
    ensures entity { is_entity_kind result.0 ≡ true }
    ensures long { is_long result.1 ≡ true }
{
    match change {
        EntityChange::Add { kind, .. } => (*kind, entities.next(*kind)),
        EntityChange::AddRouter { .. } => (Kind::Router, entities.next(Kind::Router)),
        EntityChange::Describe { kind, number, .. } => (*kind, *number),
        EntityChange::DescribeRouter { number, .. } => (Kind::Router, *number),
        EntityChange::Mark { number, .. } => (Kind::Router, *number),
        EntityChange::Remove { kind, number, .. } => (*kind, *number),
    }
}

// The change of the row that a change of the entities touches.
fn row_change(
    alloc: Global,
    entities: &Entities,
    change: &EntityChange,
) -> Result<Change, AllocError>
    requires can { CanChangeEntities change.now entities.now }
    requires before { AreFit entities.now }
    requires after { AreFit (after_entity_change change.now entities.now) }
    ensures entity { OnOk result (is_entity_kind (touched_kind change.now) ≡ true) }
    ensures long { OnOk result (is_long (touched_number change.now entities.now) ≡ true) }
    ensures made { IfOk result (λ made. made ≡ row_change (touched_kind change.now) (touched_number change.now entities.now) entities.now (after_entity_change change.now entities.now)) }
{
    let (kind, number) = touched(entities, change);
    // With it comes that the numbers ascend below it, so that no entity has it yet.
    let _next = entities.next(kind);
    match kind {
        Kind::Identity => plain_change(alloc, entities, Kind::Identity, number, change),
        Kind::Service => plain_change(alloc, entities, Kind::Service, number, change),
        Kind::Router => router_change(alloc, entities, RouterNo(number), change),
        _ => unreachable!(),
    }
}

// One change alone.
fn one_change(alloc: Global, change: Change) -> Result<Changes, AllocError>
    ensures { IfOk result (λ changes. changes ≡ change ∷ []) }
{
    let mut changes = Vec::new(alloc);
    changes.push(change)?;
    Ok(Changes::of(changes))
}

/// The change of the row of the entity that a change touches, if there is a change. Each entity fits its row, now and then, as those
/// of a valid state do. An Err is want of memory.
pub fn entity_changes(
    alloc: Global,
    entities: &Entities,
    change: Option<&EntityChange>,
) -> Result<Changes, AllocError>
    requires can { IfSome change (λ c. CanChangeEntities c.now entities.now) }
    requires before { AreFit entities.now }
    requires after { AreFit (changed_by after_entity_change (option_map (λ c. c.now) change) entities.now) }
    ensures { IfOk result (λ changes. (f : Format) (s t : State) → Has entities.now s
        → Has (changed_by after_entity_change (option_map (λ c. c.now) change.entry) entities.now) t → Covers f 3 6 s t changes) }
{
    match change {
        None => Ok(Changes::of(Vec::new(alloc))),
        Some(change) => {
            let made = row_change(alloc, entities, change)?;
            one_change(alloc, made)
        }
    }
}
