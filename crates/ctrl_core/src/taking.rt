ghost use Rattle.std.specs.Prelude.{◌≡◌, ◌==◌, not, true, None, IfOk, is_some, option_map};
ghost use Rattle.std.specs.List.{last_or};
ghost use Rattle.ctrl_model.specs.ValueForms.{is_link_cost};
ghost use Rattle.ctrl_model.specs.Grants.{count};
ghost use Rattle.ctrl_model.specs.InterceptForm.{is_intercept};
ghost use Rattle.ctrl_model.specs.Numbered.{numbers};
ghost use Rattle.ctrl_model.specs.declared.kinds.Kind.TheVariants as kind;
ghost use Rattle.record_flaws.specs.SoundRows.{is_sound_row};
ghost use Rattle.state_building.specs.declared.flaws.Flaw.TheVariants.{NoRecord, WrongCount};
ghost use Rattle.state_building.specs.JoinedRecords.{claimed, flaw_if, flaw_of, flaw_of_intercept, flaw_of_serial, is_sound, joined, skipped};
ghost use Rattle.state_building.specs.BuiltStates.{flaw_in, next_in, with_row};
ghost use Rattle.core_stores.specs.StoredState.{state_of};
ghost use Rattle.ctrl_core.specs.Changes.{after_change};
ghost use Rattle.ctrl_core.specs.KeptState.{Keeps};
ghost use Rattle.core_stores.specs.NewRecords.{new_in};
ghost use Rattle.ctrl_core.specs.NewRecords.{IsNew, is_sound_new, new_flaw_of};
ghost use Rattle.ctrl_core.specs.LoadedRows.{IsSomeRow};
ghost use Rattle.ctrl_core.specs.TakenRows.{Takes, count_flaw_of};

use crate::new_records::new_flaw;
use crate::row_joining::{join_router, make_at};
use core_stores::{Change, Stores, new_in};
use ctrl_model::{Copies, Intercept, Kind, MOST_COST, Name, Names, Relation, ServiceNo};
use intercepts::Intercepts;
use record_flaws::{Coming, claim_flaw, is_sound_row, router_flaw, serial_flaw};
use row_codec::Row;
use row_loading::{count_flaw, next_in};
use state_building::Flaw;
use std::alloc::{AllocError, Global};

// The record of a row, as it comes next among some rows.
fn coming(rows: &[Row], row: &Row, kind: Kind, number: u32) -> Coming
    requires form { IsSomeRow row.now }
    ensures { result ≡ record { number = number; end = next_in rows.now kind; sound = is_sound_row row.now } }
{
    Coming {
        number,
        end: next_in(rows, kind),
        sound: is_sound_row(row),
    }
}

// Takes a new record of a kind, which a change adds.
fn take_new(
    alloc: Global,
    stores: &mut Stores,
    kind: Kind,
    coming: Coming,
    change: Change,
) -> Result<Option<Flaw>, AllocError>
    requires kept { Keeps stores.old }
    requires new { IsNew kind change }
    requires sound { coming.sound ≡ is_sound_new change }
    ensures { IfOk result (λ told. Takes told (new_flaw_of coming.end coming.number change (state_of stores.old))
        stores.new (after_change change (skipped kind coming.number (state_of stores.old)))) }
{
    match new_flaw(alloc, stores, kind, coming, &change) {
        Ok(None) => {
            make_at(alloc, stores, kind, coming.number, change)?;
            Ok(None)
        }
        found => {
            drop(change);
            found
        }
    }
}

// Takes the record of a row that one change adds.
fn take_record(
    alloc: Global,
    stores: &mut Stores,
    rows: &[Row],
    row: &Row,
) -> Result<Option<Flaw>, AllocError>
    requires kept { Keeps stores.old }
    requires form { IsSomeRow row.now }
    requires new { is_some (new_in row.now) ≡ true }
    ensures { IfOk result (λ told. Takes told (flaw_in (next_in rows.now) row.now (state_of stores.old)) stores.new (with_row row.now (state_of stores.old))) }
{
    let Some(new) = new_in(row)? else {
        unreachable!()
    };
    let coming = coming(rows, row, new.kind, new.number);
    take_new(alloc, stores, new.kind, coming, new.change)
}

// Takes a router.
fn take_router(
    alloc: Global,
    stores: &mut Stores,
    coming: Coming,
    name: &Name,
    attributes: &Names,
    cost: u32,
    through: bool,
    connected: bool,
) -> Result<Option<Flaw>, AllocError>
    requires kept { Keeps stores.old }
    requires sound { coming.sound ≡ is_sound kind.Router (record { name = name.now; attributes = attributes.now; cost = cost; through = through; connected = connected }) }
    ensures { IfOk result (λ told. Takes told
        (flaw_of (λ k. coming.end) kind.Router coming.number (record { name = name.now; attributes = attributes.now; cost = cost; through = through; connected = connected }) (state_of stores.old))
        stores.new
        (joined kind.Router coming.number (record { name = name.now; attributes = attributes.now; cost = cost; through = through; connected = connected }) (state_of stores.old))) }
{
    if let Some(flaw) = router_flaw(alloc, &stores.entities, coming, name, attributes) {
        return Ok(Some(flaw));
    }
    let name = name.copy()?;
    let attributes = attributes.copy()?;
    join_router(
        alloc,
        stores,
        coming.number,
        name,
        attributes,
        cost,
        through,
        connected,
    )?;
    Ok(None)
}

// Takes the setting.
fn take_setting(stores: &mut Stores, cost: u32) -> Option<Flaw>
    requires kept { Keeps stores.old }
    ensures { Takes result (flaw_if (not (is_link_cost cost)) NoRecord None) stores.new (record (state_of stores.old) { least_router_cost = cost }) }
{
    if cost < 1 || cost > MOST_COST {
        return Some(Flaw::NoRecord);
    }
    stores.fabric.set_least(cost);
    None
}

// The last service that has an intercept, if one has.
fn last_claim(intercepts: &Intercepts) -> Option<ServiceNo>
    ensures { option_map (λ n. n.0) result ≡ last_or None (numbers intercepts.now) }
{
    match intercepts.last() {
        Some(number) => Some(ServiceNo(number)),
        None => None,
    }
}

// Takes the intercept of a service, behind the others.
fn take_claim(
    stores: &mut Stores,
    service: ServiceNo,
    intercept: &Intercept,
) -> Result<Option<Flaw>, AllocError>
    requires kept { Keeps stores.old }
    requires form { is_intercept intercept.now ≡ true }
    ensures { IfOk result (λ told. Takes told (flaw_of_intercept service.0 intercept.now (state_of stores.old)) stores.new (claimed service.0 intercept.now (state_of stores.old))) }
{
    let last = last_claim(&stores.intercepts);
    let flaw = claim_flaw(&stores.entities, last, service);
    if flaw.is_some() {
        return Ok(flaw);
    }
    let intercept = intercept.copy()?;
    stores.intercepts.set(service.0, intercept)?;
    Ok(None)
}

// Takes the serial.
fn take_serial(stores: &mut Stores, serial: u64) -> Option<Flaw>
    requires kept { Keeps stores.old }
    ensures { Takes result (flaw_of_serial serial) stores.new (record (state_of stores.old) { serial = serial }) }
{
    let flaw = serial_flaw(serial);
    if flaw.is_some() {
        return flaw;
    }
    stores.serial = serial;
    None
}

// Compares a count with the one that is kept.
fn judge_count(stores: &Stores, relation: Relation, a: u32, b: u32, told: u32) -> Option<Flaw>
    requires kept { Keeps stores.now }
    ensures { result ≡ flaw_if (not (count relation (state_of stores.now) a b == told)) WrongCount None }
{
    count_flaw(stores.grants.counted(relation), a, b, told)
}

// Compares the count that a row tells with the one that is kept. Other rows tell none.
fn judge_row(stores: &Stores, row: &Row) -> Option<Flaw>
    requires kept { Keeps stores.now }
    ensures { result ≡ count_flaw_of row.now (state_of stores.now) }
{
    match row {
        Row::Dial {
            identity,
            service,
            count,
        } => judge_count(stores, Relation::Dial, identity.0, service.0, *count),
        Row::Bind {
            identity,
            service,
            count,
        } => judge_count(stores, Relation::Bind, identity.0, service.0, *count),
        Row::IdentityRouter {
            identity,
            router,
            count,
        } => judge_count(
            stores,
            Relation::IdentityRouter,
            identity.0,
            router.0,
            *count,
        ),
        Row::ServiceRouter {
            service,
            router,
            count,
        } => judge_count(stores, Relation::ServiceRouter, service.0, router.0, *count),
        _ => None,
    }
}

/// Takes the row that comes next among some: a record or an intercept joins, the setting or the serial is set, and a count is compared. A
/// row with a flaw changes nothing.
pub fn take_row(
    alloc: Global,
    stores: &mut Stores,
    rows: &[Row],
    row: &Row,
) -> Result<Option<Flaw>, AllocError>
    requires kept { Keeps stores.old }
    requires form { IsSomeRow row.now }
    ensures { IfOk result (λ told. Takes told (flaw_in (next_in rows.now) row.now (state_of stores.old)) stores.new (with_row row.now (state_of stores.old))) }
{
    match row {
        Row::Next { .. } => Ok(None),
        Row::Setting { cost } => Ok(take_setting(stores, *cost)),
        Row::Router {
            no,
            name,
            attributes,
            cost,
            through,
            connected,
        } => {
            let coming = coming(rows, row, Kind::Router, no.0);
            take_router(
                alloc, stores, coming, name, attributes, *cost, *through, *connected,
            )
        }
        Row::Identity { .. } => take_record(alloc, stores, rows, row),
        Row::Service { .. } => take_record(alloc, stores, rows, row),
        Row::Link { .. } => take_record(alloc, stores, rows, row),
        Row::ServicePolicy { .. } => take_record(alloc, stores, rows, row),
        Row::EdgeRouterPolicy { .. } => take_record(alloc, stores, rows, row),
        Row::ServiceEdgeRouterPolicy { .. } => take_record(alloc, stores, rows, row),
        Row::Terminator { .. } => take_record(alloc, stores, rows, row),
        Row::Circuit { .. } => take_record(alloc, stores, rows, row),
        Row::Dial { .. } => Ok(judge_row(stores, row)),
        Row::Bind { .. } => Ok(judge_row(stores, row)),
        Row::IdentityRouter { .. } => Ok(judge_row(stores, row)),
        Row::ServiceRouter { .. } => Ok(judge_row(stores, row)),
        Row::Intercept { service, intercept } => take_claim(stores, *service, intercept),
        Row::Serial { serial } => Ok(take_serial(stores, *serial)),
    }
}
