ghost use Rattle.std.specs.Prelude.{◌≡◌, ℕ, true, IfOk, IfSome};
ghost use Rattle.std.specs.Option.{option_map};
ghost use Rattle.ctrl_model.specs.declared.formats.Format.{Format};
ghost use Rattle.ctrl_model.specs.Hits.{are_intercepts};
ghost use Rattle.ctrl_model.specs.InterceptForm.{is_intercept};
ghost use Rattle.ctrl_model.specs.Numbered.{at};
ghost use Rattle.ctrl_model.specs.State.{State};
ghost use Rattle.row_codec.specs.CoveredTables.{Covers};
ghost use Rattle.row_codec.specs.RowKeys.{is_long};
ghost use Rattle.row_codec.specs.RowValues.{intercept_value};
ghost use Rattle.row_codec.specs.StateRows.{HasRows};
ghost use Rattle.intercepts.specs.InterceptChanges.{Claims, intercepts_after};
ghost use Rattle.intercept_commands.specs.InterceptRows.{claim_change, service_of, claim_of};

use ctrl_model::{Bytes, Copies, Format, Intercept, ServiceNo};
use intercepts::{InterceptChange, Intercepts};
use row_codec::{Change, Changes, Row, record_key};
use row_writing::value_of;
use std::alloc::{AllocError, Global};

// The value of the row of a service's intercept.
fn claim_value(
    alloc: Global,
    service: ServiceNo,
    intercept: &Intercept,
) -> Result<Bytes, AllocError>
    requires { is_intercept intercept.now ≡ true }
    ensures { IfOk result (λ value. value ≡ intercept_value intercept.now) }
{
    let intercept = intercept.copy()?;
    let row = Row::Intercept { service, intercept };
    let value = value_of(alloc, Format::Two, &row);
    drop(row);
    value
}

// The same, if it has one.
fn value_if_some(
    alloc: Global,
    service: ServiceNo,
    intercept: Option<&Intercept>,
) -> Result<Option<Bytes>, AllocError>
    requires { IfSome intercept (λ i. is_intercept i.now ≡ true) }
    ensures { IfOk result (λ value. value ≡ option_map (λ i. intercept_value i.now) intercept.entry) }
{
    match intercept {
        Some(intercept) => Ok(Some(claim_value(alloc, service, intercept)?)),
        None => Ok(None),
    }
}

// The change of the row of a service's intercept.
fn claim_change(
    alloc: Global,
    service: u32,
    before: Option<&Intercept>,
    after: Option<&Intercept>,
) -> Result<Change, AllocError>
    requires before { IfSome before (λ i. is_intercept i.now ≡ true) }
    requires after { IfSome after (λ i. is_intercept i.now ≡ true) }
    ensures change { IfOk result (λ change. change ≡ claim_change service (option_map (λ i. i.now) before.entry) (option_map (λ i. i.now) after.entry)) }
    ensures long { is_long service ≡ true }
{
    let key = record_key(alloc, 16, service)?;
    let before = value_if_some(alloc, ServiceNo(service), before)?;
    let after = value_if_some(alloc, ServiceNo(service), after)?;
    Ok(Change {
        key: Bytes::of(key),
        before,
        after,
    })
}

fn service_of(change: &InterceptChange) -> ServiceNo
    ensures { result.0 ≡ service_of change.now }
{
    match change {
        InterceptChange::Set { service, .. } => *service,
        InterceptChange::Remove { service } => *service,
    }
}

// The intercept that a service has after a change of its own, if it has one.
fn claim_of(change: &InterceptChange) -> Option<&Intercept>
    ensures { option_map (λ i. i.now) result ≡ claim_of change.now }
{
    match change {
        InterceptChange::Set { intercept, .. } => Some(intercept),
        InterceptChange::Remove { .. } => None,
    }
}

// The change of the row that a change of intercepts touches.
fn row_change(
    alloc: Global,
    intercepts: &Intercepts,
    change: &InterceptChange,
) -> Result<Change, AllocError>
    requires before { are_intercepts intercepts.now ≡ true }
    requires after { Claims change.now }
    ensures change { IfOk result (λ c. c ≡ claim_change (service_of change.now) (at intercepts.now (service_of change.now)) (claim_of change.now)) }
    ensures long { is_long (service_of change.now) ≡ true }
{
    let service = service_of(change).0;
    let before = intercepts.get(service);
    claim_change(alloc, service, before, claim_of(change))
}

/// The changes of the rows of intercepts by a change, if there is one. Each intercept is one, now and then, as those of a valid state
/// are. The same intercept set again is a change of its row to itself, of which nothing is written. An Err is want of memory.
pub fn intercept_changes(
    alloc: Global,
    intercepts: &Intercepts,
    change: Option<&InterceptChange>,
) -> Result<Changes, AllocError>
    requires before { are_intercepts intercepts.now ≡ true }
    requires after { IfSome change (λ c. Claims c.now) }
    ensures { IfOk result (λ changes. (f : Format) (s t : State) → HasRows f s → HasRows f t → s.intercepts ≡ intercepts.now
        → t.intercepts ≡ intercepts_after (option_map (λ c. c.now) change.entry) intercepts.now → Covers f 16 17 s t changes) }
{
    let mut changes = Vec::new(alloc);
    let Some(change) = change else {
        return Ok(Changes::of(changes));
    };
    changes.push(row_change(alloc, intercepts, change)?)?;
    Ok(Changes::of(changes))
}
