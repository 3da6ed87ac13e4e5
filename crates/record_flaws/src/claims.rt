ghost use Rattle.std.specs.Prelude.{◌≡◌, true, nat_lt};
ghost use Rattle.std.specs.Option.{option_map, option_map_or};
ghost use Rattle.ctrl_model.specs.declared.intercepts.Intercept.{Intercept};
ghost use Rattle.ctrl_model.specs.InterceptForm.{is_intercept};
ghost use Rattle.ctrl_model.specs.State.{State};
ghost use Rattle.state_building.specs.JoinedRecords.{flaw_of_intercept, flaw_of_serial};
ghost use Rattle.record_flaws.specs.LastClaims.{IsLast};
ghost use Rattle.record_flaws.specs.StoresOfStates.{AreEntitiesOf};

use ctrl_model::{Kind, LAST_SERIAL, ServiceNo};
use entity_store::Entities;
use state_building::Flaw;

// Whether a number comes behind the last one, if there is one.
fn comes_behind(last: Option<ServiceNo>, service: ServiceNo) -> bool
    ensures { result ≡ option_map_or (λ n. nat_lt n.0 service.0) last true }
{
    match last {
        None => true,
        Some(last) => last.0 < service.0,
    }
}

/// Why an intercept of a service cannot join a state, if it cannot, where `last` is the service of the last intercept of the state, if it has
/// one. The row of the intercept has told that it is one.
pub fn claim_flaw(entities: &Entities, last: Option<ServiceNo>, service: ServiceNo) -> Option<Flaw>
    ensures { (i : Intercept) (s : State) → is_intercept i ≡ true → AreEntitiesOf entities.now s → IsLast (option_map (λ n. n.0) last) s.services.next s.intercepts
        → result ≡ flaw_of_intercept service.0 i s }
{
    if !comes_behind(last, service) {
        return Some(Flaw::OutOfOrder);
    }
    if entities.entity(Kind::Service, service.0).is_none() {
        return Some(Flaw::Hanging);
    }
    None
}

/// Why a serial cannot be that of a state, if it cannot.
pub fn serial_flaw(serial: u64) -> Option<Flaw>
    ensures { result ≡ flaw_of_serial serial }
{
    if serial > LAST_SERIAL {
        return Some(Flaw::NoRecord);
    }
    None
}
