ghost use Rattle.std.specs.Prelude.{◌≡◌, ◌&&◌, true, false};
ghost use Rattle.std.specs.Option.{option_map, option_map_or};
ghost use Rattle.ctrl_model.specs.declared.kinds.Kind.TheVariants as kind;
ghost use Rattle.ctrl_model.specs.Numbered.{is_present};
ghost use Rattle.ctrl_model.specs.Rules.{attributes_full};
ghost use Rattle.ctrl_model.specs.State.{State, Terminator};
ghost use Rattle.state_building.specs.JoinedRecords.{is_sound, flaw_of};
ghost use Rattle.record_flaws.specs.StoresOfStates.{AreEntitiesOf, AreTermsOf};

use crate::coming::{Coming, Findings};
use ctrl_model::{IdentityNo, Kind, RouterNo, ServiceNo, limit};
use entity_store::Entities;
use state_building::Flaw;
use terminators::Terminators;

// Whether a host is present, where there is one.
fn is_host_there(entities: &Entities, host: Option<IdentityNo>) -> bool
    ensures { result ≡ option_map_or (is_present entities.now.identities.rows) (option_map (λ h. h.0) host) true }
{
    match host {
        Some(identity) => entities.entity(Kind::Identity, identity.0).is_some(),
        None => true,
    }
}

// Whether the service, the router and the host of a terminator are present.
fn are_there(
    entities: &Entities,
    service: ServiceNo,
    router: RouterNo,
    host: Option<IdentityNo>,
) -> bool
    ensures { result ≡ (is_present entities.now.services.rows service.0
        && (is_present entities.now.routers.rows router.0 && option_map_or (is_present entities.now.identities.rows) (option_map (λ h. h.0) host) true)) }
{
    entities.entity(Kind::Service, service.0).is_some()
        && entities.router(router).is_some()
        && is_host_there(entities, host)
}

/// Why a terminator of a service at a router, and at a host if it has one, cannot join a state, if it cannot. Its instance, cost and
/// precedence are judged alone.
pub fn term_flaw(
    entities: &Entities,
    terminators: &Terminators,
    coming: Coming,
    service: ServiceNo,
    router: RouterNo,
    host: Option<IdentityNo>,
) -> Option<Flaw>
    ensures { (e : Terminator) (s : State) → e.service ≡ service.0 → e.router ≡ router.0 → e.host ≡ option_map (λ h. h.0) host
        → AreEntitiesOf entities.now s → AreTermsOf terminators.now s → attributes_full s ≡ false
        → coming.sound ≡ is_sound kind.Terminator e → result ≡ flaw_of (λ k. coming.end) kind.Terminator coming.number e s }
{
    let findings = Findings {
        out_of_order: coming.is_out_of_order(terminators.next()),
        sound: coming.sound,
        taken: false,
        supported: are_there(entities, service, router, host),
        too_many: terminators.count() >= limit(Kind::Terminator),
    };
    findings.flaw(Kind::Terminator)
}
