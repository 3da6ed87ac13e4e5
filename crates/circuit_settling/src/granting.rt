ghost use Rattle.std.specs.Prelude.{◌≡◌, ◌&&◌, nat_lt};
ghost use Rattle.ctrl_model.specs.Settling.{admits};
ghost use Rattle.ctrl_model.specs.Walks.{is_among};
ghost use Rattle.grant_denorm.specs.CountsAfter.{count_after};
ghost use Rattle.terminators.specs.TermRules.{granted};
ghost use Rattle.circuit_settling.specs.PresentRecords.{granted_beside};

use crate::staying::Present;
use circuits::CircuitView;
use ctrl_model::ServiceNo;
use grant_denorm::CountedAfter;
use record_tables::is_among;
use terminators::{Grants, TermView, is_in_service, is_shared};

/// The grant counts of the four relations, as they will be.
#[derive(Drop)]
pub struct GrantsAfter<'a> {
    pub dial: CountedAfter<'a>,
    pub bind: CountedAfter<'a>,
    pub identity_router: CountedAfter<'a>,
    pub service_router: CountedAfter<'a>,
}

// Whether the identity and the service of a circuit are present, and the one is granted Dial on the other.
fn is_dialled(present: &Present, grants: &GrantsAfter, circuit: &CircuitView) -> bool
    ensures { result ≡ (is_among circuit.now.identity present.now.identities.now && (is_among circuit.now.service present.now.services.now && nat_lt 0 (count_after grants.now.dial circuit.now.identity circuit.now.service))) }
{
    is_among(circuit.identity.0, present.identities.as_slice())
        && is_among(circuit.service.0, present.services.as_slice())
        && grants.dial.count(circuit.identity.0, circuit.service.0) > 0
}

// Whether a terminator is admissible for a service and its own instance.
fn admits(grants: &Grants, service: ServiceNo, term: &TermView) -> bool
    ensures { result ≡ admits (granted grants.now) service.0 0 term.now }
{
    term.service.0 == service.0 && is_in_service(grants, term)
}

/// Whether what granted a circuit stands: its identity and its service are present and the one is granted Dial on the other, the two share
/// its ingress, and its terminator is present and admissible for the service and its own instance (docs/RULES.md, "Settling").
pub fn is_granted(present: &Present, grants: &GrantsAfter, circuit: &CircuitView) -> bool
    ensures { result ≡ granted_beside present.now grants.now circuit.now }
{
    if !is_dialled(present, grants, circuit) {
        return false;
    }
    let serving = Grants {
        bind: &grants.bind,
        identity_router: &grants.identity_router,
        service_router: &grants.service_router,
        routers: present.routers,
    };
    is_shared(&serving, circuit.identity, circuit.service, circuit.ingress)
        && match present.terminators.get(circuit.terminator) {
            Some(term) => admits(&serving, circuit.service, &term),
            None => false,
        }
}
