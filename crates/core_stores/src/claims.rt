ghost use Rattle.std.specs.Prelude.{◌≡◌, Some, option_map};
ghost use Rattle.intercepts.specs.InterceptChanges.{intercepts_after};
ghost use Rattle.core_stores.specs.Claims.{claim_gone, service_gone};

use ctrl_model::{Kind, ServiceNo};
use entity_store::EntityChange;
use intercepts::{InterceptChange, Intercepts};

// The service that a change removes, if it removes one.
fn service_gone(change: Option<&EntityChange>) -> Option<u32>
    ensures { result ≡ service_gone (option_map (λ c. c.now) change.entry) }
{
    match change {
        Some(
            EntityChange::Remove {
                kind: Kind::Service,
                number,
                ..
            },
        ) => Some(*number),
        _ => None,
    }
}

/// The change of the intercepts that a change of the entities brings along, if there is one: the intercept of a service that goes, goes.
pub fn claim_gone(change: Option<&EntityChange>) -> Option<InterceptChange>
    ensures { result ≡ claim_gone (option_map (λ c. c.now) change.entry) }
{
    match service_gone(change) {
        Some(service) => Some(InterceptChange::Remove {
            service: ServiceNo(service),
        }),
        None => None,
    }
}

/// Makes that change of the intercepts.
pub fn forget_claim(intercepts: &mut Intercepts, change: &EntityChange)
    ensures { intercepts.new ≡ intercepts_after (claim_gone (Some change.now)) intercepts.old }
{
    if let Some(service) = service_gone(Some(change)) {
        intercepts.remove(service);
    }
}
