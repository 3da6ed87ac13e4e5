ghost use Rattle.std.specs.Prelude.{◌≡◌};
ghost use Rattle.std.specs.List.{list_all};
ghost use Rattle.ctrl_model.specs.Claims.{is_no_better};
ghost use Rattle.circuit_rules.specs.Views.{network};
ghost use Rattle.circuit_rules.specs.Parts.{term_offered, unloaded};

use crate::offers::Offer;
use crate::values::claimed;
use crate::views::View;
use ctrl_model::{Explanation, RouterNo, RouterSeen};
use route_choice::{is_at_most, place_of};

// Whether the offer does not beat the claim from an ingress: one of a better precedence has no path, and one of the claim's
// precedence has none of a lower total.
fn is_no_better(
    view: &View,
    claim: &Explanation,
    place: u8,
    ingress: RouterNo,
    offer: &Offer,
) -> bool
    ensures { result ≡ is_no_better (unloaded (network view.now)) claim.now place ingress.0 (term_offered offer.now) }
{
    let own = place_of(offer.precedence);
    if own > place {
        return true;
    }
    let value = claimed(view, claim.potentials.as_slice(), offer.router, ingress);
    if value == u64::MAX {
        return true;
    }
    own == place && is_at_most(claim.total, offer.cost, value)
}

// Whether no offer beats the claim from an ingress.
fn none_beats_from(
    view: &View,
    claim: &Explanation,
    place: u8,
    ingress: RouterNo,
    offers: &[Offer],
) -> bool
    ensures { result ≡ list_all (λ o. is_no_better (unloaded (network view.now)) claim.now place ingress.0 (term_offered o)) offers.now }
{
    'offers: for offer in offers {
        if !is_no_better(view, claim, place, ingress, offer) {
            return false;
        }
    }
    true
}

/// Whether no offer beats the claim from any ingress.
pub fn none_beats(
    view: &View,
    claim: &Explanation,
    place: u8,
    ingresses: &[RouterSeen],
    offers: &[Offer],
) -> bool
    ensures { result ≡ list_all (λ r. list_all (λ o. is_no_better (unloaded (network view.now)) claim.now place r.no.0 (term_offered o)) offers.now) ingresses.now }
{
    'ingresses: for ingress in ingresses {
        if !none_beats_from(view, claim, place, ingress.no, offers) {
            return false;
        }
    }
    true
}
