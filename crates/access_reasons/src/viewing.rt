ghost use Rattle.std.specs.Prelude.{◌≡◌, map};
ghost use Rattle.ctrl_model.specs.Networks.{seen};
ghost use Rattle.ctrl_model.specs.State.{State};
ghost use Rattle.circuit_rules.specs.Views.{network};
ghost use Rattle.policy_advisor.specs.AdvisedStates.{IsViewOf};
ghost use Rattle.access_reasons.specs.StateStores.{AreStoresOf, network_in};

use crate::lending::Stores;
use circuit_rules::View;
use ctrl_model::RouterSeen;

/// What decides about routes, of the stores and of their routers.
pub(crate) fn view_of<'a>(stores: &'a Stores, routers: &'a [RouterSeen]) -> View<'a>
    requires { routers.now ≡ map seen stores.now.entities.now.routers.rows }
    ensures network { network result ≡ network_in stores.now }
    ensures routers { result.routers.now ≡ map seen stores.now.entities.now.routers.rows }
    ensures state { (s : State) → AreStoresOf stores.now s → IsViewOf result s }
{
    View {
        dial: stores.dial,
        bind: stores.bind,
        identity_router: stores.identity_router,
        service_router: stores.service_router,
        routers,
        fabric: stores.fabric,
        terminators: stores.terminators,
        circuits_full: stores.circuits_full,
    }
}
