ghost use Rattle.std.specs.Prelude.{◌≡◌, ◌≤◌};
ghost use Rattle.ctrl_model.specs.Tables.{table};
ghost use Rattle.state_building.specs.JoinedRecords.{skipped};
ghost use Rattle.core_stores.specs.CarriedStates.{Carries};
ghost use Rattle.core_stores.specs.StoredState.{HoldsPolicies, state_of};

use crate::stores::Stores;
use ctrl_model::Kind;

/// Raises the next number of a kind. Attributes have none.
pub fn skip(stores: &mut Stores, kind: Kind, next: u32)
    requires later { (table kind (state_of stores.old)).next ≤ next }
    requires held { HoldsPolicies stores.old }
    ensures carried { Carries stores.old stores.new (skipped kind next (state_of stores.old)) }
    ensures loads { stores.new.terminators.loads ≡ stores.old.terminators.loads }
{
    match kind {
        Kind::Identity | Kind::Service | Kind::Router => stores.entities.skip(kind, next),
        Kind::ServicePolicy | Kind::EdgeRouterPolicy | Kind::ServiceEdgeRouterPolicy => {
            stores.policies.skip(kind, next)
        }
        Kind::Link => stores.fabric.skip(next),
        Kind::Terminator => stores.terminators.skip(next),
        Kind::Circuit => stores.circuits.skip(next),
        Kind::Attribute => {}
    }
}
