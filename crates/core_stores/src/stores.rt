ghost use Rattle.std.specs.Prelude.{◌≡◌, [], IfOk};
ghost use Rattle.entity_store.specs.EntityTables.{no_entities};
ghost use Rattle.policy_store.specs.PolicyTables.{no_policies};
ghost use Rattle.fabric_graph.specs.FabricTables.{no_links};
ghost use Rattle.circuits.specs.CircuitTables.{no_circuits};
ghost use Rattle.terminators.specs.TermTables.{no_terminators};
ghost use Rattle.core_stores.specs.StoredState.{counts_of};

use circuits::Circuits;
use ctrl_model::Relation;
use entity_store::Entities;
use fabric_graph::Fabric;
use grant_denorm::Counted;
use intercepts::Intercepts;
use policy_store::Policies;
use std::alloc::{AllocError, Global};
use terminators::Terminators;

/// The grant counts of pairs, kept for each relation.
#[derive(Drop)]
pub struct Grants {
    pub dial: Counted,
    pub bind: Counted,
    pub identity_router: Counted,
    pub service_router: Counted,
}

/// The stores of a core.
#[derive(Drop)]
pub struct Stores {
    pub entities: Entities,
    pub policies: Policies,
    pub fabric: Fabric,
    pub terminators: Terminators,
    pub circuits: Circuits,
    pub grants: Grants,
    pub intercepts: Intercepts,
    pub serial: u64,
}

impl Grants {
    /// Counts of no pair.
    pub fn new(alloc: Global) -> Grants
        ensures { result ≡ record { dial = []; bind = []; identity_router = []; service_router = [] } }
    {
        Grants {
            dial: Counted::new(alloc),
            bind: Counted::new(alloc),
            identity_router: Counted::new(alloc),
            service_router: Counted::new(alloc),
        }
    }

    /// The counts of a relation.
    pub fn counted(&self, relation: Relation) -> &Counted
        ensures { result.now ≡ counts_of relation self.now }
    {
        match relation {
            Relation::Dial => &self.dial,
            Relation::Bind => &self.bind,
            Relation::IdentityRouter => &self.identity_router,
            Relation::ServiceRouter => &self.service_router,
        }
    }
}

// Stores without records but for those of the entities, at the first serial.
fn beside(alloc: Global, entities: Entities) -> Stores
    ensures { result ≡ record { entities = entities; policies = no_policies; fabric = no_links; terminators = no_terminators; circuits = no_circuits; grants = record { dial = []; bind = []; identity_router = []; service_router = [] }; intercepts = []; serial = 0 } }
{
    Stores {
        entities,
        policies: Policies::new(alloc),
        fabric: Fabric::new(alloc),
        terminators: Terminators::new(alloc),
        circuits: Circuits::new(alloc),
        grants: Grants::new(alloc),
        intercepts: Intercepts::new(alloc),
        serial: 0,
    }
}

impl Stores {
    /// Stores without records, and with the serial 0.
    pub fn new(alloc: Global) -> Result<Stores, AllocError>
        ensures { IfOk result (λ st. st ≡ record { entities = no_entities; policies = no_policies; fabric = no_links; terminators = no_terminators; circuits = no_circuits; grants = record { dial = []; bind = []; identity_router = []; service_router = [] }; intercepts = []; serial = 0 }) }
    {
        let entities = Entities::new(alloc)?;
        Ok(beside(alloc, entities))
    }
}
