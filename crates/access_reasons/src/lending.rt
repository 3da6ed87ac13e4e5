use entity_store::Entities;
use fabric_graph::Fabric;
use grant_denorm::Counted;
use policy_store::Policies;
use terminators::Terminators;

/// The stores of a state that say who reaches which service: its entities, policies, links and terminators, the grant counts of pairs,
/// and whether no circuit can be added.
#[derive(Clone, Copy)]
pub struct Stores<'a> {
    pub entities: &'a Entities,
    pub policies: &'a Policies,
    pub fabric: &'a Fabric,
    pub terminators: &'a Terminators,
    pub dial: &'a Counted,
    pub bind: &'a Counted,
    pub identity_router: &'a Counted,
    pub service_router: &'a Counted,
    pub circuits_full: bool,
}
