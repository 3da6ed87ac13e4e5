use circuits::Circuits;
use entity_store::Entities;
use fabric_graph::Fabric;
use grant_denorm::Counted;
use terminators::Terminators;

/// The parts of a state that decide about circuits: its entities, links, terminators and circuits, and the grant counts of pairs.
#[derive(Clone, Copy)]
pub struct Parts<'a> {
    pub entities: &'a Entities,
    pub fabric: &'a Fabric,
    pub terminators: &'a Terminators,
    pub circuits: &'a Circuits,
    pub dial: &'a Counted,
    pub bind: &'a Counted,
    pub identity_router: &'a Counted,
    pub service_router: &'a Counted,
}
