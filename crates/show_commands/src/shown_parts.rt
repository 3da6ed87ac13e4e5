use entity_store::Entities;
use grant_denorm::Counted;

/// What is shown: the entities, the grant counts of each relation, and how many there are of the other records.
#[derive(Clone, Copy)]
pub struct Shown<'a> {
    pub entities: &'a Entities,
    pub dial: &'a Counted,
    pub bind: &'a Counted,
    pub identity_router: &'a Counted,
    pub service_router: &'a Counted,
    pub circuits: u32,
    pub links: u32,
    pub policies: u32,
    pub terminators: u32,
}
