ghost use Rattle.std.specs.Prelude.{◌≡◌, ◌⊎◌, true};
ghost use Rattle.ctrl_model.specs.declared.kinds.Kind.TheVariants as kinds;
ghost use Rattle.ctrl_model.specs.State.{State, Entity, Router};
ghost use Rattle.entity_store.specs.EntityTables.{is_entity_kind};
ghost use Rattle.state_building.specs.JoinedRecords.{is_sound, flaw_of};
ghost use Rattle.record_flaws.specs.FoundFlaws.{has_one_too_many, entity_flaw};
ghost use Rattle.record_flaws.specs.StoresOfStates.{AreEntitiesOf};

use crate::coming::{Coming, Findings};
use ctrl_model::{Kind, Name, Names, limit};
use entity_store::Entities;
use state_building::Flaw;
use std::alloc::Global;

// Whether a kind is full, or with some attributes more would be in use than may be.
fn has_one_too_many(alloc: Global, entities: &Entities, kind: Kind, attributes: &Names) -> bool
    requires { is_entity_kind kind ≡ true }
    ensures { result ≡ has_one_too_many kind attributes.now entities.now }
{
    let none = Names::of(Vec::new(alloc));
    entities.count(kind) >= limit(kind) || !entities.has_room(&none, attributes)
}

// Why an entity cannot join the entities of a store, if it cannot.
fn entity_flaw(
    alloc: Global,
    entities: &Entities,
    kind: Kind,
    coming: Coming,
    name: &Name,
    attributes: &Names,
) -> Option<Flaw>
    requires { is_entity_kind kind ≡ true }
    ensures { result ≡ entity_flaw kind coming name.now attributes.now entities.now }
{
    let findings = Findings {
        out_of_order: coming.is_out_of_order(entities.next(kind)),
        sound: coming.sound,
        taken: entities.find(kind, name).is_ok(),
        supported: true,
        too_many: has_one_too_many(alloc, entities, kind, attributes),
    };
    findings.flaw(kind)
}

/// Why an identity or a service cannot join the entities of a state, if it cannot.
pub fn plain_flaw(
    alloc: Global,
    entities: &Entities,
    kind: Kind,
    coming: Coming,
    name: &Name,
    attributes: &Names,
) -> Option<Flaw>
    requires { (kind ≡ kinds.Identity) ⊎ (kind ≡ kinds.Service) }
    ensures identity { (e : Entity) (s : State) → kind ≡ kinds.Identity → e ≡ record { name = name.now; attributes = attributes.now } → AreEntitiesOf entities.now s
        → coming.sound ≡ is_sound kinds.Identity e → result ≡ flaw_of (λ k. coming.end) kinds.Identity coming.number e s }
    ensures service { (e : Entity) (s : State) → kind ≡ kinds.Service → e ≡ record { name = name.now; attributes = attributes.now } → AreEntitiesOf entities.now s
        → coming.sound ≡ is_sound kinds.Service e → result ≡ flaw_of (λ k. coming.end) kinds.Service coming.number e s }
{
    entity_flaw(alloc, entities, kind, coming, name, attributes)
}

/// Why a router cannot join the entities of a state, if it cannot. Its marks and its cost are judged alone.
pub fn router_flaw(
    alloc: Global,
    entities: &Entities,
    coming: Coming,
    name: &Name,
    attributes: &Names,
) -> Option<Flaw>
    ensures { (r : Router) (s : State) → r.name ≡ name.now → r.attributes ≡ attributes.now → AreEntitiesOf entities.now s
        → coming.sound ≡ is_sound kinds.Router r → result ≡ flaw_of (λ k. coming.end) kinds.Router coming.number r s }
{
    entity_flaw(alloc, entities, Kind::Router, coming, name, attributes)
}
