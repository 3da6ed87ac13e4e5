ghost use Rattle.std.specs.Prelude.{◌≡◌, ◌&&◌, false};
ghost use Rattle.ctrl_model.specs.declared.kinds.Kind.TheVariants as kind;
ghost use Rattle.ctrl_model.specs.Numbered.{is_present};
ghost use Rattle.ctrl_model.specs.Rules.{attributes_full};
ghost use Rattle.ctrl_model.specs.State.{State, Link};
ghost use Rattle.state_building.specs.JoinedRecords.{is_sound, flaw_of};
ghost use Rattle.record_flaws.specs.StoresOfStates.{AreEntitiesOf, AreLinksOf};

use crate::coming::{Coming, Findings};
use ctrl_model::{Kind, Name, RouterNo, limit};
use entity_store::Entities;
use fabric_graph::Fabric;
use state_building::Flaw;

// Whether both routers of a link are present.
fn are_there(entities: &Entities, a: RouterNo, b: RouterNo) -> bool
    ensures { result ≡ (is_present entities.now.routers.rows a.0 && is_present entities.now.routers.rows b.0) }
{
    entities.router(a).is_some() && entities.router(b).is_some()
}

/// Why a link between two routers cannot join a state, if it cannot. Its costs are judged alone.
pub fn link_flaw(
    entities: &Entities,
    fabric: &Fabric,
    coming: Coming,
    name: &Name,
    a: RouterNo,
    b: RouterNo,
) -> Option<Flaw>
    ensures { (l : Link) (s : State) → l.name ≡ name.now → l.a ≡ a.0 → l.b ≡ b.0 → AreEntitiesOf entities.now s → AreLinksOf fabric.now s
        → attributes_full s ≡ false → coming.sound ≡ is_sound kind.Link l → result ≡ flaw_of (λ k. coming.end) kind.Link coming.number l s }
{
    let findings = Findings {
        out_of_order: coming.is_out_of_order(fabric.next()),
        sound: coming.sound,
        taken: fabric.find(name).is_ok(),
        supported: are_there(entities, a, b),
        too_many: fabric.count() >= limit(Kind::Link),
    };
    findings.flaw(Kind::Link)
}
