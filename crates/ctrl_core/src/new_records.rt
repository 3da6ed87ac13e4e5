ghost use Rattle.std.specs.Prelude.{◌≡◌, IfOk};
ghost use Rattle.core_stores.specs.StoredState.{state_of};
ghost use Rattle.ctrl_core.specs.KeptState.{Keeps};
ghost use Rattle.ctrl_core.specs.NewRecords.{IsNew, is_sound_new, new_flaw_of};

use crate::row_flaws::{circuit_flaw, link_flaw_in, plain_flaw_in, policy_flaw, term_flaw_in};
use circuits::CircuitChange;
use core_stores::{Change, Stores};
use ctrl_model::Kind;
use entity_store::EntityChange;
use fabric_graph::LinkChange;
use policy_store::PolicyChange;
use record_flaws::Coming;
use state_building::Flaw;
use std::alloc::{AllocError, Global};
use terminators::TermChange;

/// Why the record of a kind that a change adds cannot join, if it cannot. An `Err` is want of memory.
pub fn new_flaw(
    alloc: Global,
    stores: &Stores,
    kind: Kind,
    coming: Coming,
    change: &Change,
) -> Result<Option<Flaw>, AllocError>
    requires kept { Keeps stores.now }
    requires new { IsNew kind change.now }
    requires sound { coming.sound ≡ is_sound_new change.now }
    ensures { IfOk result (λ f. f ≡ new_flaw_of coming.end coming.number change.now (state_of stores.now)) }
{
    match change {
        Change::Entity(
            EntityChange::Add {
                name,
                attributes,
                ..
            },
        ) => Ok(plain_flaw_in(alloc, stores, kind, coming, name, attributes)),
        Change::Policy(PolicyChange::Add { policy, .. }) => {
            policy_flaw(alloc, stores, kind, coming, policy)
        }
        Change::Link(LinkChange::Add(link)) => Ok(link_flaw_in(stores, coming, link)),
        Change::Terminator(TermChange::Add(term)) => Ok(term_flaw_in(stores, coming, term)),
        Change::Circuit(CircuitChange::Add(circuit)) => {
            circuit_flaw(alloc, stores, coming, circuit)
        }
        _ => unreachable!(),
    }
}
