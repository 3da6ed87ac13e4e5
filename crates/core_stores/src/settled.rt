ghost use Rattle.std.specs.Prelude.{◌≡◌, []};
ghost use Rattle.terminators.specs.TermChanges.{without_terms};
ghost use Rattle.core_stores.specs.CarriedStates.{Carries};
ghost use Rattle.core_stores.specs.SettledNumbers.{SettlesNothing, without_settled};
ghost use Rattle.core_stores.specs.StoredState.{HoldsPolicies, state_of};

use crate::stores::Stores;
use circuits::Moves;
use ctrl_model::Numbers;
use std::alloc::Global;

/// What settling makes of what a change leaves: the numbers of the links and of the terminators that go, of the circuits that do not stay
/// as they are and of those that end, each ascending, and the moves of the other circuits (docs/RULES.md, "Settling").
#[derive(Drop)]
pub struct Settled {
    pub links: Numbers,
    pub terminators: Numbers,
    /// The circuits that do not stay as they are: each of them ends or is moved.
    pub going: Numbers,
    pub ended: Numbers,
    pub moves: Moves,
}

impl Settled {
    /// Nothing.
    pub fn nothing(alloc: Global) -> Settled
        ensures { SettlesNothing result }
    {
        Settled {
            links: Numbers::of(Vec::new(alloc)),
            terminators: Numbers::of(Vec::new(alloc)),
            going: Numbers::of(Vec::new(alloc)),
            ended: Numbers::of(Vec::new(alloc)),
            moves: Moves::of(Vec::new(alloc)),
        }
    }
}

/// Takes out what goes and moves the circuits that go on over other links. Where nothing settles no store is asked.
pub fn take_out(stores: &mut Stores, settled: Settled)
    requires { HoldsPolicies stores.old }
    ensures carried { Carries stores.old stores.new (without_settled settled (state_of stores.old)) }
    ensures terminators { stores.new.terminators ≡ without_terms settled.terminators stores.old.terminators }
{
    if settled.links.is_empty()
        && settled.terminators.is_empty()
        && settled.ended.is_empty()
        && settled.moves.is_empty()
    {
        return;
    }
    stores.fabric.remove_each(&settled.links);
    stores.terminators.remove_each(&settled.terminators);
    stores.circuits.remove_each(&settled.ended);
    stores.circuits.move_each(settled.moves);
}
