ghost use Rattle.std.specs.Prelude.{◌≡◌, IfOk, OnOk};
ghost use Rattle.std.specs.Option.{option_map};
ghost use Rattle.ctrl_model.specs.Numbered.{at, numbers, Between};
ghost use Rattle.circuits.specs.CircuitChanges.{circuits_after};
ghost use Rattle.circuits.specs.MovedCircuits.{moved, with_moves};

use crate::changes::CircuitChange;
use crate::grants::CircuitView;
use crate::moves::{Moves, moved_links};
use crate::store::Circuits;
use ctrl_model::{CircuitNo, Numbers};
use record_tables::{RecordChange, Turn, left_of, record_after, turned};
use std::alloc::{AllocError, Global};
use std::marker::Model;

/// The circuits as they will be after a change, if there is one, without those that are gone, and with those that are moved over
/// their other links. Contracts see them as a table (`CircuitTables`).
#[derive(Drop)]
pub struct CircuitsAfter<'a> {
    pub circuits: &'a Circuits,
    pub change: Option<&'a CircuitChange>,
    pub gone: &'a Numbers,
    pub moves: &'a Moves,
}

impl<'a> Model for CircuitsAfter<'a> {
    ghost use Rattle.std.specs.Prelude.{option_map};
    ghost use Rattle.circuits.specs.CircuitTables.{CircuitTables};
    ghost use Rattle.circuits.specs.CircuitChanges.{circuits_after};
    ghost use Rattle.circuits.specs.MovedCircuits.{with_moves};

    ghost Value = { CircuitTables };

    ghost view = { λ a. with_moves a.moves.now (circuits_after (option_map (λ c. c.now) a.change) a.gone.now a.circuits.now) };
}

impl<'a> RecordChange<CircuitView<'a>> for Option<&'a CircuitChange> {
    ghost use Rattle.std.specs.Prelude.{option_map};
    ghost use Rattle.circuits.specs.ChangedCircuits.{turn_of};

    ghost turn = { λ o. turn_of (option_map (λ c. c.now) o) };

    ghost set = { λ o c. c };

    fn turn(self) -> Turn<CircuitView<'a>> {
        match self {
            Some(CircuitChange::Add(circuit)) => Turn::Adds(CircuitView::of(circuit)),
            Some(CircuitChange::Remove(no)) => Turn::Removes(no.0),
            None => Turn::Keeps,
        }
    }

    fn set(self, circuit: CircuitView<'a>) -> CircuitView<'a> {
        circuit
    }
}

// A circuit under its number as moves have it.
fn moved<'a>(circuit: CircuitView<'a>, no: CircuitNo, moves: &'a Moves) -> CircuitView<'a>
    ensures { result ≡ moved moves.now (no.0, circuit.entry) }
{
    match moved_links(moves, no) {
        Some(links) => circuit.over(links),
        None => circuit,
    }
}

impl<'a> CircuitsAfter<'a> {
    /// The circuits after a change, if there is one, without those of some numbers, and with others moved.
    pub fn new(
        circuits: &'a Circuits,
        change: Option<&'a CircuitChange>,
        gone: &'a Numbers,
        moves: &'a Moves,
    ) -> CircuitsAfter<'a>
        ensures { result ≡ with_moves moves.now (circuits_after (option_map (λ c. c.now) change.entry) gone.now circuits.now) }
    {
        CircuitsAfter {
            circuits,
            change,
            gone,
            moves,
        }
    }

    /// The numbers of the circuits, ascending.
    pub fn numbers(&self, alloc: Global) -> Result<Numbers, AllocError>
        ensures all { IfOk result (λ ns. ns ≡ numbers self.now.circuits.rows) }
        ensures ordered { OnOk result (Between 1 self.now.circuits.next self.now.circuits.rows) }
    {
        let numbers = self.circuits.numbers(alloc)?;
        let changed = turned(alloc, self.change.turn(), self.circuits.next(), numbers)?;
        left_of(alloc, &changed, self.gone)
    }

    /// The circuit of the number, lent. None exactly where it will be absent.
    pub fn get(&self, no: CircuitNo) -> Option<CircuitView<'a>>
        ensures { result ≡ at self.now.circuits.rows no.0 }
    {
        let present = self.circuits.seen(no);
        // With it comes that the numbers ascend below it, so that no circuit has it yet.
        let next = self.circuits.next();
        let circuit = record_after(self.change, next, self.gone, no.0, present)?;
        Some(moved(circuit, no, self.moves))
    }
}
