ghost use Rattle.std.specs.Prelude.{◌≡◌, ℕ, ◌≤◌, ◌==◌, true, false, length, filter, count_by, IfOk, OnErr};
ghost use Rattle.std.specs.Option.{ok_or};
ghost use Rattle.std.specs.Result.{result_map_both};
ghost use Rattle.ctrl_model.specs.declared.kinds.Kind.TheVariants as kind;
ghost use Rattle.ctrl_model.specs.Limits as limits;
ghost use Rattle.ctrl_model.specs.Numbered.{at, is_present, numbers};
ghost use Rattle.grant_denorm.specs.PairCounts.{count_of};
ghost use Rattle.circuits.specs.CircuitChanges.{without_circuits};
ghost use Rattle.circuits.specs.LostCircuits.{is_lost};
ghost use Rattle.circuits.specs.MovedCircuits.{with_links, with_moves};
ghost use Rattle.circuits.specs.CircuitTables.{no_circuits, is_full, with_circuit, without_circuit, with_next, KeepsCircuits};

use crate::ends::tally_in;
use crate::grants::{Circuit, CircuitView};
use crate::losses::{Loss, lost_in};
use crate::moves::{Moves, move_each, set_links};
use ctrl_model::{CircuitNo, Kind, Numbers, limit};
use grant_denorm::Counted;
use record_tables::NumberedTable;
use std::alloc::{AllocError, Global};
use std::collections::btree_map::Iter;
use std::marker::Model;
use thiserror::Error;

/// Why a circuit is not found.
#[derive(Clone, Copy, Debug, PartialEq, Eq, Error)]
pub enum CircuitFault {
    /// No circuit has the number.
    #[error("nothing has the number")]
    Unknown,
}

/// The circuits of a controller. Contracts see them as a table (`CircuitTables`).
#[derive(Drop)]
pub struct Circuits {
    granted: NumberedTable<Circuit>,
}

impl Model for Circuits {
    ghost use Rattle.std.specs.Prelude.{◌≤◌, length};
    ghost use Rattle.ctrl_model.specs.declared.kinds.Kind.TheVariants as kind;
    ghost use Rattle.ctrl_model.specs.Limits.{limit};
    ghost use Rattle.circuits.specs.CircuitTables.{CircuitTables};

    ghost Value = { CircuitTables };

    ghost view = { λ c. record { circuits = c.granted } };

    ghost invariant = { λ c. length c.granted.rows ≤ limit kind.Circuit };
}

impl Circuits {
    /// A store without circuits. The first gets the number 1.
    pub fn new(alloc: Global) -> Circuits
        ensures { result ≡ no_circuits }
    {
        Circuits {
            granted: NumberedTable::new(alloc),
        }
    }

    /// Whether no circuit can be added: as many are present as may be, or their numbers have run out (docs/RULES.md, "Circuits").
    pub fn is_full(&self) -> bool
        ensures { result ≡ is_full self.now }
    {
        !self.granted.has_room(limit(Kind::Circuit))
    }

    /// Adds a circuit under the next number, which it answers.
    pub fn add(&mut self, circuit: Circuit) -> Result<CircuitNo, AllocError>
        requires { is_full self.old ≡ false }
        ensures ok { IfOk result (λ n. (n.0 ≡ self.old.circuits.next) × (self.new ≡ with_circuit circuit self.old)) }
        ensures err { OnErr result (self.new ≡ self.old) }
    {
        let number = self.granted.add(circuit)?;
        Ok(CircuitNo(number))
    }

    /// The circuit that has the number. `Unknown` comes exactly where none has it.
    pub fn get(&self, no: CircuitNo) -> Result<&Circuit, CircuitFault>
        ensures { result_map_both (λ c. c.now) (λ fault. fault) result ≡ ok_or (at self.now.circuits.rows no.0) CircuitFault.Unknown }
    {
        self.granted.get(no.0).ok_or(CircuitFault::Unknown)
    }

    /// The circuit that has the number, lent. None exactly where none has it.
    pub fn seen(&self, no: CircuitNo) -> Option<CircuitView<'_>>
        ensures { result ≡ at self.now.circuits.rows no.0 }
    {
        match self.granted.get(no.0) {
            Some(circuit) => Some(CircuitView::of(circuit)),
            None => None,
        }
    }

    /// Gives a present circuit other links. All else of it stays.
    pub fn set_links(&mut self, no: CircuitNo, links: Numbers)
        requires { is_present self.old.circuits.rows no.0 ≡ true }
        ensures { self.new ≡ record self.old { circuits = with_links no.0 links self.old.circuits } }
    {
        set_links(&mut self.granted, no.0, links);
    }

    /// Moves circuits, where they are present. Where several moves name one circuit, the first counts.
    pub fn move_each(&mut self, moves: Moves)
        ensures { self.new ≡ with_moves moves self.old }
    {
        move_each(&mut self.granted, moves);
    }

    /// Removes a present circuit.
    pub fn remove(&mut self, no: CircuitNo)
        requires { is_present self.old.circuits.rows no.0 ≡ true }
        ensures { self.new ≡ without_circuit no.0 self.old }
    {
        self.granted.remove(no.0);
    }

    /// Removes the circuits of some numbers, where one is present.
    pub fn remove_each(&mut self, gone: &Numbers)
        ensures { self.new ≡ without_circuits gone.now self.old }
    {
        self.granted.remove_each(gone);
    }

    /// The numbers of the circuits that cannot stay as they are after a loss, ascending. It removes none.
    pub fn lost(&self, alloc: Global, loss: &Loss) -> Result<Numbers, AllocError>
        ensures { IfOk result (λ ns. ns ≡ numbers (filter (λ row. is_lost loss.now row.1) self.now.circuits.rows)) }
    {
        lost_in(alloc, &self.granted, loss)
    }

    /// The numbers of the present circuits, ascending.
    pub fn numbers(&self, alloc: Global) -> Result<Numbers, AllocError>
        ensures all { IfOk result (λ ns. ns ≡ numbers self.now.circuits.rows) }
        // The numbers ascend from 1 below the next one, and the limit is kept.
        ensures keeps { KeepsCircuits self.now }
    {
        self.granted.numbers(alloc)
    }

    /// The circuits under their numbers, in the order of the numbers.
    pub fn rows(&self) -> Iter<'_, u32, Circuit>
        ensures rows { result ≡ self.now.circuits.rows }
        // The numbers ascend from 1 below the next one, and the limit is kept.
        ensures keeps { KeepsCircuits self.now }
    {
        self.granted.rows()
    }

    /// How many circuits end at the terminator of each number: the count of the number and 0.
    pub fn tally(&self, alloc: Global) -> Result<Counted, AllocError>
        ensures tally { IfOk result (λ c. (n : ℕ) → count_of c n 0 ≡ count_by (λ row. row.1.terminator == n) self.now.circuits.rows) }
        ensures few { length self.now.circuits.rows ≤ limits.limit kind.Circuit }
    {
        tally_in(alloc, &self.granted)
    }

    /// How many circuits there are.
    pub fn count(&self) -> usize
        ensures count { result ≡ length self.now.circuits.rows }
        ensures few { result ≤ limits.limit kind.Circuit }
    {
        self.granted.len()
    }

    /// The number that the next circuit gets, 1 in a new store.
    pub fn next(&self) -> u32
        ensures next { result ≡ self.now.circuits.next }
        // The numbers ascend from 1 below it, and the limit is kept.
        ensures keeps { KeepsCircuits self.now }
    {
        self.granted.next()
    }

    /// Raises the next number.
    pub fn skip(&mut self, next: u32)
        requires { self.old.circuits.next ≤ next }
        ensures { self.new ≡ with_next next self.old }
    {
        self.granted.skip(next);
    }
}
