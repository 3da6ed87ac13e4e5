ghost use Rattle.std.specs.Prelude.{◌≡◌, ℕ, true, IfOk, IfSome};
ghost use Rattle.std.specs.Option.{option_map};
ghost use Rattle.ctrl_model.specs.declared.formats.Format.{Format};
ghost use Rattle.ctrl_model.specs.declared.formats.Format.TheVariants.{Two};
ghost use Rattle.ctrl_model.specs.declared.kinds.Kind.TheVariants as kind;
ghost use Rattle.ctrl_model.specs.Membership.{Among};
ghost use Rattle.ctrl_model.specs.State.{State};
ghost use Rattle.record_tables.specs.Climbing.{Climbs};
ghost use Rattle.row_codec.specs.CoveredTables.{Covers};
ghost use Rattle.row_codec.specs.RowForm.{is_row, value_of};
ghost use Rattle.row_codec.specs.RowValues.{record_value};
ghost use Rattle.row_laws.specs.FittingRecords.{fits};
ghost use Rattle.row_writing.specs.RecordChanges.{value_at};
ghost use Rattle.circuits.specs.CircuitChanges.{circuits_after};
ghost use Rattle.circuits.specs.MovedCircuits.{moved_numbers, with_moves};
ghost use Rattle.circuit_settling.specs.CircuitRows.{HaveRows};

use circuits::{CircuitChange, CircuitView, Circuits, CircuitsAfter, Moves};
use ctrl_model::{CircuitNo, Kind, Numbers};
use record_tables::changed_number;
use row_codec::{Changes, Row};
use row_writing::{ChangedRows, touched_changes};
use std::alloc::{AllocError, Global};

// The row of a circuit under a number, if there is one.
fn row_of(no: CircuitNo, circuit: Option<CircuitView>) -> Result<Option<Row>, AllocError>
    requires { IfSome circuit (λ c. fits kind.Circuit c ≡ true) }
    ensures form { IfOk result (λ row. IfSome row (λ r. is_row Two r ≡ true)) }
    ensures value { IfOk result (λ row. option_map (value_of Two) row ≡ option_map (record_value kind.Circuit) circuit.entry) }
{
    let Some(circuit) = circuit else {
        return Ok(None);
    };
    let links = circuit.links.copy()?;
    Ok(Some(Row::Circuit {
        no,
        identity: circuit.identity,
        service: circuit.service,
        terminator: circuit.terminator,
        ingress: circuit.ingress,
        links,
    }))
}

// The circuits before a change and after it.
#[derive(Clone, Copy)]
struct CircuitRows<'a> {
    circuits: &'a Circuits,
    after: &'a CircuitsAfter<'a>,
}

impl<'a> ChangedRows for CircuitRows<'a> {
    ghost values_before = { λ r. value_at kind.Circuit r.circuits.now.circuits.rows };

    ghost values_after = { λ r. value_at kind.Circuit r.after.now.circuits.rows };

    ghost HaveRows = { λ r. HaveRows r.circuits.now × HaveRows r.after.now };

    fn rows_at(&self, number: u32) -> Result<(Option<Row>, Option<Row>), AllocError> {
        let no = CircuitNo(number);
        let before = row_of(no, self.circuits.seen(no))?;
        match row_of(no, self.after.get(no)) {
            Ok(after) => Ok((before, after)),
            Err(fault) => {
                drop(before);
                Err(fault)
            }
        }
    }
}

/// The changes of the rows of circuits by a change, if there is one, where those of some numbers are gone and others are moved. Touched
/// are, climbing, at least the numbers that are gone and those that are moved. Each circuit fits its row, now and then, as those of a
/// valid state do. An Err is want of memory.
pub fn circuit_changes(
    alloc: Global,
    circuits: &Circuits,
    change: Option<&CircuitChange>,
    touched: &Numbers,
    gone: &Numbers,
    moves: &Moves,
) -> Result<Changes, AllocError>
    requires climb { Climbs (λ n. n) touched.now }
    requires gone { (n : ℕ) → Among n gone.now → Among n touched.now }
    requires moved { (n : ℕ) → Among n (moved_numbers moves.now) → Among n touched.now }
    requires before { HaveRows circuits.now }
    requires after { HaveRows (with_moves moves.now (circuits_after (option_map (λ c. c.now) change) gone.now circuits.now)) }
    ensures { IfOk result (λ changes. (f : Format) (s t : State) → s.circuits ≡ circuits.now.circuits
        → t.circuits ≡ (with_moves moves.now (circuits_after (option_map (λ c. c.now) change.entry) gone.now circuits.now)).circuits → Covers f 11 12 s t changes) }
{
    let after = CircuitsAfter::new(circuits, change, gone, moves);
    let changed = changed_number(change, circuits.next());
    let rows = CircuitRows {
        circuits,
        after: &after,
    };
    let changes = touched_changes(alloc, Kind::Circuit, &rows, changed, touched)?;
    Ok(changes)
}
