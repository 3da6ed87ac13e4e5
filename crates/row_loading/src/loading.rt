ghost use Rattle.std.specs.Prelude.{◌≡◌, ℕ, [], ◌∷◌, ◌++◌, IfOk, IsErrOf, OnOk, if◌then◌else◌};
ghost use Rattle.std.specs.Option.{option_map};
ghost use Rattle.row_codec.specs.Batches.{entry_of};
ghost use Rattle.row_codec.specs.BatchReading.{comes_after};
ghost use Rattle.state_building.specs.declared.flaws.Flaw.{Flaw};
ghost use Rattle.state_building.specs.declared.flaws.Flaw.TheVariants.{OutOfOrder};
ghost use Rattle.row_codec.specs.declared.rows.Row.{Row};
ghost use Rattle.row_loading.specs.declared.faults.CoreFault.TheVariants.{NoMemory, NotAState};
ghost use Rattle.row_loading.specs.LoadedRows.{Loads};
ghost use Rattle.row_loading.specs.NextPuts.{Puts, PutsNone, PutsNext, PutsNoNext};
ghost use Rattle.row_loading.specs.RefusedRows.{AreUnread};

use crate::faults::CoreFault;
use ctrl_model::Format;
use row_codec::{Op, Row, RowFault};
use row_reading::read_row;
use state_building::Flaw;
use std::alloc::{AllocError, Global};

// The key of a change.
fn key_of(op: &Op) -> &[u8]
    ensures { result.now ≡ (entry_of op.now).0 }
{
    match op {
        Op::Put { key, .. } => key.as_slice(),
        Op::Delete { key } => key.as_slice(),
    }
}

// Whether a key comes after the last one, if there is one.
fn comes_after(last: Option<&[u8]>, key: &[u8]) -> bool
    ensures { result ≡ comes_after (option_map (λ l. l.now) last.entry) key.now }
{
    match last {
        None => true,
        Some(last) => last.cmp(key).is_lt(),
    }
}

// The row that a change puts. `BadRow` comes exactly where it puts none.
fn row_put(alloc: Global, format: Format, op: &Op) -> Result<Row, RowFault>
    ensures read { IfOk result (Puts format op.now) }
    ensures bad { IsErrOf result RowFault.BadRow → PutsNone format op.now }
    ensures never { IsErrOf result RowFault.BadBatch → ⊥ }
    ensures memory { IsErrOf result RowFault.NoMemory → (x : Row) × Puts format op.now x }
{
    match op {
        Op::Put { key, value } => read_row(alloc, format, key.as_slice(), value.as_slice()),
        Op::Delete { .. } => Err(RowFault::BadRow),
    }
}

// What is answered where memory is wanting for the row of a change, whose key may come too early all the same.
fn wanting(place: u64, comes: bool) -> CoreFault
    ensures { result ≡ (if comes then NoMemory else NotAState place OutOfOrder) }
{
    if comes {
        CoreFault::NoMemory
    } else {
        CoreFault::NotAState {
            place,
            flaw: Flaw::OutOfOrder,
        }
    }
}

// The row that the change at a place puts behind the last key.
fn next_row(
    alloc: Global,
    format: Format,
    place: u64,
    last: Option<&[u8]>,
    op: &Op,
) -> Result<Row, CoreFault>
    ensures read { IfOk result (PutsNext format (option_map (λ l. l.now) last.entry) op.now) }
    ensures place { (at : ℕ) (flaw : Flaw) → IsErrOf result (NotAState at flaw) → at ≡ place }
    ensures flaw { (at : ℕ) (flaw : Flaw) → IsErrOf result (NotAState at flaw) → PutsNoNext format flaw (option_map (λ l. l.now) last.entry) op.now }
    // Memory is wanted for the next row alone.
    ensures memory { IsErrOf result NoMemory → (x : Row) × PutsNext format (option_map (λ l. l.now) last.entry) op.now x }
{
    let comes = comes_after(last, key_of(op));
    let row = match row_put(alloc, format, op) {
        Ok(row) => row,
        Err(RowFault::NoMemory) => return Err(wanting(place, comes)),
        Err(_) => {
            return Err(CoreFault::NotAState {
                place,
                flaw: Flaw::NoRecord,
            });
        }
    };
    if !comes {
        return Err(CoreFault::NotAState {
            place,
            flaw: Flaw::OutOfOrder,
        });
    }
    Ok(row)
}

// A row comes behind the rows.
fn keep_row(rows: &mut Vec<Row>, row: Row) -> Result<(), AllocError>
    ensures { OnOk result (rows.new.items ≡ rows.old.items ++ row ∷ []) }
{
    Ok(rows.push(row)?)
}

/// The rows of a format that changes put, in the order of their keys. `NotAState` comes exactly where a change puts no row, or one whose key does
/// not come after that of the one before it, and tells the first such place.
pub fn read_rows(alloc: Global, format: Format, ops: &[Op]) -> Result<Vec<Row>, CoreFault>
    ensures read { IfOk result (λ rows. Loads format ops.now rows.items) }
    ensures unread { (place : ℕ) (flaw : Flaw) → IsErrOf result (NotAState place flaw) → AreUnread format ops.now place flaw }
{
    let mut rows = Vec::new(alloc);
    let mut last: Option<&[u8]> = None;
    'ops: for op in ops {
        let row = next_row(alloc, format, rows.len() as u64, last, op)?;
        keep_row(&mut rows, row)?;
        last = Some(key_of(op));
    }
    Ok(rows)
}
