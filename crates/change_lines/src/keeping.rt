ghost use Rattle.std.specs.Prelude.{◌≡◌, IfOk, map, true};
ghost use Rattle.std.specs.List.{list_all};
ghost use Rattle.ctrl_model.specs.declared.formats.Format.{Format as Formats};
ghost use Rattle.ctrl_model.specs.declared.formats.Format.TheVariants.{Two};
ghost use Rattle.ctrl_model.specs.State.{State};
ghost use Rattle.row_codec.specs.RowForm.{is_row};
ghost use Rattle.row_loading.specs.LoadedRows.{put_of};
ghost use Rattle.slot_reading.specs.BatchRows.{puts, rows_in};
ghost use Rattle.change_lines.specs.KeptRows.{AreKeptOf};
ghost use Rattle.change_lines.specs.RowChanges.{AreRowsOf};

use ctrl_model::Format;
use row_codec::{Batch, Op, Row};
use row_loading::{CoreFault, read_rows};
use row_writing::write_row;
use slot_reading::{Rows, change_all, puts};
use std::alloc::{AllocError, Global};
use std::collections::BTreeMap;

// The change that puts a row.
fn put_of(alloc: Global, row: &Row) -> Result<Op, AllocError>
    requires { is_row Two row.now ≡ true }
    ensures { IfOk result (λ op. op ≡ put_of Two row.now) }
{
    let (key, value) = write_row(alloc, Format::Two, row)?;
    Ok(Op::Put { key, value })
}

// The changes that put rows.
fn puts_of(alloc: Global, rows: &[Row]) -> Result<Batch, AllocError>
    requires { list_all (is_row Two) rows.now ≡ true }
    ensures { IfOk result (λ batch. batch ≡ map (put_of Two) rows.now) }
{
    let mut items = Vec::new(alloc);
    'rows: for row in rows {
        items.push(put_of(alloc, row)?)?;
    }
    Ok(Batch::of(items))
}

/// The rows of a state under their keys, as the second format keeps them. All of them are given, as they were read of
/// a format.
pub(crate) fn kept_rows(alloc: Global, rows: &[Row]) -> Result<Rows, AllocError>
    requires { (f : Formats) × (s : State) × AreRowsOf f s rows.now }
    ensures { IfOk result (λ kept. (f : Formats) (s : State) → AreRowsOf f s rows.now → AreKeptOf s (rows_in kept.entries)) }
{
    let mut kept = BTreeMap::new(alloc);
    let batch = puts_of(alloc, rows)?;
    change_all(alloc, &mut kept, batch.as_slice())?;
    Ok(kept)
}

/// The rows of a state that are kept, as they are read.
pub(crate) fn rows_kept(alloc: Global, kept: &Rows) -> Result<Vec<Row>, AllocError>
    requires { (s : State) × AreKeptOf s (rows_in kept.now.entries) }
    ensures { IfOk result (λ rows. (s : State) → AreKeptOf s (rows_in kept.now.entries) → AreRowsOf Two s rows.items) }
{
    let batch = puts(alloc, kept)?;
    match read_rows(alloc, Format::Two, batch.as_slice()) {
        Ok(rows) => Ok(rows),
        Err(CoreFault::NotAState { .. }) => unreachable!(),
        Err(CoreFault::NoMemory) => Err(AllocError),
    }
}
