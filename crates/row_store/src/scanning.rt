ghost use Rattle.std.specs.Prelude.{◌≡◌, ◌++◌, ◌∷◌, [], OnOk, IfOk};
ghost use Rattle.slot_reading.specs.BatchRows.{rows_in, is_of_table, puts, puts_of};
ghost use Rattle.row_store.specs.WrittenRows.{each_as};

use crate::writing::{Writing, value_as};
use ctrl_model::Bytes;
use row_codec::{Batch, Op};
use slot_reading::{Rows, put_of};
use std::alloc::{AllocError, Global};

fn is_of_table(key: &[u8], table: u8) -> bool
    ensures { result ≡ is_of_table table key.now }
{
    match key.first() {
        None => false,
        Some(byte) => *byte == table,
    }
}

// Adds a row as a put where it is one of a table.
fn add_put(
    alloc: Global,
    items: &mut Vec<Op>,
    table: u8,
    key: &[u8],
    value: &Bytes,
) -> Result<(), AllocError>
    ensures { OnOk result (items.new.items ≡ items.old.items ++ puts_of table ((key.now, value.now) ∷ [])) }
{
    if is_of_table(key, table) {
        items.push(put_of(alloc, key, value.as_slice())?)?;
    }
    Ok(())
}

// The rows of a table as puts.
pub(crate) fn puts_of(alloc: Global, rows: &Rows, table: u8) -> Result<Batch, AllocError>
    ensures { IfOk result (λ batch. batch ≡ puts_of table (rows_in rows.now.entries)) }
{
    let mut items = Vec::new(alloc);
    'rows: for (key, value) in rows {
        add_put(alloc, &mut items, table, key.as_slice(), value)?;
    }
    Ok(Batch::of(items))
}

// All rows as puts of what is written.
pub(crate) fn puts(alloc: Global, rows: &Rows, writing: Writing) -> Result<Batch, AllocError>
    ensures { IfOk result (λ batch. batch ≡ puts (each_as writing (rows_in rows.now.entries))) }
{
    let mut items = Vec::new(alloc);
    'rows: for (key, value) in rows {
        let written = value_as(writing, key.as_slice(), value.as_slice());
        items.push(put_of(alloc, key.as_slice(), written)?)?;
    }
    Ok(Batch::of(items))
}
