ghost use Rattle.std.specs.Prelude.{◌≡◌, IfOk};
ghost use Rattle.slot_reading.specs.BatchRows.{puts, rows_in};

use crate::changing::Rows;
use ctrl_model::Bytes;
use row_codec::{Batch, Op};
use std::alloc::{AllocError, Global};

/// The operation that puts a value under a key.
pub fn put_of(alloc: Global, key: &[u8], value: &[u8]) -> Result<Op, AllocError>
    ensures { IfOk result (λ op. op ≡ Op.Put key.now value.now) }
{
    let key = Bytes::from_slice(alloc, key)?;
    let value = Bytes::from_slice(alloc, value)?;
    Ok(Op::Put { key, value })
}

/// Rows as puts, in the order of their keys.
pub fn puts(alloc: Global, rows: &Rows) -> Result<Batch, AllocError>
    ensures { IfOk result (λ batch. batch ≡ puts (rows_in rows.now.entries)) }
{
    let mut items = Vec::new(alloc);
    'rows: for (key, value) in rows {
        items.push(put_of(alloc, key.as_slice(), value.as_slice())?)?;
    }
    Ok(Batch::of(items))
}
