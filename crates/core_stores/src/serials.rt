ghost use Rattle.std.specs.Prelude.{◌≡◌, ◌+◌, ◌<◌, ◌^◌, ◌∷◌, [], IfOk};
ghost use Rattle.row_codec.specs.Batches.{batch_of};
ghost use Rattle.row_writing.specs.RecordChanges.{serial_change_of};
ghost use Rattle.core_stores.specs.Serials.{with_serial};

use batch_codec::batch_of;
use row_codec::{Batch, Changes};
use row_writing::serial_change;
use std::alloc::{AllocError, Global};

// The put of the serial after one.
fn next_serial(alloc: Global, serial: u64) -> Result<Batch, AllocError>
    requires { serial + 1 < 2 ^ 64 }
    ensures { IfOk result (λ batch. batch ≡ batch_of (serial_change_of serial (serial + 1) ∷ [])) }
{
    let mut changes = Vec::new(alloc);
    changes.push(serial_change(alloc, serial, serial + 1)?)?;
    batch_of(alloc, &Changes::of(changes))
}

/// A batch with the put of the serial after one, where it changes something. One that changes nothing stays.
pub fn with_serial(alloc: Global, batch: Batch, serial: u64) -> Result<Batch, AllocError>
    requires { serial + 1 < 2 ^ 64 }
    ensures { IfOk result (λ counted. counted ≡ with_serial serial batch) }
{
    if batch.is_empty() {
        return Ok(batch);
    }
    let next = next_serial(alloc, serial)?;
    let mut ops = batch.items;
    let mut more = next.items;
    ops.append(&mut more)?;
    Ok(Batch::of(ops))
}
