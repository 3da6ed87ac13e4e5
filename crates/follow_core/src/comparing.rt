ghost use Rattle.std.specs.Prelude.{◌≡◌, ◌≤◌, ◌<◌, ◌^◌, length, IfOk, IfSome};
ghost use Rattle.std.specs.Option.{option_map};
ghost use Rattle.row_codec.specs.Batches.{batch_bytes, IsBatch};
ghost use Rattle.follow_core.specs.Following.{beside, first_other};

use crate::taken::Taken;
use batch_codec::write_batch;
use row_codec::Batch;
use ship_frames::Shipment;
use std::alloc::{AllocError, Global};

// The first place at which bytes differ from others, or where the shorter ones end.
fn first_other(these: &[u8], others: &[u8]) -> usize
    ensures place { result ≡ first_other these.now others.now }
    ensures within { result ≤ length others.now }
{
    let mut at = 0;
    let mut left = these;
    let mut right = others;
    'bytes: while let Some((x, more)) = left.split_first() {
        let Some((y, later)) = right.split_first() else {
            return at;
        };
        if *x != *y {
            return at;
        }
        at += 1;
        left = more;
        right = later;
    }
    at
}

/// What a batch is beside the kept one of its sort and serial, if there is one.
pub(crate) fn beside(
    alloc: Global,
    shipment: &Shipment,
    kept: Option<Batch>,
) -> Result<Taken, AllocError>
    requires short { length shipment.now.bytes < 2 ^ 32 }
    requires batch { IfSome kept IsBatch }
    ensures { IfOk result (λ taken. taken ≡ beside shipment.now (option_map batch_bytes kept)) }
{
    let Some(batch) = kept else {
        return Ok(Taken::Old);
    };
    let bytes = write_batch(alloc, &batch)?;
    if bytes.as_slice() == shipment.bytes.as_slice() {
        return Ok(Taken::Repeat);
    }
    Ok(Taken::Differs {
        serial: shipment.serial,
        at: first_other(bytes.as_slice(), shipment.bytes.as_slice()) as u32,
    })
}
