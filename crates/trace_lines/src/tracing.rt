ghost use Rattle.std.specs.Prelude.{◌≡◌, IfOk};
ghost use Rattle.trace_lines.specs.SessionActs.{fault_traced};
ghost use Rattle.trace_lines.specs.ActRecords.{bytes_traced};

use crate::said::TraceFault;
use crate::seats::Seats;
use crate::turning::take_line;
use ctrl_model::Bytes;
use frame_lines::cut_line;
use std::alloc::{AllocError, Global};

/// The trace of a text's lines, and the first line that is at fault. Then the trace is that of the lines before it.
#[derive(Drop)]
pub struct Traced {
    pub bytes: Bytes,
    pub fault: Option<TraceFault>,
}

/// The trace that a text says, up to the first line that is at fault.
pub fn trace(alloc: Global, text: &[u8]) -> Result<Traced, AllocError>
    ensures bytes { IfOk result (λ t. t.bytes ≡ bytes_traced text.now) }
    ensures fault { IfOk result (λ t. t.fault ≡ fault_traced text.now) }
{
    let mut out = Vec::new(alloc);
    let mut seats = Seats::new(alloc)?;
    let mut number = 1u64;
    let mut rest = text;
    'lines: while !rest.is_empty() {
        let (line, after) = cut_line(rest);
        if let Err(cause) = take_line(alloc, &mut out, &mut seats, line)? {
            let line = number;
            return Ok(Traced {
                bytes: Bytes::of(out),
                fault: Some(TraceFault { line, cause }),
            });
        }
        number += 1;
        rest = after;
    }
    Ok(Traced {
        bytes: Bytes::of(out),
        fault: None,
    })
}
