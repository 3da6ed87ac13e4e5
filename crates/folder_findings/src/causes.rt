ghost use Rattle.std.specs.Prelude.{◌≡◌, ◌⊎◌, IsTrue, IfOk, IfErr};
ghost use Rattle.ziti_outside.specs.Causes.{HasCause};
ghost use Rattle.ziti_outside.specs.Untouched.{OnlyReads};
ghost use Rattle.journal_core.specs.Faults.{disk_failure};
ghost use Rattle.folder_findings.specs.Causes.{IsCauseAt, IsRecordCause};

use batch_codec::read_batch;
use ctrl_model::Bytes;
use journal_core::{JournalFault, next_record};
use row_codec::RowFault;
use std::alloc::{AllocError, Global};
use ziti_outside::{Desk, Part};

/// Why a folder opens to no state.
#[derive(Clone, Copy, PartialEq, Eq)]
pub enum Cause {
    /// The slot that stands begins with the header of neither format.
    NoHeader,
    /// Neither a closed gate nor a whole record stands there.
    NoGate,
    /// The record there is no batch.
    NoBatch,
    /// The batch there does not go on from the rows before it.
    NoNext,
    /// The slot is whole, and its rows are those of no valid state.
    NoState,
}

/// Whether a folder opens to a state.
#[derive(Clone, Copy, PartialEq, Eq)]
pub enum Verdict {
    /// It does.
    Opens,
    /// It does not.
    Damaged {
        /// The slot that stands.
        part: Part,
        /// The first place at which it is damaged.
        at: u64,
        cause: Cause,
    },
}

// Why the record at a place is damage: it is no batch, or one that does not go on from the rows before it.
fn record_cause(alloc: Global, payload: &Bytes) -> Result<Cause, AllocError>
    ensures { IfOk result (λ cause. IsRecordCause payload.now cause) }
{
    match read_batch(alloc, payload.as_slice()) {
        Ok(_) => Ok(Cause::NoNext),
        Err(RowFault::NoMemory) => Err(AllocError),
        Err(_) => Ok(Cause::NoBatch),
    }
}

/// Why a folder is damaged at a place of the slot that stands, as far as what stands there tells. It changes nothing. `Damaged` and `Full`
/// never come.
pub fn cause_at<D: Desk>(
    alloc: Global,
    desk: &mut D,
    part: Part,
    at: u64,
) -> Result<Cause, JournalFault>
    ensures found { IfOk result (λ cause. IsTrue D.tells → IsCauseAt at ((D.seen desk.old).reads part) cause) }
    ensures fault { IfErr result (λ fault. (fault ≡ JournalFault.Disk) ⊎ (fault ≡ JournalFault.NoMemory)) }
    ensures cause { HasCause (D.seen desk.old).disk_faults (D.seen desk.new).disk_faults (disk_failure result) }
    ensures reads { OnlyReads D.seen D.stopped desk.old desk.new }
{
    if at == 0 {
        return Ok(Cause::NoHeader);
    }
    match next_record(alloc, desk, part, at) {
        Ok(None) => Ok(Cause::NoState),
        Ok(Some(payload)) => Ok(record_cause(alloc, &payload)?),
        Err(JournalFault::Damaged { .. }) => Ok(Cause::NoGate),
        Err(JournalFault::Disk) => Err(JournalFault::Disk),
        Err(JournalFault::NoMemory) => Err(JournalFault::NoMemory),
        Err(JournalFault::Full) => unreachable!(),
    }
}
