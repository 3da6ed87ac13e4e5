ghost use Rattle.std.specs.Prelude.{◌≡◌, ◌+◌, ◌^◌, ◌<◌, ◌≤◌, ◌⊎◌, [], ◌∷◌, length, IsTrue, IfOk, IfErr};
ghost use Rattle.std.specs.Int.{w32, to_le_bytes};
ghost use Rattle.ziti_outside.specs.Causes.{HasCause};
ghost use Rattle.ziti_outside.specs.Images.{StandAt};
ghost use Rattle.ziti_outside.specs.Untouched.{OnlyReads};
ghost use Rattle.journal_core.specs.Slots.{GateGives};
ghost use Rattle.journal_core.specs.Heads.{IsHead};
ghost use Rattle.journal_core.specs.Faults.{disk_failure, ReadFails};

use crate::faults::JournalFault;
use crate::packing::OPEN;
use ctrl_model::Bytes;
use std::alloc::Global;
use ziti_outside::{Desk, Failed, Part};

/// How many bytes a gate and the length behind it have.
const HEAD: u64 = 5;

// The byte at a place.
fn byte_at<D: Desk>(desk: &mut D, part: Part, at: u64) -> Result<u8, Failed>
    ensures byte { IfOk result (λ byte. IsTrue D.tells → StandAt at (byte ∷ []) ((D.seen desk.old).reads part)) }
    ensures cause { HasCause (D.seen desk.old).disk_faults (D.seen desk.new).disk_faults result }
    ensures reads { OnlyReads D.seen D.stopped desk.old desk.new }
{
    let mut bytes = [0u8; 1];
    desk.read_at(part, at, &mut bytes)?;
    Ok(bytes[0])
}

// The number that four bytes are, the least first.
fn number_of(first: u8, second: u8, third: u8, fourth: u8) -> u32
    ensures bytes { to_le_bytes w32 result ≡ first ∷ second ∷ third ∷ fourth ∷ [] }
    ensures range { result < 2 ^ 32 }
{
    u32::from_le_bytes([first, second, third, fourth])
}

// The number that the four bytes from a place on are, the least first.
fn number_at<D: Desk>(desk: &mut D, part: Part, at: u64) -> Result<u32, Failed>
    ensures number { IfOk result (λ number. (number < 2 ^ 32) × (IsTrue D.tells → StandAt at (to_le_bytes w32 number) ((D.seen desk.old).reads part))) }
    ensures cause { HasCause (D.seen desk.old).disk_faults (D.seen desk.new).disk_faults result }
    ensures reads { OnlyReads D.seen D.stopped desk.old desk.new }
{
    let mut bytes = [0u8; 4];
    desk.read_at(part, at, &mut bytes)?;
    Ok(number_of(bytes[0], bytes[1], bytes[2], bytes[3]))
}

// So many bytes from a place on.
fn bytes_at<D: Desk>(
    alloc: Global,
    desk: &mut D,
    part: Part,
    at: u64,
    len: u32,
) -> Result<Bytes, JournalFault>
    ensures bytes { IfOk result (λ bytes. (length bytes ≡ len) × (IsTrue D.tells → StandAt at bytes ((D.seen desk.old).reads part))) }
    ensures fault { IfErr result (λ fault. (fault ≡ JournalFault.Disk) ⊎ (fault ≡ JournalFault.NoMemory)) }
    ensures cause { HasCause (D.seen desk.old).disk_faults (D.seen desk.new).disk_faults (disk_failure result) }
    ensures reads { OnlyReads D.seen D.stopped desk.old desk.new }
{
    let mut bytes = vec![in alloc; 0u8; len as usize]?;
    desk.read_at(part, at, bytes.as_mut_slice())?;
    Ok(Bytes::of(bytes))
}

// The length of the record behind the gate at a place, where the gate is open.
fn len_behind<D: Desk>(
    desk: &mut D,
    part: Part,
    at: u64,
    end: u64,
) -> Result<Option<u32>, JournalFault>
    requires end { IsTrue D.tells → end ≡ length ((D.seen desk.old).reads part) }
    ensures found { IfOk result (λ found. IsHead D.tells at end ((D.seen desk.old).reads part) found) }
    ensures fault { IfErr result (λ fault. ReadFails D.tells at ((D.seen desk.old).reads part) fault) }
    ensures cause { HasCause (D.seen desk.old).disk_faults (D.seen desk.new).disk_faults (disk_failure result) }
    ensures reads { OnlyReads D.seen D.stopped desk.old desk.new }
{
    if end <= at {
        return Err(JournalFault::Damaged { at });
    }
    if byte_at(desk, part, at)? != OPEN {
        return Ok(None);
    }
    if end - at < HEAD {
        return Err(JournalFault::Damaged { at });
    }
    let len = number_at(desk, part, at + 1)?;
    if end - at - HEAD < u64::from(len) {
        return Err(JournalFault::Damaged { at });
    }
    Ok(Some(len))
}

/// The record behind the gate at a place of a part, or none where the gate is closed. It changes nothing.
///
/// None comes exactly where a byte stands at the place and is not 1. `Damaged` names the place, and comes exactly where no byte
/// stands there, or it is 1 and the record passes the part's end. Want of memory comes only where a whole record stands there.
pub fn next_record<D: Desk>(
    alloc: Global,
    desk: &mut D,
    part: Part,
    at: u64,
) -> Result<Option<Bytes>, JournalFault>
    ensures found { IfOk result (λ found. IsTrue D.tells → GateGives at ((D.seen desk.old).reads part) found) }
    ensures fault { IfErr result (λ fault. ReadFails D.tells at ((D.seen desk.old).reads part) fault) }
    ensures cause { HasCause (D.seen desk.old).disk_faults (D.seen desk.new).disk_faults (disk_failure result) }
    ensures reads { OnlyReads D.seen D.stopped desk.old desk.new }
{
    let end = desk.len(part)?;
    match len_behind(desk, part, at, end)? {
        None => Ok(None),
        Some(len) => Ok(Some(bytes_at(alloc, desk, part, at + HEAD, len)?)),
    }
}
