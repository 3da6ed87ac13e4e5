ghost use Rattle.std.specs.Prelude.{◌≡◌, ◌↔◌, ◌+◌, ◌^◌, ◌<◌, ◌≤◌, ⊤, length, IsTrue, OnOk, IfOk, IfErr};
ghost use Rattle.ziti_outside.specs.Causes.{HasCause};
ghost use Rattle.ziti_outside.specs.Images.{Holds, Torn, Else, OnPart, After, IsStable};
ghost use Rattle.ziti_outside.specs.Moments.{Remembers, Leaves};
ghost use Rattle.ziti_outside.specs.Untouched.{OnlyDisk};
ghost use Rattle.journal_core.specs.AppendedRecords.{OnlyAppends};
ghost use Rattle.journal_core.specs.Slots.{IsClosed, text_of, added, ShutOrAdded};
ghost use Rattle.journal_core.specs.Faults.{disk_failure, AppendFails};
ghost use Rattle.journal_core.specs.Room.{HoldsRoom};

use crate::faults::JournalFault;
use crate::packing::{OPEN, Packed};
use ziti_outside::{Desk, Failed, Part};

/// Writes bytes at a place of a part, behind whose end it does not lie, and makes the part stable.
///
/// Until then a stop may find any bytes in their range.
pub fn put_down<D: Desk>(desk: &mut D, part: Part, at: u64, bytes: &[u8]) -> Result<(), Failed>
    requires within { IsTrue D.tells → at ≤ length ((D.seen desk.old).reads part) }
    ensures written { OnOk result (IsTrue D.tells → Holds at bytes.now ((D.seen desk.old).reads part) ((D.seen desk.new).reads part)) }
    ensures torn { IsTrue D.tells → Torn at (length bytes.now) ((D.seen desk.old).reads part) ((D.seen desk.new).reads part) }
    ensures stable { OnOk result (IsStable part (D.seen desk.new).reads (D.stopped desk.new).images) }
    ensures elsewhere { Else part (D.seen desk.old).reads (D.seen desk.new).reads }
    ensures cause { HasCause (D.seen desk.old).disk_faults (D.seen desk.new).disk_faults result }
    ensures others { OnlyDisk D.seen desk.old desk.new }
    ensures stops { Leaves D.seen D.stopped desk.old desk.new
        (After (OnPart part (Torn at (length bytes.now))) (D.stopped desk.old).images) }
    ensures room { HoldsRoom D.tells (at + length bytes.now) D.seen D.stopped desk.old desk.new }
    ensures remembers { Remembers (D.stopped desk.old) (D.stopped desk.new) }
{
    desk.write_at(part, at, bytes)?;
    desk.sync(part)
}

// Whether a gate, a text behind it, and all before them stay within a bound.
fn fits(at: u64, len: usize, most: u64) -> bool
    ensures { IsTrue result ↔ (at + 1 + len ≤ most) }
{
    at < most.saturating_sub(len as u64)
}

// Writes a text behind a closed gate, and then opens the gate.
fn add_text<D: Desk>(desk: &mut D, part: Part, at: u64, text: &[u8]) -> Result<(), Failed>
    requires closed { IsTrue D.tells → IsClosed at ((D.seen desk.old).reads part) }
    requires stable { IsTrue D.tells → IsStable part (D.seen desk.old).reads (D.stopped desk.old).images }
    requires within { at + 1 + length text.now < 2 ^ 64 }
    ensures added { OnOk result (IsTrue D.tells → (D.seen desk.new).reads part ≡ added at text.now ((D.seen desk.old).reads part)) }
    ensures stable { OnOk result (IsStable part (D.seen desk.new).reads (D.stopped desk.new).images) }
    ensures elsewhere { Else part (D.seen desk.old).reads (D.seen desk.new).reads }
    ensures cause { HasCause (D.seen desk.old).disk_faults (D.seen desk.new).disk_faults result }
    ensures others { OnlyDisk D.seen desk.old desk.new }
    ensures quiet { Leaves D.seen D.stopped desk.old desk.new (λ image. ⊤) }
    ensures stops { IsTrue D.tells → Leaves D.seen D.stopped desk.old desk.new
        (After (OnPart part (ShutOrAdded at text.now)) (D.stopped desk.old).images) }
    ensures room { HoldsRoom D.tells (at + 1 + length text.now) D.seen D.stopped desk.old desk.new }
    ensures remembers { Remembers (D.stopped desk.old) (D.stopped desk.new) }
{
    put_down(desk, part, at + 1, text)?;
    put_down(desk, part, at, &[OPEN])
}

/// Appends a record at the closed gate `at` of a part in which nothing is pending, and answers the place of the next gate. The
/// slot counts as `at` + 6 + the payload's length bytes, which may not pass `most`.
///
/// The record and a closed gate are written behind the gate and made stable before the gate is opened, so a stop at any moment
/// leaves the slot without the record or with it, whole. It takes no memory.
pub fn append<D: Desk>(
    desk: &mut D,
    part: Part,
    at: u64,
    packed: &Packed,
    most: u64,
) -> Result<u64, JournalFault>
    requires closed { IsTrue D.tells → IsClosed at ((D.seen desk.old).reads part) }
    requires stable { IsTrue D.tells → IsStable part (D.seen desk.old).reads (D.stopped desk.old).images }

    // The part then has that record and no other change, nothing is pending in it, and a closed gate stands at the answer.
    ensures next { IfOk result (λ next. (next ≡ at + 5 + length packed.now) × (next < most)) }
    ensures added { OnOk result (IsTrue D.tells → (D.seen desk.new).reads part ≡ added at (text_of packed.now) ((D.seen desk.old).reads part)) }
    ensures closed { IfOk result (λ next. IsTrue D.tells → IsClosed next ((D.seen desk.new).reads part)) }
    ensures stable { OnOk result (IsStable part (D.seen desk.new).reads (D.stopped desk.new).images) }

    // Full comes exactly where the record would pass the bound, and then nothing was done. Disk has its cause, and else nothing
    // is told.
    ensures fault { IfErr result (λ fault. AppendFails (at + 6 + length packed.now) most fault) }
    ensures full { most < at + 6 + length packed.now → desk.new ≡ desk.old }
    ensures cause { HasCause (D.seen desk.old).disk_faults (D.seen desk.new).disk_faults (disk_failure result) }

    // Whatever comes of it, a stop at any moment leaves in the part nothing added or the record whole, and all else as it was. Nor
    // does it make a slot longer than the bound, neither as the desk reads nor in what a stop leaves.
    ensures alone { OnlyAppends D.tells D.seen D.stopped part (ShutOrAdded at (text_of packed.now)) most desk.old desk.new }
{
    let text = packed.text();
    if !fits(at, text.len(), most) {
        return Err(JournalFault::Full);
    }
    add_text(desk, part, at, text)?;
    Ok(at + text.len() as u64)
}
