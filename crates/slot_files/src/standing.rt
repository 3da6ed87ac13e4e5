ghost use Rattle.std.specs.Prelude.{◌≡◌, ◌<◌, IsTrue, IfOk, IfErr, IfSome};
ghost use Rattle.ziti_outside.specs.Causes.{HasCause};
ghost use Rattle.ziti_outside.specs.Untouched.{OnlyReads};
ghost use Rattle.slot_files.specs.FolderImage.{BeginsAs, IsHeaderOf, slot_of};
ghost use Rattle.slot_files.specs.OpenedSlots.{IsNamed, Finds};
ghost use Rattle.slot_files.specs.Faults.{disk_failure, FindFails};

use crate::faults::SlotFault;
use ctrl_model::Format;
use journal_core::{HEADER_LEN, header};
use ziti_outside::{Desk, Failed, Part};

/// The slot that stands.
#[derive(Clone, Copy, PartialEq, Eq)]
pub struct Standing {
    /// The slot.
    pub part: Part,
    /// How many bytes the mark has: at least 1.
    pub mark: u64,
    /// The format that the slot's header tells.
    pub format: Format,
}

/// The slot that a mark of so many bytes names.
pub fn slot_of(mark: u64) -> Part
    requires { 0 < mark }
    ensures { result ≡ slot_of mark }
{
    if (mark - 1) % 2 == 0 {
        Part::Zero
    } else {
        Part::One
    }
}

// The format whose header some bytes are.
fn format_of(bytes: &[u8; 8]) -> Option<Format>
    ensures { IsHeaderOf bytes.now result }
{
    if *bytes == header(Format::Two) {
        return Some(Format::Two);
    }
    if *bytes == header(Format::One) {
        return Some(Format::One);
    }
    None
}

// The format with whose header a part begins.
fn begins_as<D: Desk>(desk: &mut D, part: Part) -> Result<Option<Format>, Failed>
    ensures begins { IfOk result (λ found. IsTrue D.tells → BeginsAs ((D.seen desk.old).reads part) found) }
    ensures cause { HasCause (D.seen desk.old).disk_faults (D.seen desk.new).disk_faults result }
    ensures reads { OnlyReads D.seen D.stopped desk.old desk.new }
{
    if desk.len(part)? < HEADER_LEN {
        return Ok(None);
    }
    let mut bytes = [0u8; 8];
    desk.read_at(part, 0, &mut bytes)?;
    Ok(format_of(&bytes))
}

/// Finds the slot that stands, by the mark's length, or none where the mark is empty. It changes nothing.
///
/// `Damaged` names the slot and the place 0, and comes exactly where the mark is not empty and the slot that it names begins with the
/// header of no format. `MarkFull` never comes.
pub fn peek<D: Desk>(desk: &mut D) -> Result<Option<Standing>, SlotFault>
    ensures found { IfOk result (λ found. IsTrue D.tells → Finds (D.seen desk.old).reads found) }
    ensures named { IfOk result (λ found. IfSome found IsNamed) }
    ensures fault { IfErr result (λ fault. FindFails D.tells (D.seen desk.old).reads fault) }
    ensures cause { HasCause (D.seen desk.old).disk_faults (D.seen desk.new).disk_faults (disk_failure result) }
    ensures reads { OnlyReads D.seen D.stopped desk.old desk.new }
{
    let mark = desk.len(Part::Mark)?;
    if mark == 0 {
        return Ok(None);
    }
    let part = slot_of(mark);
    match begins_as(desk, part)? {
        Some(format) => Ok(Some(Standing { part, mark, format })),
        None => Err(SlotFault::Damaged { part, at: 0 }),
    }
}
