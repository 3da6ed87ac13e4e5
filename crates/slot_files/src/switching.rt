ghost use Rattle.std.specs.Prelude.{◌≡◌, ◌+◌, ◌<◌, ◌++◌, ◌∷◌, [], IsTrue, OnOk, IfOk, IfErr};
ghost use Rattle.ziti_outside.specs.declared.desk.Part.TheVariants.{Mark};
ghost use Rattle.ziti_outside.specs.Causes.{HasCause};
ghost use Rattle.ziti_outside.specs.Images.{Else};
ghost use Rattle.slot_files.specs.OpenedSlots.{IsNamed, IsOpened};
ghost use Rattle.slot_files.specs.SwitchedSlots.{IsReady, IsSwitched, OnlySwitches, SwitchFails};
ghost use Rattle.slot_files.specs.Faults.{disk_failure};

use crate::faults::SlotFault;
use crate::standing::{Standing, slot_of};
use ctrl_model::Format;
use journal_core::put_down;
use ziti_outside::{Desk, Part};

/// Lets the other slot stand, which is a complete and stable one of a format: lengthens the mark by one byte, and makes it stable.
///
/// `MarkFull` comes exactly where the mark has at least `most` bytes, and then nothing was done. At every moment of the call, and
/// after it, an image that a stop may leave stands for what an image of its start stood for, or for what the other slot does. No slot grows.
pub fn switch<D: Desk>(
    desk: &mut D,
    standing: Standing,
    format: Format,
    most: u64,
) -> Result<Standing, SlotFault>
    requires named { IsNamed standing }
    requires ready { IsTrue D.tells → IsReady standing.mark format (D.seen desk.old).reads (D.stopped desk.old).images }
    ensures room { OnOk result (standing.mark < most) }
    ensures switched { IfOk result (λ now. IsSwitched standing now) }
    ensures format { IfOk result (λ now. now.format ≡ format) }
    ensures opened { IfOk result (λ now. IsTrue D.tells → IsOpened now (D.seen desk.new).reads (D.stopped desk.new).images) }
    ensures mark { OnOk result (IsTrue D.tells → (D.seen desk.new).reads Mark ≡ (D.seen desk.old).reads Mark ++ 0 ∷ []) }
    ensures elsewhere { Else Mark (D.seen desk.old).reads (D.seen desk.new).reads }
    ensures fault { IfErr result (λ fault. SwitchFails standing.mark most desk.old desk.new fault) }
    ensures cause { HasCause (D.seen desk.old).disk_faults (D.seen desk.new).disk_faults (disk_failure result) }
    ensures alone { OnlySwitches D.tells D.seen D.stopped standing.mark desk.old desk.new }
{
    if standing.mark >= most {
        return Err(SlotFault::MarkFull);
    }
    put_down(desk, Part::Mark, standing.mark, &[0])?;
    let mark = standing.mark + 1;
    Ok(Standing {
        part: slot_of(mark),
        mark,
        format,
    })
}
