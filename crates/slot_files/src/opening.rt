ghost use Rattle.std.specs.Prelude.{◌≡◌, ◌≢◌, ◌<◌, [], length, ⊤, IsTrue, OnOk, IfOk, IfErr};
ghost use Rattle.ziti_outside.specs.declared.desk.Part.TheVariants.{One, Mark};
ghost use Rattle.ziti_outside.specs.Causes.{HasCause};
ghost use Rattle.ziti_outside.specs.Images.{After, IsStable};
ghost use Rattle.ziti_outside.specs.Moments.{Remembers, Leaves};
ghost use Rattle.ziti_outside.specs.Untouched.{OnlyDisk};
ghost use Rattle.journal_core.specs.Room.{empty_size, HoldsRoom};
ghost use Rattle.slot_files.specs.FolderImage.{StandsAsBefore};
ghost use Rattle.slot_files.specs.OpenedSlots.{IsNamed, IsOpened, IsCreated, OnlyOpens, Opens};
ghost use Rattle.slot_files.specs.Faults.{disk_failure, FindFails};

use crate::faults::SlotFault;
use crate::standing::{Standing, peek};
use ctrl_model::Format;
use journal_core::{empty_slot, put_down};
use ziti_outside::{Desk, Failed, Part};

// Creates a folder in which the mark is empty: the first slot, of a format, and then the mark.
fn create<D: Desk>(desk: &mut D, format: Format) -> Result<Standing, Failed>
    requires empty { IsTrue D.tells → (D.seen desk.old).reads Mark ≡ [] }
    requires stable { IsStable Mark (D.seen desk.old).reads (D.stopped desk.old).images }
    ensures named { IfOk result IsNamed }
    ensures format { IfOk result (λ standing. standing.format ≡ format) }
    ensures opened { IfOk result (λ standing. IsTrue D.tells → IsOpened standing (D.seen desk.new).reads (D.stopped desk.new).images) }
    ensures created { OnOk result (IsTrue D.tells → IsCreated format (D.seen desk.old).reads (D.seen desk.new).reads) }
    ensures second { (D.seen desk.new).reads One ≡ (D.seen desk.old).reads One }
    ensures cause { HasCause (D.seen desk.old).disk_faults (D.seen desk.new).disk_faults result }
    ensures others { OnlyDisk D.seen desk.old desk.new }
    ensures quiet { Leaves D.seen D.stopped desk.old desk.new (λ image. ⊤) }
    ensures stops { IsTrue D.tells → Leaves D.seen D.stopped desk.old desk.new (After (StandsAsBefore format) (D.stopped desk.old).images) }
    ensures remembers { Remembers (D.stopped desk.old) (D.stopped desk.new) }
    ensures room { HoldsRoom D.tells empty_size D.seen D.stopped desk.old desk.new }
{
    put_down(desk, Part::Zero, 0, &empty_slot(format))?;
    put_down(desk, Part::Mark, 0, &[0])?;
    Ok(Standing {
        part: Part::Zero,
        mark: 1,
        format,
    })
}

/// Opens the folder: finds the slot that stands, makes the mark and the slot stable, and creates the first slot, of this format, and the
/// mark where the mark is empty.
///
/// `Damaged` comes as `peek` has it, and then the folder reads as before. At every moment of the call, and after it, an image that
/// a stop may leave stands for what an image of its start stood for, and where the mark is not empty it is one of them. `MarkFull`
/// never comes.
pub fn open<D: Desk>(desk: &mut D, format: Format) -> Result<Standing, SlotFault>
    ensures named { IfOk result IsNamed }
    ensures format { IfOk result (λ standing. IsTrue D.tells → length ((D.seen desk.old).reads Mark) ≡ 0 → standing.format ≡ format) }
    ensures opened { IfOk result (λ standing. IsTrue D.tells → IsOpened standing (D.seen desk.new).reads (D.stopped desk.new).images) }
    ensures opens { OnOk result (IsTrue D.tells → Opens format (length ((D.seen desk.old).reads Mark)) (D.seen desk.old).reads (D.seen desk.new).reads) }
    ensures alone { OnlyOpens format D.tells D.seen D.stopped desk.old desk.new }
    ensures fault { IfErr result (λ fault. FindFails D.tells (D.seen desk.old).reads fault) }
    ensures cause { HasCause (D.seen desk.old).disk_faults (D.seen desk.new).disk_faults (disk_failure result) }
{
    desk.sync(Part::Mark)?;
    match peek(desk)? {
        None => Ok(create(desk, format)?),
        Some(standing) => {
            desk.sync(standing.part)?;
            Ok(standing)
        }
    }
}
