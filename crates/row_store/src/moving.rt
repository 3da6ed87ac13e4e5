ghost use Rattle.std.specs.Prelude.{◌≡◌, ℕ, ◌+◌, ◌<◌, ◌++◌, ◌∷◌, [], ⊤, length, IsTrue, OnOk, IfOk, IfErr};
ghost use Rattle.ziti_outside.specs.declared.desk.Part.TheVariants.{Mark};
ghost use Rattle.ziti_outside.specs.Causes.{HasCause};
ghost use Rattle.ziti_outside.specs.Images.{Else};
ghost use Rattle.ziti_outside.specs.Moments.{Remembers, Leaves};
ghost use Rattle.ziti_outside.specs.Untouched.{OnlyDisk};
ghost use Rattle.journal_core.specs.Room.{HoldsRoom};
ghost use Rattle.slot_files.specs.FolderImage.{slot_of};
ghost use Rattle.slot_files.specs.OpenedSlots.{IsNamed, IsOpened};
ghost use Rattle.slot_files.specs.SwitchedSlots.{other_slot, IsReady, IsSwitched, OnlySwitches};
ghost use Rattle.row_store.specs.MovedSlots.{IsSlot, StandsByOne, IsMoved};
ghost use Rattle.row_store.specs.Faults.{disk_failure};

use crate::faults::StoreFault;
use ctrl_model::Format;
use journal_core::put_down;
use slot_files::{SlotFault, Standing, switch};
use ziti_outside::{Desk, Part};

// The slot beside one.
fn other_of(part: Part) -> Part
    ensures { (mark : ℕ) → 0 < mark → part ≡ slot_of mark → result ≡ other_slot mark }
{
    match part {
        Part::Zero => Part::One,
        Part::One | Part::Mark => Part::Zero,
    }
}

// Lets the other slot stand where the mark has room. Its only fault is that of the disk.
fn let_stand<D: Desk>(
    desk: &mut D,
    standing: Standing,
    format: Format,
    most: u64,
) -> Result<Standing, StoreFault>
    requires named { IsNamed standing }
    requires room { standing.mark < most }
    requires ready { IsTrue D.tells → IsReady standing.mark format (D.seen desk.old).reads (D.stopped desk.old).images }
    ensures switched { IfOk result (λ now. IsSwitched standing now) }
    ensures format { IfOk result (λ now. now.format ≡ format) }
    ensures opened { IfOk result (λ now. IsTrue D.tells → IsOpened now (D.seen desk.new).reads (D.stopped desk.new).images) }
    ensures mark { OnOk result (IsTrue D.tells → (D.seen desk.new).reads Mark ≡ (D.seen desk.old).reads Mark ++ 0 ∷ []) }
    ensures elsewhere { Else Mark (D.seen desk.old).reads (D.seen desk.new).reads }
    ensures fault { IfErr result (λ fault. fault ≡ StoreFault.Disk) }
    ensures cause { HasCause (D.seen desk.old).disk_faults (D.seen desk.new).disk_faults (disk_failure result) }
    ensures alone { OnlySwitches D.tells D.seen D.stopped standing.mark desk.old desk.new }
{
    match switch(desk, standing, format, most) {
        Ok(now) => Ok(now),
        Err(SlotFault::Disk) => Err(StoreFault::Disk),
        Err(SlotFault::Damaged { part, at }) => Err(StoreFault::Damaged { part, at }),
        Err(SlotFault::MarkFull) => Err(StoreFault::MarkFull),
    }
}

// Lets the other slot stand where the mark has room, and cuts the one that stood.
fn stand_alone<D: Desk>(
    desk: &mut D,
    standing: Standing,
    format: Format,
    most: u64,
) -> Result<Standing, StoreFault>
    requires named { IsNamed standing }
    requires room { standing.mark < most }
    requires ready { IsTrue D.tells → IsReady standing.mark format (D.seen desk.old).reads (D.stopped desk.old).images }
    ensures switched { IfOk result (λ now. IsSwitched standing now) }
    ensures format { IfOk result (λ now. now.format ≡ format) }
    ensures opened { IfOk result (λ now. IsTrue D.tells → IsOpened now (D.seen desk.new).reads (D.stopped desk.new).images) }
    ensures mark { OnOk result (IsTrue D.tells → (D.seen desk.new).reads Mark ≡ (D.seen desk.old).reads Mark ++ 0 ∷ []) }
    ensures other { OnOk result ((D.seen desk.new).reads (other_slot standing.mark) ≡ (D.seen desk.old).reads (other_slot standing.mark)) }
    ensures cut { OnOk result (IsTrue D.tells → (D.seen desk.new).reads standing.part ≡ []) }
    ensures fault { IfErr result (λ fault. fault ≡ StoreFault.Disk) }
    ensures cause { HasCause (D.seen desk.old).disk_faults (D.seen desk.new).disk_faults (disk_failure result) }
    ensures alone { OnlySwitches D.tells D.seen D.stopped standing.mark desk.old desk.new }
{
    let now = let_stand(desk, standing, format, most)?;
    desk.cut(standing.part, 0)?;
    Ok(now)
}

// Writes a slot of a format over the front of the one that does not stand, lets it stand where the mark has room, and cuts the one that stood.
// Its only fault is that of the disk. Whatever comes of it, a stop at any moment leaves a folder that stands for what the slot that
// stood has, or for what the new one has.
pub(crate) fn move_to<D: Desk>(
    desk: &mut D,
    standing: Standing,
    format: Format,
    most: u64,
    slot: &[u8],
) -> Result<Standing, StoreFault>
    requires named { IsNamed standing }
    requires room { standing.mark < most }
    requires whole { IsSlot format slot.now }
    requires opened { IsTrue D.tells → IsOpened standing (D.seen desk.old).reads (D.stopped desk.old).images }
    ensures switched { IfOk result (λ now. IsSwitched standing now) }
    ensures format { IfOk result (λ now. now.format ≡ format) }
    ensures opened { IfOk result (λ now. IsTrue D.tells → IsOpened now (D.seen desk.new).reads (D.stopped desk.new).images) }
    ensures moved { OnOk result (IsTrue D.tells → IsMoved standing slot.now (D.seen desk.old).reads (D.seen desk.new).reads) }
    ensures fault { IfErr result (λ fault. fault ≡ StoreFault.Disk) }
    ensures cause { HasCause (D.seen desk.old).disk_faults (D.seen desk.new).disk_faults (disk_failure result) }
    ensures others { OnlyDisk D.seen desk.old desk.new }
    ensures quiet { Leaves D.seen D.stopped desk.old desk.new (λ image. ⊤) }
    ensures stops { IsTrue D.tells → Leaves D.seen D.stopped desk.old desk.new
        (StandsByOne ((D.seen desk.old).reads standing.part) slot.now) }
    ensures remembers { Remembers (D.stopped desk.old) (D.stopped desk.new) }
    ensures slots { HoldsRoom D.tells (length slot.now) D.seen D.stopped desk.old desk.new }
{
    put_down(desk, other_of(standing.part), 0, slot)?;
    stand_alone(desk, standing, format, most)
}
