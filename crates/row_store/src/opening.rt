ghost use Rattle.std.specs.Prelude.{◌≡◌, ◌<◌, length, IsTrue, OnOk, IfOk, IfErr, IfSome};
ghost use Rattle.ziti_outside.specs.declared.desk.Part.TheVariants.{Mark};
ghost use Rattle.ziti_outside.specs.Told.{IsFront};
ghost use Rattle.ziti_outside.specs.Causes.{HasCause};
ghost use Rattle.ziti_outside.specs.Untouched.{OnlyReads};
ghost use Rattle.journal_core.specs.Slots.{header};
ghost use Rattle.slot_files.specs.OpenedSlots.{IsNamed, IsOpened, OnlyOpens, Opens, Finds};
ghost use Rattle.row_codec.specs.RowDifference.{Rises};
ghost use Rattle.row_codec.specs.Batches.{bytes_cmp};
ghost use Rattle.slot_reading.specs.BatchRows.{ArePuttable, rows_in};
ghost use Rattle.slot_reading.specs.SlotReading.{IsReadWhole};
ghost use Rattle.row_store.specs.Faults.{disk_failure, LoadFails, OpenFails};

use crate::faults::{StoreFault, in_part};
use ctrl_model::Format;
use slot_files::{SlotFault, Standing};
use slot_reading::{Rows, read_slot};
use std::alloc::Global;
use ziti_outside::Desk;

// Finds the slot that stands, makes it stable, and creates it in a format where the mark is empty.
pub(crate) fn settle<D: Desk>(desk: &mut D, format: Format) -> Result<Standing, StoreFault>
    ensures named { IfOk result IsNamed }
    ensures format { IfOk result (λ standing. IsTrue D.tells → length ((D.seen desk.old).reads Mark) ≡ 0 → standing.format ≡ format) }
    ensures opened { IfOk result (λ standing. IsTrue D.tells → IsOpened standing (D.seen desk.new).reads (D.stopped desk.new).images) }
    ensures opens { OnOk result (IsTrue D.tells → Opens format (length ((D.seen desk.old).reads Mark)) (D.seen desk.old).reads (D.seen desk.new).reads) }
    ensures alone { OnlyOpens format D.tells D.seen D.stopped desk.old desk.new }
    ensures fault { IfErr result (λ fault. OpenFails D.tells (D.seen desk.old).reads fault) }
    ensures cause { HasCause (D.seen desk.old).disk_faults (D.seen desk.new).disk_faults (disk_failure result) }
{
    match slot_files::open(desk, format) {
        Ok(standing) => Ok(standing),
        Err(SlotFault::Disk) => Err(StoreFault::Disk),
        Err(SlotFault::Damaged { part, at }) => Err(StoreFault::Damaged { part, at }),
        Err(SlotFault::MarkFull) => Err(StoreFault::MarkFull),
    }
}

// Finds the slot that stands, or none where the mark is empty.
pub(crate) fn look<D: Desk>(desk: &mut D) -> Result<Option<Standing>, StoreFault>
    ensures found { IfOk result (λ found. IsTrue D.tells → Finds (D.seen desk.old).reads found) }
    ensures named { IfOk result (λ found. IfSome found IsNamed) }
    ensures fault { IfErr result (λ fault. OpenFails D.tells (D.seen desk.old).reads fault) }
    ensures cause { HasCause (D.seen desk.old).disk_faults (D.seen desk.new).disk_faults (disk_failure result) }
    ensures reads { OnlyReads D.seen D.stopped desk.old desk.new }
{
    match slot_files::peek(desk) {
        Ok(found) => Ok(found),
        Err(SlotFault::Disk) => Err(StoreFault::Disk),
        Err(SlotFault::Damaged { part, at }) => Err(StoreFault::Damaged { part, at }),
        Err(SlotFault::MarkFull) => Err(StoreFault::MarkFull),
    }
}

// The rows of the slot that stands, and the place of its closed gate.
pub(crate) fn load<D: Desk>(
    alloc: Global,
    desk: &mut D,
    standing: Standing,
) -> Result<(Rows, u64), StoreFault>
    requires { IsTrue D.tells → IsFront (header standing.format) ((D.seen desk.old).reads standing.part) }
    ensures whole { IfOk result (λ read. IsTrue D.tells → IsReadWhole standing.format ((D.seen desk.old).reads standing.part) read.1 (rows_in read.0.entries)) }
    ensures rises { IfOk result (λ read. Rises bytes_cmp (rows_in read.0.entries)) }
    ensures puttable { IfOk result (λ read. ArePuttable (rows_in read.0.entries)) }
    ensures fault { IfErr result (λ fault. LoadFails D.tells standing.format standing.part ((D.seen desk.old).reads standing.part) fault) }
    ensures cause { HasCause (D.seen desk.old).disk_faults (D.seen desk.new).disk_faults (disk_failure result) }
    ensures reads { OnlyReads D.seen D.stopped desk.old desk.new }
{
    let mut rows = Rows::new(alloc);
    match read_slot(alloc, desk, standing.format, standing.part, &mut rows) {
        Ok(end) => Ok((rows, end)),
        Err(fault) => Err(in_part(standing.part, fault)),
    }
}
