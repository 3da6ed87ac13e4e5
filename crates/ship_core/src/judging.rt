ghost use Rattle.std.specs.Prelude.{◌≡◌, false, length, IsTrue, IfOk, IfErr, IfSome};
ghost use Rattle.ziti_outside.specs.declared.desk.Part.TheVariants.{Mark};
ghost use Rattle.ziti_outside.specs.Causes.{HasCause};
ghost use Rattle.ziti_outside.specs.Untouched.{OnlyReads};
ghost use Rattle.row_store.specs.StoredRows.{IsStoreOf};
ghost use Rattle.ship_core.specs.Faults.{fault_of, disk_failure, IsOfState, JudgesRows, FindFails, IsOpenedBy};

use crate::faults::{ShipFault, of_store};
use ctrl_core::{Core, CoreFault};
use ctrl_model::Format;
use row_store::Store;
use std::alloc::Global;
use ziti_outside::{Desk, Failed, Part};

// Judges whether the rows of a store are those of a state in its format.
fn judge(alloc: Global, store: &Store) -> Result<(), ShipFault>
    ensures { JudgesRows store.now (fault_of result) }
{
    let (part, at) = store.end();
    let rows = store.all()?;
    match Core::from_rows(alloc, store.format(), &rows) {
        Ok(core) => {
            drop(core);
            Ok(())
        }
        Err(CoreFault::NotAState { .. }) => Err(ShipFault::Damaged { part, at }),
        Err(CoreFault::NoMemory) => Err(ShipFault::NoMemory),
    }
}

// The store of a folder that opens to a state, by reading alone.
fn find<D: Desk>(alloc: Global, desk: &mut D) -> Result<Store, ShipFault>
    ensures kept { IfOk result (λ store. IsTrue D.tells → IsStoreOf (D.seen desk.old).reads store) }
    ensures state { IfOk result IsOfState }
    ensures fresh { IfOk result (λ store. store.spent ≡ false) }
    ensures fault { IfErr result (λ fault. FindFails D.tells (D.seen desk.old).reads fault) }
    ensures cause { HasCause (D.seen desk.old).disk_faults (D.seen desk.new).disk_faults (disk_failure (fault_of result)) }
    ensures reads { OnlyReads D.seen D.stopped desk.old desk.new }
{
    match Store::peek(alloc, desk, Format::Two) {
        Ok(store) => {
            judge(alloc, &store)?;
            Ok(store)
        }
        Err(fault) => Err(of_store(fault)),
    }
}

// How many bytes the mark has.
fn mark_len<D: Desk>(desk: &mut D) -> Result<u64, ShipFault>
    ensures len { IfOk result (λ n. IsTrue D.tells → n ≡ length ((D.seen desk.old).reads Mark)) }
    ensures fault { IfErr result (λ fault. fault ≡ ShipFault.Disk) }
    ensures cause { HasCause (D.seen desk.old).disk_faults (D.seen desk.new).disk_faults (disk_failure (fault_of result)) }
    ensures reads { OnlyReads D.seen D.stopped desk.old desk.new }
{
    match desk.len(Part::Mark) {
        Ok(len) => Ok(len),
        Err(Failed) => Err(ShipFault::Disk),
    }
}

/// The store of a folder that opens to a state, by reading alone; none where its mark is empty, and then the state is that at the start.
pub(crate) fn open<D: Desk>(alloc: Global, desk: &mut D) -> Result<Option<Store>, ShipFault>
    ensures opens { IfOk result (λ found. IsTrue D.tells → IsOpenedBy (D.seen desk.old).reads found) }
    ensures state { IfOk result (λ found. IfSome found IsOfState) }
    ensures fresh { IfOk result (λ found. IfSome found (λ store. store.spent ≡ false)) }
    ensures fault { IfErr result (λ fault. FindFails D.tells (D.seen desk.old).reads fault) }
    ensures cause { HasCause (D.seen desk.old).disk_faults (D.seen desk.new).disk_faults (disk_failure (fault_of result)) }
    ensures reads { OnlyReads D.seen D.stopped desk.old desk.new }
{
    let len = mark_len(desk)?;
    if len == 0 {
        return Ok(None);
    }
    let store = find(alloc, desk)?;
    Ok(Some(store))
}
