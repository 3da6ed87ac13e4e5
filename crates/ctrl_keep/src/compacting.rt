ghost use Rattle.std.specs.Prelude.{◌≡◌, ⊤, true, false, IsTrue, OnOk, OnErr, IfOk, IfErr, IsErrOf};
ghost use Rattle.ziti_outside.specs.Causes.{HasCause};
ghost use Rattle.ziti_outside.specs.Moments.{Remembers, Leaves};
ghost use Rattle.ziti_outside.specs.Untouched.{OnlyDisk};
ghost use Rattle.journal_core.specs.Room.{HoldsRoom};
ghost use Rattle.row_store.specs.StoredRows.{ReadsAs};
ghost use Rattle.row_store.specs.RewrittenStores.{IsRewritten};
ghost use Rattle.ctrl_core.specs.KeptFormat.{kept_format};
ghost use Rattle.row_store.specs.OpenedStates.{OpensToState};
ghost use Rattle.ctrl_keep.specs.KeptMachine.{is_compact, compacted_at};
ghost use Rattle.ctrl_keep.specs.KeptBatches.{Follows};
ghost use Rattle.ctrl_keep.specs.KeptController.{place_of, machine_with, Keeps};
ghost use Rattle.ctrl_keep.specs.CompactionReplies.{compaction_reply};
ghost use Rattle.ctrl_keep.specs.Faults.{disk_failure, AdvanceFails};
ghost use Rattle.ctrl_model.specs.declared.replies.Reply.TheVariants.{Done};

use crate::faults::KeepFault;
use ctrl_core::Core;
use ctrl_model::{Command, Refusal, Reply};
use row_store::{Store, StoreFault};
use ziti_outside::Desk;

// Whether a command is Compact.
pub(crate) fn is_compact(command: &Command) -> bool
    ensures { result ≡ is_compact command.now }
{
    matches!(command, Command::Compact)
}

// The reply to Compact, or the fault, that comes of compacting a store.
fn reply_of(compacted: Result<(), StoreFault>) -> Result<Reply, KeepFault>
    ensures { result ≡ compaction_reply compacted }
{
    match compacted {
        Ok(()) => Ok(Reply::Done),
        Err(StoreFault::Full) => Ok(Reply::Refused(Refusal::JournalFull)),
        Err(StoreFault::MarkFull) => Ok(Reply::Refused(Refusal::MarkFull)),
        Err(StoreFault::Disk) => Err(KeepFault::Disk),
        Err(StoreFault::NoMemory) => Err(KeepFault::NoMemory),
        Err(StoreFault::Damaged { part, at }) => Err(KeepFault::Damaged { part, at }),
        Err(StoreFault::Spent) => Err(KeepFault::Spent),
    }
}

// Compacts the store that keeps the state of a core, or tells which of its bounds has no room. The state stays.
pub(crate) fn compact<D: Desk>(
    core: &Core,
    store: &mut Store,
    spent: &mut bool,
    desk: &mut D,
) -> Result<Reply, KeepFault>
    requires keeps { Keeps core.now store.old }
    requires unspent { spent.old ≡ false }
    requires stands { IsTrue D.tells → ReadsAs store.old (D.seen desk.old).reads (D.stopped desk.old).images }

    ensures step { IfOk result (λ reply. (reply, machine_with core.now.state store.new) ≡ compacted_at store.old.bounds core.now.state (place_of store.old)) }
    ensures still { OnOk result (machine_with core.now.state store.new ≡ machine_with core.now.state store.old → desk.new ≡ desk.old) }
    ensures follows { OnOk result (IsTrue D.tells → Follows (machine_with core.now.state store.old) (machine_with core.now.state store.new) (D.seen desk.old).reads (D.seen desk.new).reads) }
    ensures unspent { OnOk result ((spent.new ≡ false) × (store.new.bounds ≡ store.old.bounds)) }
    ensures folder { IfOk result (λ reply. reply ≡ Done → IsTrue D.tells → IsRewritten kept_format store.old.rows store.old (D.seen desk.old).reads (D.seen desk.new).reads) }
    ensures keeps { spent.new ≡ false → Keeps core.now store.new }
    ensures fault { IfErr result (λ fault. AdvanceFails core.now core.now store.old store.new spent.new desk.old desk.new fault) }
    ensures fits { OnErr result ((compacted_at store.old.bounds core.now.state (place_of store.old)).0 ≡ Done) }
    ensures memory { IsErrOf result KeepFault.NoMemory → spent.new ≡ false }
    ensures stands { spent.new ≡ false → IsTrue D.tells → ReadsAs store.new (D.seen desk.new).reads (D.stopped desk.new).images }
    ensures cause { HasCause (D.seen desk.old).disk_faults (D.seen desk.new).disk_faults (disk_failure result) }
    ensures others { OnlyDisk D.seen desk.old desk.new }
    ensures quiet { Leaves D.seen D.stopped desk.old desk.new (λ image. ⊤) }
    ensures stops { IsTrue D.tells → Leaves D.seen D.stopped desk.old desk.new (λ image. OpensToState image core.now.state) }
    ensures remembers { Remembers (D.stopped desk.old) (D.stopped desk.new) }
    ensures room { HoldsRoom D.tells store.old.bounds.slot D.seen D.stopped desk.old desk.new }
{
    let compacted = store.compact(desk);
    *spent = store.is_spent();
    reply_of(compacted)
}
