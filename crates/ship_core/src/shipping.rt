ghost use Rattle.std.specs.Prelude.{◌≡◌, ◌⊎◌, ◌<◌, ℕ, List, [], filter, false, length, IsTrue, IfErr, IsErrOf};
ghost use Rattle.ziti_outside.specs.declared.desk.Part.{Part};
ghost use Rattle.ziti_outside.specs.Causes.{HasCause};
ghost use Rattle.ctrl_model.specs.declared.formats.Format.{Format};
ghost use Rattle.ctrl_model.specs.declared.formats.Format.TheVariants as formats;
ghost use Rattle.channel_frame.specs.declared.frames.Frame.{Frame};
ghost use Rattle.slot_files.specs.FolderImage.{Stands};
ghost use Rattle.row_store.specs.StoredRows.{IsStoreOf};
ghost use Rattle.ship_core.specs.Faults.{fault_of, disk_failure, write_failure, Judges, IsUnfound};
ghost use Rattle.ship_frames.specs.Pieces.{frames_of_all};
ghost use Rattle.ship_core.specs.SaidFrames.{SaysFrames, ShipsJudged, OnlyShips};
ghost use Rattle.ship_core.specs.Shipping.{old_shipments, shipments, is_from, chosen, shipped, AreSpelled, AreShippedOf};
ghost use Rattle.ship_core.specs.Steps.{ShipsFrames, IsUndamaged};

use crate::faults::ShipFault;
use crate::judging::open;
use crate::records::{Way, pass_record};
use crate::saying::say_pieces;
use batch_codec::write_batch;
use ctrl_model::Format;
use journal_core::HEADER_LEN;
use row_store::Store;
use ship_frames::{Shipment, Sort};
use std::alloc::Global;
use ziti_outside::Desk;

// Ships a folder of the first format: the one Whole that puts all rows, each count narrowed, where there are some and nothing is left out.
fn ship_old<D: Desk>(alloc: Global, desk: &mut D, store: &Store, from: u64) -> Result<(), ShipFault>
    requires { store.now.spent ≡ false }
    ensures ships { ShipsFrames D.seen D.stopped desk.old desk.new (fault_of result)
        (frames_of_all 0 (chosen from (old_shipments store.now.rows))) }
    ensures fault { IfErr result IsUndamaged }
{
    if from > 0 {
        return Ok(());
    }
    let rows = store.narrowed()?;
    if rows.is_empty() {
        return Ok(());
    }
    let bytes = write_batch(alloc, &rows)?;
    let shipment = Shipment {
        sort: Sort::Whole,
        serial: 0,
        bytes,
    };
    say_pieces(alloc, desk, &shipment, 0)?;
    Ok(())
}

// Ships a folder of the second format, record by record.
fn ship_kept<D: Desk>(
    alloc: Global,
    desk: &mut D,
    store: &Store,
    from: u64,
) -> Result<(), ShipFault>
    requires some { IsTrue D.tells → 0 < store.now.mark }
    requires kept { IsTrue D.tells → IsStoreOf (D.seen desk.old).reads store.now }
    requires format { store.now.format ≡ formats.Two }
    ensures told { IsTrue D.tells → (batches : List (List ℕ)) → Stands formats.Two (D.seen desk.old).reads batches
        → ShipsFrames D.seen D.stopped desk.old desk.new (fault_of result) (shipped from formats.Two batches) }
    ensures ships { (batches : List (List ℕ)) × AreSpelled batches
        × ShipsFrames D.seen D.stopped desk.old desk.new (fault_of result) (frames_of_all 0 (filter (is_from from) (shipments formats.Two batches))) }
    ensures fault { IfErr result (λ fault. IsTrue D.tells → IsUndamaged fault) }
{
    let (_, end) = store.end();
    let mut way = Way {
        at: HEADER_LEN,
        serial: 0,
        sequence: 0,
    };
    'records: while way.at < end {
        way = pass_record(alloc, desk, store, from, way)?;
    }
    Ok(())
}

// Ships a folder whose store was found.
fn ship_store<D: Desk>(
    alloc: Global,
    desk: &mut D,
    store: &Store,
    from: u64,
) -> Result<(), ShipFault>
    requires some { IsTrue D.tells → 0 < store.now.mark }
    requires kept { IsTrue D.tells → IsStoreOf (D.seen desk.old).reads store.now }
    requires fresh { store.now.spent ≡ false }
    ensures told { IsTrue D.tells → (format : Format) (batches : List (List ℕ)) → Stands format (D.seen desk.old).reads batches
        → ShipsFrames D.seen D.stopped desk.old desk.new (fault_of result) (shipped from format batches) }
    ensures ships { (frames : List Frame) × AreShippedOf from store.now.format store.now.rows frames
        × ShipsFrames D.seen D.stopped desk.old desk.new (fault_of result) frames }
    ensures fault { IfErr result (λ fault. IsTrue D.tells → IsUndamaged fault) }
{
    match store.format() {
        Format::One => ship_old(alloc, desk, store, from),
        Format::Two => ship_kept(alloc, desk, store, from),
    }
}

/// Says what a folder keeps from a serial on, as frames: its records of this serial and of later ones, and all of them where they go back
/// no further. The folder is read, in either format, and left alone.
///
/// Where nothing fails exactly these frames are said, and else the first of them, each whole; where a say failed a front of the first
/// ones. `Damaged` comes exactly where the folder opens to no state, with the first place at which it is damaged. Nothing is said of a folder
/// that opens to no state, whatever failed. Where the folder is not told `Damaged` may come behind some frames too. What is said of it are frames
/// of batches that can be spelled, numbered and in order, behind a valid state whose rows the folder was found to have.
pub fn ship<D: Desk>(alloc: Global, desk: &mut D, from: u64) -> Result<(), ShipFault>
    ensures says { IsTrue D.tells → (format : Format) (batches : List (List ℕ)) → Stands format (D.seen desk.old).reads batches
        → SaysFrames D.seen D.stopped desk.old desk.new (fault_of result) (shipped from format batches) }
    ensures frames { (frames : List Frame) × SaysFrames D.seen D.stopped desk.old desk.new (fault_of result) frames }
    ensures judges { IsTrue D.tells → Judges (D.seen desk.old).reads (fault_of result) }
    ensures opens { IsUnfound D.tells D.seen D.stopped desk.old desk.new (fault_of result)
        ⊎ ShipsJudged D.tells D.seen D.stopped from desk.old desk.new (fault_of result) }
    ensures silent { IsTrue D.tells → (part : Part) (at : ℕ) → IsErrOf result (ShipFault.Damaged part at) → (D.seen desk.new).said ≡ (D.seen desk.old).said }
    ensures alone { OnlyShips D.seen D.stopped desk.old desk.new }
    ensures write_cause { HasCause (D.seen desk.old).say_faults (D.seen desk.new).say_faults (write_failure (fault_of result)) }
    ensures disk_cause { HasCause (D.seen desk.old).disk_faults (D.seen desk.new).disk_faults (disk_failure (fault_of result)) }
{
    match open(alloc, desk)? {
        None => Ok(()),
        Some(store) => ship_store(alloc, desk, &store, from),
    }
}
