ghost use Rattle.std.specs.Prelude.{◌≡◌, ◌≤◌, ◌<◌, ◌+◌, ℕ, List, [], ◌∷◌, ◌++◌, length, map};
ghost use Rattle.std.specs.List.{flat_map, AllByRecursion};
ghost use Rattle.ziti_outside.specs.Images.{Image};
ghost use Rattle.ctrl_model.specs.declared.formats.Format.{Format};
ghost use Rattle.ctrl_model.specs.declared.formats.Format.TheVariants.{One, Two};
ghost use Rattle.ctrl_model.specs.State.{State};
ghost use Rattle.channel_frame.specs.declared.frames.Frame.{Frame};
ghost use Rattle.channel_frame.specs.FrameSpelling.{IsFrame};
ghost use Rattle.channel_frame.specs.StreamReading.{Reads, frames_of as frames_in, rest_of};
ghost use Rattle.slot_files.specs.FolderImage.{Stands};
ghost use Rattle.slot_reading.specs.BatchRows.{ByteRows, Give};
ghost use Rattle.row_store.specs.OpenedStates.{byte_rows_of, OpensToState};
ghost use Rattle.row_store.specs.RewrittenStores.{compacted};
ghost use Rattle.ship_frames.specs.declared.shipments.Shipment.{Shipment};
ghost use Rattle.ship_frames.specs.Pieces.{written};
ghost use Rattle.ship_core.specs.Shipping.{rows_behind, rows_behind_all, serial_or_none, old_whole, shipments, chosen, shipped, AreShippedOf, Follow, applied};

/// The frames that are shipped can be spelled: their numbers fit, and their headers and bodies keep the limits of frames. So do those of a folder
/// that is not told. The bytes of frames that can be spelled are read as exactly these frames, with nothing left.
pub fn shipped_frames_are_read_again()
    ensures limits { (from : ℕ) (format : Format) (batches : List (List ℕ)) → AllByRecursion IsFrame (shipped from format batches) }
    ensures found { (from : ℕ) (format : Format) (rows : ByteRows) (frames : List Frame) → AreShippedOf from format rows frames → AllByRecursion IsFrame frames }
    ensures reads { (from : ℕ) (format : Format) (batches : List (List ℕ)) → Reads (written (shipped from format batches)) (shipped from format batches) [] }
    ensures only { (frames : List Frame) → AllByRecursion IsFrame frames → (frames_in (written frames) ≡ frames) × (rest_of (written frames) ≡ []) }
{}

/// The serials of the batches of a folder of the second format rise by exactly one from each to the next.
pub fn serials_follow()
    ensures { (batches : List (List ℕ)) (rows : ByteRows) → Give Two batches rows → Follow (shipments Two batches) }
{}

/// A copy that has the rows of a serial and applies what is shipped from the next one on has the rows of the folder, and so has one with whatever
/// rows where what is shipped begins with the Whole: from the first serial of the folder on, or from an earlier one.
pub fn shipped_leads_to_the_rows()
    ensures next { (first : List ℕ) (before after : List (List ℕ)) (rows : ByteRows) → Give Two (first ∷ (before ++ after)) rows
        → applied (rows_behind_all [] (first ∷ before)) (chosen (serial_or_none (rows_behind_all [] (first ∷ before)) + 1) (shipments Two (first ∷ (before ++ after)))) ≡ rows }
    ensures whole { (from : ℕ) (held rows : ByteRows) (first : List ℕ) (more : List (List ℕ)) → Give Two (first ∷ more) rows → from ≤ serial_or_none (rows_behind [] first)
        → applied held (chosen from (shipments Two (first ∷ more))) ≡ rows }
{}

/// Of a folder of the first format that opens to a state the Whole puts exactly the rows that the state has in the second, and a copy that applies it
/// has these.
pub fn old_folders_ship_their_state()
    ensures whole { (image : Image) (s : State) (batches : List (List ℕ)) → Stands One image batches → OpensToState image s
        → shipments One batches ≡ map old_whole (compacted (byte_rows_of Two s)) }
    ensures rows { (image : Image) (s : State) (batches : List (List ℕ)) → Stands One image batches → OpensToState image s
        → applied [] (shipments One batches) ≡ byte_rows_of Two s }
{}
