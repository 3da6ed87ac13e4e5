ghost use Rattle.std.specs.Prelude.{◌≡◌, ℕ, [], ◌∷◌, codes, None};
ghost use Rattle.ctrl_model.specs.declared.commands.Command.{Command};
ghost use Rattle.ctrl_model.specs.declared.commands.Command.TheVariants.{ConnectRouter, Compact};
ghost use Rattle.ctrl_model.specs.declared.kinds.Who.{Who};
ghost use Rattle.ctrl_model.specs.declared.kinds.Who.TheVariants.{Admin, Router};
ghost use Rattle.ctrl_model.specs.declared.refusals.Refusal.TheVariants.{NotPermitted, JournalFull, MarkFull};
ghost use Rattle.ctrl_model.specs.declared.replies.Reply.TheVariants.{Done, Made, Refused};
ghost use Rattle.ctrl_model.specs.State.{State, start};
ghost use Rattle.ctrl_model.specs.Controller.{answer};
ghost use Rattle.ctrl_model.specs.WorkedStates.{after, connected_router};
ghost use Rattle.row_store.specs.declared.bounds.StoreBounds.{StoreBounds};
ghost use Rattle.journal_core.specs.WorkedSlots.{batch_of_ann};
ghost use Rattle.ctrl_core.specs.KeptFormat.{kept_format};
ghost use Rattle.ctrl_keep.specs.KeptBatches.{batches_next};
ghost use Rattle.ctrl_keep.specs.KeptMachine.{step};
ghost use Rattle.ctrl_keep.specs.WorkedMachines.{machine_at, marked, at_most, creates_ann, made_by_ann, at_last_serial, bare_ann};
ghost use Rattle.ctrl_keep.specs.MigratedFolders.{migrated_size};

/// Steps of the machine, worked by hand. Without a folder it answers as the controller does, and counts nothing. The batch that creates the
/// first identity has 43 bytes, of which 15 are the serial's: behind the header of 8, with the length of 4 and the gates at its ends, the slot
/// has 57 with it, and the next batch begins at 56. A router that is connected already is connected again without a change, also at the last
/// serial, where each change is refused.
pub fn worked_machine()
    ensures no_folder { (bounds : StoreBounds) (who : Who) (c : Command) (s : State) → step bounds who c (record { state = s; place = None })
        ≡ ((answer who c s).0, record { state = (answer who c s).1; place = None }) }
    ensures not_permitted { step (at_most 57) (Router (codes "r1")) creates_ann (machine_at start 8) ≡ (Refused NotPermitted, machine_at start 8) }
    ensures just_fits { step (at_most 57) Admin creates_ann (machine_at start 8) ≡ (Made 1, machine_at made_by_ann 56) }
    ensures no_room { step (at_most 56) Admin creates_ann (machine_at start 8) ≡ (Refused JournalFull, machine_at start 8) }
    ensures last_serial { step (at_most 1024) Admin creates_ann (machine_at (at_last_serial start) 28) ≡ (Refused JournalFull, machine_at (at_last_serial start) 28) }
    ensures no_change { step (at_most 57) Admin (ConnectRouter (codes "r1")) (machine_at (after (connected_router (codes "r1")) start) 38)
        ≡ (Done, machine_at (after (connected_router (codes "r1")) start) 38) }
    ensures no_change_at_last { step (at_most 57) Admin (ConnectRouter (codes "r1")) (machine_at (at_last_serial (after (connected_router (codes "r1")) start)) 38)
        ≡ (Done, machine_at (at_last_serial (after (connected_router (codes "r1")) start)) 38) }
{}

/// What Compact makes of machines, worked by hand. The rows of the first identity take 57 bytes of the second slot, and none take 9;
/// the mark has one byte more. Of a full slot and a full mark the slot is told, and who may not send it is told that first. The last serial does
/// not matter to it.
pub fn worked_compactions()
    ensures done { step (at_most 57) Admin Compact (machine_at made_by_ann 56) ≡ (Done, marked made_by_ann 56 2) }
    ensures no_rows { step (at_most 9) Admin Compact (machine_at start 8) ≡ (Done, marked start 8 2) }
    ensures last_serial { step (at_most 29) Admin Compact (machine_at (at_last_serial start) 56) ≡ (Done, marked (at_last_serial start) 28 2) }
    ensures full { step (at_most 56) Admin Compact (machine_at made_by_ann 56) ≡ (Refused JournalFull, machine_at made_by_ann 56) }
    ensures mark_full { step (at_most 57) Admin Compact (marked made_by_ann 56 2) ≡ (Refused MarkFull, marked made_by_ann 56 2) }
    ensures full_comes_first { step (at_most 56) Admin Compact (marked made_by_ann 56 2) ≡ (Refused JournalFull, marked made_by_ann 56 2) }
    ensures not_permitted { step (at_most 56) (Router (codes "r1")) Compact (machine_at start 8) ≡ (Refused NotPermitted, machine_at start 8) }
{}

/// How many bytes of the other slot a folder of the first format is migrated to, worked by hand: none where there are no rows but the header and
/// the gate; and as many for the rows of the first identity as they have in the first format, since no serial is above 0.
pub fn worked_migrations()
    ensures no_rows { migrated_size start ≡ 9 }
    ensures first_identity { migrated_size bare_ann ≡ 42 }
{}

/// For which batches folders stand behind a step, worked by hand: the batch that creates the first identity comes behind those that stood; a
/// step that leaves the place adds none; and compacted, the one batch of all rows stands alone, or none where there are no rows.
pub fn worked_batches()
    ensures added { batches_next (machine_at start 8) (machine_at made_by_ann 56) [] ≡ batch_of_ann kept_format ∷ [] }
    ensures added_behind { batches_next (machine_at start 8) (machine_at made_by_ann 56) ((7 ∷ []) ∷ []) ≡ (7 ∷ []) ∷ batch_of_ann kept_format ∷ [] }
    ensures still { batches_next (machine_at start 8) (machine_at start 8) (batch_of_ann kept_format ∷ []) ≡ batch_of_ann kept_format ∷ [] }
    ensures compacted { batches_next (machine_at made_by_ann 56) (marked made_by_ann 56 2) ((7 ∷ []) ∷ []) ≡ batch_of_ann kept_format ∷ [] }
    ensures compacted_to_none { batches_next (machine_at start 8) (marked start 8 2) ((7 ∷ []) ∷ []) ≡ [] }
{}
