ghost use Rattle.std.specs.Prelude.{◌≡◌, ℕ, ◌<◌, List, length};
ghost use Rattle.ziti_outside.specs.declared.desk.Part.{Part};
ghost use Rattle.ziti_outside.specs.declared.desk.Part.TheVariants.{Mark};
ghost use Rattle.ziti_outside.specs.Images.{Image};
ghost use Rattle.ctrl_model.specs.declared.formats.Format.{Format};
ghost use Rattle.journal_core.specs.Slots.{Slot, slot_end};
ghost use Rattle.folder_findings.specs.declared.finding.FoundSlot.TheVariants.{Journal};
ghost use Rattle.folder_findings.specs.declared.spans.Gate.TheVariants.{Closed};
ghost use Rattle.folder_findings.specs.FoundFiles.{found_slot};
ghost use Rattle.folder_findings.specs.Spans.{ended, hidden_by, with_byte};
ghost use Rattle.slot_reading.specs.BatchRows.{ByteRows};
ghost use Rattle.row_store.specs.OpenedRows.{IsDamagedAt, OpensTo};

/// Bytes that are a slot of a format are found to have all its records, and to end at its closed gate.
pub fn slots_are_found()
    ensures { (f : Format) (bytes : List ℕ) (payloads : List (List ℕ)) → Slot f bytes payloads
        → found_slot bytes ≡ Journal f (length bytes) (ended Closed (slot_end payloads) (length payloads)) (hidden_by (ended Closed (slot_end payloads) (length payloads)) bytes) }
{}

/// Where a folder is damaged behind its header, a byte 0 at that place leads back: the folder opens to the rows of the records before it.
pub fn a_byte_leads_back()
    ensures { (old new : Image) (part : Part) (at : ℕ) → IsDamagedAt old part at → 0 < at → length (new Mark) ≡ length (old Mark) → new part ≡ with_byte at 0 (old part)
        → (format : Format) × ((rows : ByteRows) × OpensTo format new rows) }
{}
