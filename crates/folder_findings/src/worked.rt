ghost use Rattle.std.specs.Prelude.{◌≡◌, [], ◌∷◌, ◌++◌, codes, take, replicate, true, false};
ghost use Rattle.ziti_outside.specs.declared.desk.Part.TheVariants.{Zero, One};
ghost use Rattle.ctrl_model.specs.declared.formats.Format.TheVariants as format;
ghost use Rattle.journal_core.specs.WorkedSlots.{empty_slot, slot_of_ann};
ghost use Rattle.folder_findings.specs.declared.finding.FoundSlot.TheVariants.{Headless, Journal};
ghost use Rattle.folder_findings.specs.declared.spans.Gate.TheVariants.{Closed, Missing, Cut};
ghost use Rattle.folder_findings.specs.FoundFiles.{found_files, found_slot};
ghost use Rattle.folder_findings.specs.FindingLines.{is_well, lines_of, mark_line, slot_line, state_line};
ghost use Rattle.folder_findings.specs.declared.causes.Cause.TheVariants.{NoHeader, NoGate, NoBatch, NoNext, NoState};
ghost use Rattle.folder_findings.specs.declared.causes.Verdict.TheVariants.{Opens, Damaged};
ghost use Rattle.folder_findings.specs.Spans.{ended, with_byte};
ghost use Rattle.folder_findings.specs.WorkedFiles.{files, two_records};

/// What is found in slots worked by hand: a gate that is closed by one flipped bit hides what stands behind it, the first one all.
pub fn worked_slots()
    ensures absent { found_slot [] ≡ Headless 0 }
    ensures short { found_slot (90 ∷ 67 ∷ []) ≡ Headless 2 }
    ensures other_header { found_slot (with_byte 4 3 (slot_of_ann format.Two)) ≡ Headless 57 }
    ensures header_alone { found_slot (take 8 (empty_slot format.Two)) ≡ Journal format.Two 8 (ended Missing 8 0) 0 }
    ensures created { found_slot (empty_slot format.Two) ≡ Journal format.Two 9 (ended Closed 8 0) 0 }
    ensures one { found_slot (slot_of_ann format.Two) ≡ Journal format.Two 57 (ended Closed 56 1) 0 }
    ensures of_the_first_format { found_slot (slot_of_ann format.One) ≡ Journal format.One 42 (ended Closed 41 1) 0 }
    ensures flipped_first_gate { found_slot (with_byte 8 0 (slot_of_ann format.Two)) ≡ Journal format.Two 57 (ended Closed 8 0) 1 }
    ensures two { found_slot two_records ≡ Journal format.Two 64 (ended Closed 63 2) 0 }
    ensures flipped_gate { found_slot (with_byte 56 3 two_records) ≡ Journal format.Two 64 (ended Closed 56 1) 1 }
    ensures flipped_before_two { found_slot (with_byte 8 0 two_records) ≡ Journal format.Two 64 (ended Closed 8 0) 2 }
    ensures no_last_gate { found_slot (take 63 two_records) ≡ Journal format.Two 63 (ended Missing 63 2) 0 }
    ensures cut_record { found_slot (take 62 two_records) ≡ Journal format.Two 62 (ended Cut 56 1) 0 }
    ensures cut_length { found_slot (take 59 two_records) ≡ Journal format.Two 59 (ended Cut 56 1) 0 }
    ensures old_bytes { found_slot (slot_of_ann format.Two ++ replicate 9 7) ≡ Journal format.Two 66 (ended Closed 56 1) 0 }
    ensures hidden_without_last_gate { found_slot (with_byte 56 0 (take 63 two_records)) ≡ Journal format.Two 63 (ended Closed 56 1) 0 }
{}

/// What is found in the files of folders worked by hand.
pub fn worked_files()
    ensures none { found_files (files [] [] []) ≡ record { mark = 0; first = Headless 0; second = Headless 0 } }
    ensures lost_mark { found_files (files (slot_of_ann format.Two) [] []) ≡ record { mark = 0; first = Journal format.Two 57 (ended Closed 56 1) 0; second = Headless 0 } }
    ensures second_stands { found_files (files [] (slot_of_ann format.Two) (0 ∷ 0 ∷ [])) ≡ record { mark = 2; first = Headless 0; second = Journal format.Two 57 (ended Closed 56 1) 0 } }
{}

/// What is wrong with folders worked by hand: nothing with one of the identity ann, and with one without files; else a lost mark, a changed
/// gate, and rows of no state.
pub fn worked_findings()
    ensures well { is_well (found_files (files (slot_of_ann format.Two) [] (0 ∷ []))) Opens ≡ true }
    ensures no_files { is_well (found_files (files [] [] [])) Opens ≡ true }
    ensures of_a_stopped_creation { is_well (found_files (files (empty_slot format.Two) [] [])) Opens ≡ true }
    ensures other_slot { is_well (found_files (files (take 20 (slot_of_ann format.Two)) (slot_of_ann format.Two) (0 ∷ 0 ∷ []))) Opens ≡ true }
    ensures lost_mark { is_well (found_files (files (slot_of_ann format.Two) [] [])) Opens ≡ false }
    ensures lost_behind_a_gate { is_well (found_files (files [] (with_byte 8 0 (slot_of_ann format.Two)) [])) Opens ≡ false }
    ensures changed_gate { is_well (found_files (files (with_byte 8 0 (slot_of_ann format.Two)) [] (0 ∷ []))) Opens ≡ false }
    ensures no_last_gate { is_well (found_files (files (take 56 (slot_of_ann format.Two)) [] (0 ∷ []))) (Damaged Zero 56 NoGate) ≡ false }
    ensures damaged { is_well (found_files (files (slot_of_ann format.Two) [] (0 ∷ []))) (Damaged Zero 56 NoState) ≡ false }
    ensures absent_slot { is_well (found_files (files [] [] (0 ∷ 0 ∷ []))) (Damaged One 0 NoHeader) ≡ false }
{}

/// The lines of what is found, worked by hand.
pub fn worked_lines()
    ensures well { lines_of (found_files (files (slot_of_ann format.Two) [] (0 ∷ []))) Opens
        ≡ codes "ok ziti.mark bytes=1 stands=ziti.0\nok ziti.0 bytes=57 format=2 records=1 gate=closed at=56 hidden=0\nok ziti.1 bytes=0 format=none\nok state\n" }
    ensures lost_mark { mark_line (found_files (files (slot_of_ann format.One) [] []))
        ≡ codes "found ziti.mark bytes=0: run nothing here, copy the files, and write 1 byte to ziti.mark\n" }
    ensures lost_second { mark_line (found_files (files [] (slot_of_ann format.One) []))
        ≡ codes "found ziti.mark bytes=0: run nothing here, copy the files, and write 2 bytes to ziti.mark\n" }
    ensures lost_of_two { mark_line (found_files (files (slot_of_ann format.One) (slot_of_ann format.Two) []))
        ≡ codes "found ziti.mark bytes=0: run nothing here, copy the files, and write 1 byte to ziti.mark for ziti.0, or 2 for ziti.1\n" }
    ensures no_files { mark_line (found_files (files [] [] [])) ≡ codes "ok ziti.mark bytes=0\n" }
    ensures changed_gate { slot_line Zero true (found_slot (with_byte 8 0 two_records))
        ≡ codes "found ziti.0 bytes=64 format=2 records=0 gate=closed at=8 hidden=2: copy the files, and write a byte 1 at 8\n" }
    ensures other_slot { slot_line One false (found_slot (with_byte 8 0 two_records)) ≡ codes "ok ziti.1 bytes=64 format=2 records=0 gate=closed at=8 hidden=2\n" }
    ensures no_last_gate { slot_line One true (found_slot (take 63 two_records))
        ≡ codes "found ziti.1 bytes=63 format=2 records=2 gate=missing at=63 hidden=0: copy the files, and write a byte 0 at 63\n" }
    ensures cut_record { slot_line One true (found_slot (take 62 two_records))
        ≡ codes "found ziti.1 bytes=62 format=2 records=1 gate=cut at=56 hidden=0: copy the files, and write a byte 0 at 56\n" }
    ensures no_header { slot_line Zero true (found_slot (90 ∷ 67 ∷ [])) ≡ codes "found ziti.0 bytes=2 format=none: put a copy of the files in their place\n" }
    ensures no_batch { state_line (Damaged Zero 56 NoBatch) ≡ codes "found state file=ziti.0 at=56 cause=no-batch: copy the files, write a byte 0 at 56, and run zitictl compact\n" }
    ensures no_next { state_line (Damaged One 104 NoNext) ≡ codes "found state file=ziti.1 at=104 cause=no-next: copy the files, write a byte 0 at 104, and run zitictl compact\n" }
    ensures no_state { state_line (Damaged One 174 NoState) ≡ codes "found state file=ziti.1 at=174 cause=no-state: put a copy of the files in their place\n" }
{}
