ghost use Rattle.std.specs.Prelude.{◌≡◌, [], ◌∷◌, ◌++◌, ℕ, map, length, replicate, codes, take, true, None, Some};
ghost use Rattle.ctrl_model.specs.WorkedStates.{after, line, ann_to_web};
ghost use Rattle.ctrl_model.specs.declared.commands.Command.TheVariants.{UpdateRouter, DeleteRouter, DeleteLink, DeleteTerminator};
ghost use Rattle.ziti_outside.specs.declared.desk.Part.TheVariants.{Zero, One};
ghost use Rattle.ctrl_model.specs.declared.formats.Format.{Format};
ghost use Rattle.ctrl_model.specs.declared.formats.Format.TheVariants as format;
ghost use Rattle.journal_core.specs.WorkedSlots.{batch_of_ann, empty_slot, slot_of_ann};
ghost use Rattle.slot_files.specs.WorkedFolders.{no_files, slot_without_mark};
ghost use Rattle.row_codec.specs.Batches.{batch_between, batch_bytes, Spells};
ghost use Rattle.row_store.specs.AddedBatches.{AddsBatch};
ghost use Rattle.slot_reading.specs.BatchRows.{Leads, Raises, MayLead, Give, rows_after, puts_of, serial_of};
ghost use Rattle.row_store.specs.OpenedRows.{OpensTo, IsDamagedAt};
ghost use Rattle.row_store.specs.WorkedStores.{rows_of_ann, row_of_serial, counted_rows, ops_of_ann, counted_ops, migrated_slot, key_of_ann, value_of_ann, folder_of, three_parts, deletes_absent, slot_with_deletion, store_of_ann, store_of_none, second_alone, old_second};
ghost use Rattle.row_codec.specs.NarrowedRows.{narrowed};
ghost use Rattle.row_store.specs.RewrittenStores.{compacted, compacted_size, rewritten_of, IsRewritten, HasRoom, RewriteFails};
ghost use Rattle.row_store.specs.declared.faults.StoreFault.TheVariants.{Full, MarkFull};
ghost use Rattle.row_codec.specs.declared.changes.Op.TheVariants.{Put};

/// The rows that the first batch gives, worked by hand, in either format.
pub fn worked_rows()
    ensures spelled { Spells (batch_of_ann format.One) ops_of_ann }
    ensures after { rows_after [] ops_of_ann ≡ rows_of_ann }
    ensures leads { Leads [] (batch_of_ann format.One) rows_of_ann }
    ensures give { Give format.One (batch_of_ann format.One ∷ []) rows_of_ann }
    ensures counted { Spells (batch_of_ann format.Two) counted_ops }
    ensures give_counted { Give format.Two (batch_of_ann format.Two ∷ []) (counted_rows 1) }
    ensures identities { puts_of 3 rows_of_ann ≡ Put key_of_ann value_of_ann ∷ [] }
    ensures links { puts_of 6 rows_of_ann ≡ [] }
{}

/// Serials that rows tell, and when a batch may lead on, worked by hand: no row tells 0, and one of eight zeros or of seven bytes tells none; in
/// the second format the serial rises by one, but for the first batch of a slot.
pub fn worked_serials()
    ensures no_row { serial_of rows_of_ann ≡ Some 0 }
    ensures one { serial_of (counted_rows 1) ≡ Some 1 }
    ensures eight_zeros { serial_of (counted_rows 0) ≡ None }
    ensures seven_bytes { serial_of ((17 ∷ [], replicate 7 1) ∷ []) ≡ None }
    ensures from_none { Raises rows_of_ann (counted_rows 1) }
    ensures rises { Raises (counted_rows 1) (counted_rows 2) }
    ensures passes_over { Raises (counted_rows 1) (counted_rows 3) → ⊥ }
    ensures stays { Raises (counted_rows 1) (counted_rows 1) → ⊥ }
    ensures first_batch { MayLead format.Two 8 [] (counted_rows 9) }
    ensures second_batch { MayLead format.Two 56 (counted_rows 1) (counted_rows 9) → ⊥ }
    ensures of_the_first_format { MayLead format.One 56 rows_of_ann rows_of_ann }
{}

/// The rows to which folders open, worked by hand. An empty mark opens to none, in any format, whatever the slots have.
pub fn worked_folders()
    ensures no_files { (f : Format) → OpensTo f no_files [] }
    ensures without_mark { (f : Format) → OpensTo f slot_without_mark [] }
    ensures of_ann { OpensTo format.One (folder_of (slot_of_ann format.One)) rows_of_ann }
    ensures counted { OpensTo format.Two (folder_of (slot_of_ann format.Two)) (counted_rows 1) }
    ensures not_of_the_second { OpensTo format.Two (folder_of (slot_of_ann format.One)) rows_of_ann → ⊥ }
{}

/// What keeping a batch makes of a folder, worked by hand: behind no batches the first one stands alone, and once.
pub fn worked_commits()
    ensures added { AddsBatch ops_of_ann (folder_of (empty_slot format.One)) (folder_of (slot_of_ann format.One)) }
    ensures not_added { AddsBatch ops_of_ann (folder_of (empty_slot format.One)) (folder_of (empty_slot format.One)) → ⊥ }
    ensures added_with_the_second_slot { AddsBatch ops_of_ann (folder_of (empty_slot format.One)) (three_parts (slot_of_ann format.One) (7 ∷ []) (0 ∷ [])) → ⊥ }
    ensures added_with_the_mark { AddsBatch ops_of_ann (folder_of (empty_slot format.One)) (three_parts (slot_of_ann format.One) [] (1 ∷ [])) → ⊥ }
    ensures added_with_a_byte_behind { AddsBatch ops_of_ann (folder_of (empty_slot format.One)) (folder_of (slot_of_ann format.One ++ 7 ∷ [])) → ⊥ }
    ensures added_in_the_other_format { AddsBatch ops_of_ann (folder_of (empty_slot format.One)) (folder_of migrated_slot) → ⊥ }
    ensures added_again { AddsBatch ops_of_ann (folder_of (slot_of_ann format.One)) (folder_of (slot_of_ann format.One)) → ⊥ }
{}

/// Where folders are damaged, worked by hand: the record that a cut slot lacks, the gate that it lacks, a slot without a header,
/// and the deletion of a row that is not there.
pub fn worked_damage()
    ensures cut_record { IsDamagedAt (folder_of (take 20 (slot_of_ann format.One))) Zero 8 }
    ensures no_gate { IsDamagedAt (folder_of (take 41 (slot_of_ann format.One))) Zero 41 }
    ensures no_header { IsDamagedAt (folder_of []) Zero 0 }
    ensures deletes_absent { IsDamagedAt (folder_of slot_with_deletion) Zero 41 }
{}

/// Stores that are written anew, worked by hand: the first identity takes 42 bytes of the second slot, behind which older bytes stay; no rows
/// take 9; migrated, the fifth byte alone is another; and with a bound of 41, or a mark that has as many bytes as it may have, there is no
/// room. Of two causes the slot's is told.
pub fn worked_compactions()
    ensures batch { compacted rows_of_ann ≡ batch_of_ann format.One ∷ [] }
    ensures size { compacted_size rows_of_ann ≡ 42 }
    ensures store { rewritten_of format.One rows_of_ann (store_of_ann 64 2) ≡ record (store_of_ann 64 2) { part = One; mark = 2 } }
    ensures of_ann { IsRewritten format.One rows_of_ann (store_of_ann 64 2) (folder_of (slot_of_ann format.One)) (second_alone (slot_of_ann format.One)) }
    ensures over_old_bytes { IsRewritten format.One rows_of_ann (store_of_ann 64 2) (old_second (replicate 44 7)) (second_alone (slot_of_ann format.One ++ 7 ∷ 7 ∷ [])) }
    ensures of_none { IsRewritten format.Two [] store_of_none (folder_of (empty_slot format.Two)) (second_alone (empty_slot format.Two)) }
    ensures migrated { IsRewritten format.Two rows_of_ann (store_of_ann 64 2) (folder_of (slot_of_ann format.One)) (second_alone migrated_slot) }
    ensures migrated_len { length migrated_slot ≡ 42 }
    ensures narrowed { map narrowed ((12 ∷ 0 ∷ 0 ∷ 0 ∷ 1 ∷ 0 ∷ 0 ∷ 0 ∷ 1 ∷ [], 3 ∷ 2 ∷ 0 ∷ 0 ∷ []) ∷ rows_of_ann)
        ≡ (12 ∷ 0 ∷ 0 ∷ 0 ∷ 1 ∷ 0 ∷ 0 ∷ 0 ∷ 1 ∷ [], 3 ∷ 2 ∷ []) ∷ rows_of_ann }
    ensures opens { OpensTo format.One (second_alone (slot_of_ann format.One)) rows_of_ann }
    ensures opens_migrated { OpensTo format.Two (second_alone migrated_slot) rows_of_ann }
    ensures just_fits { HasRoom 42 (store_of_ann 42 2) }
    ensures full { RewriteFails {D = ℕ} 42 (store_of_ann 41 1) (store_of_ann 41 1) 0 0 Full }
    ensures not_full { RewriteFails {D = ℕ} 42 (store_of_ann 42 1) (store_of_ann 42 1) 0 0 Full → ⊥ }
    ensures mark_full { RewriteFails {D = ℕ} 42 (store_of_ann 42 1) (store_of_ann 42 1) 0 0 MarkFull }
    ensures full_comes_first { RewriteFails {D = ℕ} 42 (store_of_ann 41 1) (store_of_ann 41 1) 0 0 MarkFull → ⊥ }
{}

/// The batches of commands of other families, worked by hand, on a line of three routers with a circuit over both its links: router 2
/// may not be passed through any more, so the circuit, which has no other path, goes; it is deleted, and with it both links, the circuit and a count; a link
/// goes, and the terminator, each with the circuit.
pub fn worked_commands()
    ensures no_traversal { batch_bytes (batch_between format.One (after (ann_to_web ∷ []) line) (after (ann_to_web ∷ UpdateRouter (codes "r2") [] 0 true ∷ []) line))
        ≡ 1 ∷ 5 ∷ 5 ∷ 0 ∷ 0 ∷ 0 ∷ 2 ∷ 7 ∷ 0 ∷ 0 ∷ 0 ∷ 2 ∷ 114 ∷ 50 ∷ 0 ∷ 0 ∷ 0 ∷ 3 ∷ 2 ∷ 5 ∷ 11 ∷ 0 ∷ 0 ∷ 0 ∷ 1 ∷ [] }
    ensures router_gone { batch_bytes (batch_between format.One (after (ann_to_web ∷ []) line) (after (ann_to_web ∷ DeleteRouter (codes "r2") ∷ []) line))
        ≡ 2 ∷ 5 ∷ 5 ∷ 0 ∷ 0 ∷ 0 ∷ 2 ∷ 2 ∷ 5 ∷ 6 ∷ 0 ∷ 0 ∷ 0 ∷ 1 ∷ 2 ∷ 5 ∷ 6 ∷ 0 ∷ 0 ∷ 0 ∷ 2 ∷ 2 ∷ 5 ∷ 11 ∷ 0 ∷ 0 ∷ 0 ∷ 1
        ∷ 2 ∷ 9 ∷ 15 ∷ 0 ∷ 0 ∷ 0 ∷ 1 ∷ 0 ∷ 0 ∷ 0 ∷ 2 ∷ [] }
    ensures link_gone { batch_bytes (batch_between format.One (after (ann_to_web ∷ []) line) (after (ann_to_web ∷ DeleteLink (codes "l1") ∷ []) line))
        ≡ 2 ∷ 5 ∷ 6 ∷ 0 ∷ 0 ∷ 0 ∷ 1 ∷ 2 ∷ 5 ∷ 11 ∷ 0 ∷ 0 ∷ 0 ∷ 1 ∷ [] }
    ensures terminator_gone { batch_bytes (batch_between format.One (after (ann_to_web ∷ []) line) (after (ann_to_web ∷ DeleteTerminator 1 ∷ []) line))
        ≡ 2 ∷ 5 ∷ 10 ∷ 0 ∷ 0 ∷ 0 ∷ 1 ∷ 2 ∷ 5 ∷ 11 ∷ 0 ∷ 0 ∷ 0 ∷ 1 ∷ [] }
{}
