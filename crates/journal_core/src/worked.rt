ghost use Rattle.std.specs.Prelude.{◌≡◌, ◌+◌, ◌<◌, true, false, [], ◌∷◌, ◌++◌, length, take};
ghost use Rattle.journal_core.specs.declared.faults.JournalFault.TheVariants.{Full};
ghost use Rattle.ctrl_model.specs.declared.formats.Format.TheVariants as format;
ghost use Rattle.journal_core.specs.Slots.{Slot, IsClosed, IsRecord, IsDamaged, added, text_of, slot_end, slot_bytes};
ghost use Rattle.journal_core.specs.Faults.{AppendFails};
ghost use Rattle.journal_core.specs.Room.{empty_size, IsWithin, GrowsTo, KeepsRoom, HoldsRoom};
ghost use Rattle.journal_core.specs.WorkedDesks.{small_seen, small_stopped, fresh, behind, two_slots, first_batch};
ghost use Rattle.journal_core.specs.WorkedSlots.{batch_of_ann, empty_slot, slot_of_ann, three_payloads, folder_of};

/// Slots worked by hand: the bytes after a first batch, the places of gates, and a slot that is full.
pub fn worked_appends()
    ensures created { slot_bytes format.One [] ≡ empty_slot format.One }
    ensures created_anew { slot_bytes format.Two [] ≡ empty_slot format.Two }
    ensures appended { added 8 (text_of (batch_of_ann format.One)) (empty_slot format.One) ≡ slot_of_ann format.One }
    ensures appended_with_a_serial { added 8 (text_of (batch_of_ann format.Two)) (empty_slot format.Two) ≡ slot_of_ann format.Two }
    ensures appended_over_old_bytes { added 8 (text_of (batch_of_ann format.One)) (empty_slot format.One ++ 1 ∷ 2 ∷ 3 ∷ []) ≡ slot_of_ann format.One }
    ensures len { length (slot_of_ann format.One) ≡ 42 }
    ensures len_with_a_serial { length (slot_of_ann format.Two) ≡ 57 }
    ensures gate_behind_a_serial { slot_end (batch_of_ann format.Two ∷ []) ≡ 56 }
    ensures first_gate { slot_end [] ≡ 8 }
    ensures second_gate { slot_end (take 1 three_payloads) ≡ 41 }
    ensures third_gate { slot_end (take 2 three_payloads) ≡ 74 }
    ensures closed_gate { slot_end three_payloads ≡ 131 }
    ensures three_len { length (slot_bytes format.One three_payloads) ≡ 132 }
    ensures full { AppendFails (41 + 6 + 28) 64 Full }
    ensures not_full { AppendFails (41 + 6 + 28) 75 Full → ⊥ }
{}

/// What stands at the places of slots worked by hand: closed gates, a record, and damage.
pub fn worked_places()
    ensures closed { IsClosed 41 (slot_of_ann format.One) }
    ensures closed_by_another_byte { IsClosed 2 (5 ∷ 6 ∷ 2 ∷ 1 ∷ []) }
    ensures record { IsRecord 8 (batch_of_ann format.One) (slot_of_ann format.One) }
    ensures cut_record { IsDamaged 8 (take 20 (slot_of_ann format.One)) }
    ensures whole_record { IsRecord 8 (batch_of_ann format.One) (take 41 (slot_of_ann format.One)) }
    ensures missing_gate { IsDamaged 41 (take 41 (slot_of_ann format.One)) }
{}

/// What slots worked by hand stand for, in their own format and in no other: of a record that is torn behind a closed gate, and of old
/// bytes behind it, nothing.
pub fn worked_slots()
    ensures created { Slot format.One (empty_slot format.One) [] }
    ensures created_anew { Slot format.Two (empty_slot format.Two) [] }
    ensures of_the_other_format { Slot format.Two (empty_slot format.One) [] → ⊥ }
    ensures torn_record { Slot format.One (empty_slot format.One ++ 28 ∷ 0 ∷ 0 ∷ 0 ∷ 1 ∷ 2 ∷ []) [] }
    ensures one_batch { Slot format.One (slot_of_ann format.One) (batch_of_ann format.One ∷ []) }
    ensures with_a_serial { Slot format.Two (slot_of_ann format.Two) (batch_of_ann format.Two ∷ []) }
    ensures old_bytes { Slot format.One (slot_of_ann format.One ++ 1 ∷ 5 ∷ []) (batch_of_ann format.One ∷ []) }
{}

/// How long slots worked by hand may become. The first batch makes a slot of 9 bytes one of 42, which a bound of 42 lets it become and a
/// bound of 41 does not. A slot that has more than its bound already may stay, and not grow.
pub fn worked_room()
    ensures empty { length (empty_slot format.One) ≡ empty_size }
    ensures grows { GrowsTo 42 (empty_slot format.One) (slot_of_ann format.One) }
    ensures passes { GrowsTo 41 (empty_slot format.One) (slot_of_ann format.One) → ⊥ }
    ensures stays { GrowsTo 9 (slot_of_ann format.One) (slot_of_ann format.One) }
    ensures shrinks { GrowsTo 9 (slot_of_ann format.One) (empty_slot format.One) }
    ensures passes_its_old_length { GrowsTo 9 (slot_of_ann format.One) ((slot_of_ann format.One) ++ 1 ∷ []) → ⊥ }
    ensures within { IsWithin 42 (folder_of (slot_of_ann format.One) (empty_slot format.One)) }
    ensures not_within { IsWithin 41 (folder_of (slot_of_ann format.One) (empty_slot format.One)) → ⊥ }
    ensures first_grows { KeepsRoom 42 (folder_of (empty_slot format.One) (empty_slot format.One)) (folder_of (slot_of_ann format.One) (empty_slot format.One)) }
    ensures first_passes { KeepsRoom 41 (folder_of (empty_slot format.One) (empty_slot format.One)) (folder_of (slot_of_ann format.One) (empty_slot format.One)) → ⊥ }
    ensures second_passes { KeepsRoom 41 (folder_of (empty_slot format.One) (empty_slot format.One)) (folder_of (empty_slot format.One) (slot_of_ann format.One)) → ⊥ }
    ensures second_stays { KeepsRoom 9 (folder_of (empty_slot format.One) (slot_of_ann format.One)) (folder_of [] (slot_of_ann format.One)) }
{}

/// What a call may do to a desk of two slots without a record, worked by hand: the first batch makes the first slot one of 42 bytes. That
/// counts as the folder reads, where it is told, and in what a stop leaves, told or not.
pub fn worked_desks()
    ensures appended { HoldsRoom true 42 small_seen small_stopped (fresh two_slots) (behind two_slots first_batch first_batch) }
    ensures passes { HoldsRoom true 41 small_seen small_stopped (fresh two_slots) (behind two_slots first_batch two_slots) → ⊥ }
    ensures passes_where_a_stop_keeps_it { HoldsRoom true 41 small_seen small_stopped (fresh two_slots) (behind two_slots two_slots first_batch) → ⊥ }
    ensures passes_in_an_untold_folder { HoldsRoom false 41 small_seen small_stopped (fresh two_slots) (behind two_slots first_batch first_batch) → ⊥ }
    ensures reads_so_untold { HoldsRoom false 41 small_seen small_stopped (fresh two_slots) (behind two_slots first_batch two_slots) }
    ensures had_more_before { HoldsRoom true 9 small_seen small_stopped (fresh first_batch) (behind first_batch two_slots first_batch) }
{}
