//! Worked examples of the desks over memory and over a drive: what a stop finds of them, by hand.
#![tactic(auto)]

ghost use Rattle.std.specs.Prelude.{◌≡◌, ℕ, true, false, [], ◌∷◌, take, None, Some};
ghost use Rattle.ziti_outside.specs.declared.desk.Part.TheVariants.{Zero, One};
ghost use Rattle.ziti_outside.specs.Images.{Image};
ghost use Rattle.desk_base.specs.declared.mem_log.Call.TheVariants.{Wrote};
ghost use Rattle.desk_base.specs.Pieces.{from_first, first, without, joined, is_listed, next_call};
ghost use Rattle.desk_base.specs.MemRoom.{few, is_logged_out, is_named, is_over_noted, is_over_part, is_over_said, less};
ghost use Rattle.desk_base.specs.StopPoints.{PairsAt, KeepsOf, event_of, said_past, written_past, KeepsNothing, KeepsAll, worked_calls};
ghost use Rattle.ziti_desk.specs.Stages.{IsBetween, PairsFrom};
ghost use Rattle.desk_base.specs.MemEvents.{Saying, Writing, Cutting, Syncing, at_parts, reads_after, Leaving, Since};

/// What a stop finds, by its choice, of a desk whose first slot was `1 2 3`: `7 8` are written at its second place, `5 6` are said, the
/// slot is synced, a write of `9` at its start fails, and `4` is said; worked by hand.
pub fn worked_choices()
    ensures nothing_at_first { KeepsNothing (at_parts (1 ∷ 2 ∷ 3 ∷ []) [] []) worked_calls 0 (at_parts (1 ∷ 2 ∷ 3 ∷ []) [] []) [] }
    ensures nothing_of_a_write { KeepsNothing (at_parts (1 ∷ 2 ∷ 3 ∷ []) [] []) worked_calls 1 (at_parts (1 ∷ 2 ∷ 3 ∷ []) [] []) [] }
    ensures all_of_it_and_of_a_say { KeepsAll (at_parts (1 ∷ 2 ∷ 3 ∷ []) [] []) worked_calls 1 (at_parts (1 ∷ 7 ∷ 8 ∷ []) [] []) (5 ∷ 6 ∷ []) }
    ensures nothing_until_the_sync { KeepsNothing (at_parts (1 ∷ 2 ∷ 3 ∷ []) [] []) worked_calls 2 (at_parts (1 ∷ 2 ∷ 3 ∷ []) [] []) (5 ∷ 6 ∷ []) }
    ensures synced { KeepsNothing (at_parts (1 ∷ 2 ∷ 3 ∷ []) [] []) worked_calls 3 (at_parts (1 ∷ 7 ∷ 8 ∷ []) [] []) (5 ∷ 6 ∷ []) }
    ensures nothing_of_a_failed_write { KeepsNothing (at_parts (1 ∷ 2 ∷ 3 ∷ []) [] []) worked_calls 4 (at_parts (1 ∷ 7 ∷ 8 ∷ []) [] []) (5 ∷ 6 ∷ []) }
    ensures all_of_a_failed_write { KeepsAll (at_parts (1 ∷ 2 ∷ 3 ∷ []) [] []) worked_calls 4 (at_parts (9 ∷ 7 ∷ 8 ∷ []) [] []) (5 ∷ 6 ∷ 4 ∷ []) }
    ensures all_at_the_end { KeepsAll (at_parts (1 ∷ 2 ∷ 3 ∷ []) [] []) worked_calls 5 (at_parts (9 ∷ 7 ∷ 8 ∷ []) [] []) (5 ∷ 6 ∷ 4 ∷ []) }
    ensures no_unsynced_write { KeepsNothing (at_parts (1 ∷ 2 ∷ 3 ∷ []) [] []) worked_calls 1 (at_parts (1 ∷ 7 ∷ 8 ∷ []) [] []) [] → ⊥ }
    ensures no_write_lost { KeepsAll (at_parts (1 ∷ 2 ∷ 3 ∷ []) [] []) worked_calls 1 (at_parts (1 ∷ 2 ∷ 3 ∷ []) [] []) (5 ∷ 6 ∷ []) → ⊥ }
    ensures no_say_more { KeepsNothing (at_parts (1 ∷ 2 ∷ 3 ∷ []) [] []) worked_calls 1 (at_parts (1 ∷ 2 ∷ 3 ∷ []) [] []) (5 ∷ 6 ∷ []) → ⊥ }
{}

/// Images that a stop leaves of a first slot `1 2 3`, worked by hand: `7 8` are written at its second place, pending or failed, and
/// synced; a byte is written past its end, and all but one are cut off.
pub fn worked_images()
    ensures torn { Leaving (at_parts (1 ∷ 2 ∷ 3 ∷ []) [] []) (Writing Zero 1 (7 ∷ 8 ∷ []) true ∷ []) (at_parts (1 ∷ 9 ∷ 8 ∷ []) [] []) }
    ensures torn_by_a_failed_write { Leaving (at_parts (1 ∷ 2 ∷ 3 ∷ []) [] []) (Writing Zero 1 (7 ∷ 8 ∷ []) false ∷ []) (at_parts (1 ∷ 9 ∷ 8 ∷ []) [] []) }
    ensures unsynced { Leaving (at_parts (1 ∷ 2 ∷ 3 ∷ []) [] []) (Writing Zero 1 (7 ∷ 8 ∷ []) true ∷ Syncing One ∷ []) (at_parts (1 ∷ 9 ∷ 8 ∷ []) [] []) }
    ensures synced { (image : Image) → Leaving (at_parts (1 ∷ 2 ∷ 3 ∷ []) [] []) (Writing Zero 1 (7 ∷ 8 ∷ []) true ∷ Syncing Zero ∷ []) image → image Zero ≡ 1 ∷ 7 ∷ 8 ∷ [] }
    ensures synced_after_a_failed_write { (image : Image) → Leaving (at_parts (1 ∷ 2 ∷ 3 ∷ []) [] []) (Writing Zero 1 (7 ∷ 8 ∷ []) false ∷ Syncing Zero ∷ []) image → image Zero ≡ 1 ∷ 2 ∷ 3 ∷ [] }
    ensures half_cut { Leaving (at_parts (1 ∷ 2 ∷ 3 ∷ []) [] []) (Cutting Zero 1 true ∷ []) (at_parts (1 ∷ 2 ∷ []) [] []) }
    ensures cut_before_the_write { Leaving (at_parts (1 ∷ 2 ∷ 3 ∷ []) [] []) (Writing Zero 3 (4 ∷ []) true ∷ Cutting Zero 4 true ∷ []) (at_parts (1 ∷ 2 ∷ 3 ∷ []) [] []) }
    ensures reads { reads_after (at_parts (1 ∷ 2 ∷ 3 ∷ []) [] []) (Writing Zero 1 (7 ∷ 8 ∷ []) true ∷ Writing One 0 (5 ∷ []) false ∷ Cutting Zero 2 true ∷ []) ≡ at_parts (1 ∷ 7 ∷ []) [] [] }
    ensures within_a_say { Since (at_parts [] [] []) (Saying (1 ∷ 2 ∷ []) ∷ []) 0 (at_parts [] [] []) (1 ∷ []) }
    ensures behind_a_say { Since (at_parts [] [] []) (Saying (1 ∷ 2 ∷ []) ∷ []) 1 (at_parts [] [] []) (1 ∷ []) → ⊥ }
{}

/// Pieces that a source over memory gives, worked by hand: `1 2`, one without a byte, and `3`.
pub fn worked_pieces()
    ensures skips_a_piece_without_a_byte { from_first ([] ∷ (1 ∷ 2 ∷ []) ∷ []) ≡ (1 ∷ 2 ∷ []) ∷ [] }
    ensures skips_none_that_has_one { from_first ((1 ∷ []) ∷ [] ∷ []) ≡ (1 ∷ []) ∷ [] ∷ [] }
    ensures gives_the_front { take 1 (first ((1 ∷ 2 ∷ []) ∷ (3 ∷ []) ∷ [])) ≡ 1 ∷ [] }
    ensures keeps_the_rest { without 1 ((1 ∷ 2 ∷ []) ∷ (3 ∷ []) ∷ []) ≡ (2 ∷ []) ∷ (3 ∷ []) ∷ [] }
    ensures gives_no_more_than_the_piece { take 5 (first ((1 ∷ 2 ∷ []) ∷ (3 ∷ []) ∷ [])) ≡ 1 ∷ 2 ∷ [] }
    ensures nothing_is_left { first [] ≡ [] }
    ensures all_bytes { joined ((1 ∷ 2 ∷ []) ∷ [] ∷ (3 ∷ []) ∷ []) ≡ 1 ∷ 2 ∷ 3 ∷ [] }
    ensures listed { is_listed (1 ∷ 3 ∷ []) 3 ≡ true }
    ensures unlisted { is_listed (1 ∷ 3 ∷ []) 2 ≡ false }
    ensures counted { next_call 4 ≡ 5 }
    ensures counted_to_the_end { next_call 18446744073709551615 ≡ 18446744073709551615 }
{}

/// Which calls fail for want of room or by the list, worked by hand: the next call is the fourth, which is listed; a part may have 4 bytes;
/// and there is room for 2 reply bytes, for 1 byte of notes, and for 64 bytes of the log, of which a call takes 32 and the bytes that it writes.
pub fn worked_limits()
    ensures listed { is_named few ≡ true }
    ensures not_listed_behind_it { is_named (less 0 0 0 few) ≡ false }
    ensures two_bytes_are_said { is_over_said few 2 ≡ false }
    ensures three_are_not { is_over_said few 3 ≡ true }
    ensures none_without_a_log { is_over_said (less 0 0 33 few) 0 ≡ true }
    ensures one_byte_is_noted { is_over_noted few 1 ≡ false }
    ensures two_are_not { is_over_noted few 2 ≡ true }
    ensures a_note_needs_no_log { is_over_noted (less 0 0 64 few) 1 ≡ false }
    ensures written_to_the_end { is_over_part few 3 1 3 ≡ false }
    ensures written_past_it { is_over_part few 3 1 4 ≡ true }
    ensures written_over_a_longer_part { is_over_part few 6 1 5 ≡ false }
    ensures a_longer_part_grows { is_over_part few 6 1 6 ≡ true }
    ensures logged { is_logged_out few 32 ≡ false }
    ensures not_logged { is_logged_out few 33 ≡ true }
    ensures left { less 2 0 32 few ≡ record { failing = 3 ∷ []; calls = 4; part = 4; said = 0; noted = 1; log = 32 } }
{}

/// The moments of a desk over memory whose first slot was `1` and was written `7`, before `5 6` was said: worked by hand.
pub fn worked_moments()
    ensures before_the_write { PairsAt (at_parts (1 ∷ []) [] []) (λ i. i ≡ at_parts (1 ∷ []) [] []) [] (Writing Zero 0 (7 ∷ []) true ∷ Saying (5 ∷ 6 ∷ []) ∷ []) 0 (at_parts (1 ∷ []) [] []) [] }
    ensures behind_the_write { PairsAt (at_parts (1 ∷ []) [] []) (λ i. i ≡ at_parts (1 ∷ []) [] []) [] (Writing Zero 0 (7 ∷ []) true ∷ Saying (5 ∷ 6 ∷ []) ∷ []) 1 (at_parts (9 ∷ []) [] []) [] }
    ensures within_the_say { PairsAt (at_parts (1 ∷ []) [] []) (λ i. i ≡ at_parts (1 ∷ []) [] []) [] (Writing Zero 0 (7 ∷ []) true ∷ Saying (5 ∷ 6 ∷ []) ∷ []) 1 (at_parts (7 ∷ []) [] []) (5 ∷ []) }
    ensures behind_the_say { PairsAt (at_parts (1 ∷ []) [] []) (λ i. i ≡ at_parts (1 ∷ []) [] []) [] (Writing Zero 0 (7 ∷ []) true ∷ Saying (5 ∷ 6 ∷ []) ∷ []) 2 (at_parts (7 ∷ []) [] []) (5 ∷ 6 ∷ []) }
    ensures no_half_of_it { PairsAt (at_parts (1 ∷ []) [] []) (λ i. i ≡ at_parts (1 ∷ []) [] []) [] (Writing Zero 0 (7 ∷ []) true ∷ Saying (5 ∷ 6 ∷ []) ∷ []) 2 (at_parts (7 ∷ []) [] []) (5 ∷ []) → ⊥ }
    ensures no_later_moment { PairsAt (at_parts (1 ∷ []) [] []) (λ i. i ≡ at_parts (1 ∷ []) [] []) [] (Writing Zero 0 (7 ∷ []) true ∷ Saying (5 ∷ 6 ∷ []) ∷ []) 3 (at_parts (7 ∷ []) [] []) (5 ∷ 6 ∷ []) → ⊥ }
    ensures first_write { event_of (Wrote One 4 2 true) (5 ∷ []) (7 ∷ 8 ∷ 9 ∷ []) ≡ Writing One 4 (7 ∷ 8 ∷ []) true }
    ensures written_behind_it { written_past (Wrote One 4 2 true) (7 ∷ 8 ∷ 9 ∷ []) ≡ 9 ∷ [] }
    ensures said_behind_it { said_past (Wrote One 4 2 true) (5 ∷ []) ≡ 5 ∷ [] }
    ensures half_a_write_is_kept { KeepsOf (Writing Zero 0 (7 ∷ 8 ∷ []) true) (at_parts (7 ∷ 8 ∷ []) [] []) (at_parts (1 ∷ 2 ∷ []) [] []) (at_parts (7 ∷ 2 ∷ []) [] []) }
    ensures a_synced_part_is_kept { KeepsOf (Syncing Zero) (at_parts (7 ∷ 8 ∷ []) [] []) (at_parts (7 ∷ 2 ∷ []) [] []) (at_parts (7 ∷ 8 ∷ []) [] []) }
{}

/// What a stop leaves of a desk over a drive, worked by hand: replies between `1` and `1 2 3`; and of the stages 1 and 2, with 3 now, the
/// pairs from the first call on and from the second one on, where a stop within a call finds the two stages as replies, and now the one.
pub fn worked_stages()
    ensures between { IsBetween (Some (1 ∷ [])) (Some (1 ∷ 2 ∷ 3 ∷ [])) (1 ∷ 2 ∷ []) }
    ensures less_than_before { IsBetween (Some (1 ∷ [])) (Some (1 ∷ 2 ∷ 3 ∷ [])) [] → ⊥ }
    ensures more_than_now { IsBetween (Some (1 ∷ [])) (Some (1 ∷ 2 ∷ 3 ∷ [])) (1 ∷ 2 ∷ 3 ∷ 4 ∷ []) → ⊥ }
    ensures not_told { IsBetween None (Some []) (9 ∷ []) }
    ensures within_the_first_call { (image : Image) → PairsFrom (λ (a : ℕ) (b : ℕ) i w. w ≡ a ∷ b ∷ []) (λ a i w. w ≡ a ∷ []) (1 ∷ 2 ∷ []) 3 0 image (1 ∷ 2 ∷ []) }
    ensures behind_the_first_call { (image : Image) → PairsFrom (λ (a : ℕ) (b : ℕ) i w. w ≡ a ∷ b ∷ []) (λ a i w. w ≡ a ∷ []) (1 ∷ 2 ∷ []) 3 1 image (1 ∷ 2 ∷ []) → ⊥ }
    ensures within_the_second_call { (image : Image) → PairsFrom (λ (a : ℕ) (b : ℕ) i w. w ≡ a ∷ b ∷ []) (λ a i w. w ≡ a ∷ []) (1 ∷ 2 ∷ []) 3 1 image (2 ∷ 3 ∷ []) }
    ensures now { (image : Image) → PairsFrom (λ (a : ℕ) (b : ℕ) i w. w ≡ a ∷ b ∷ []) (λ a i w. w ≡ a ∷ []) (1 ∷ 2 ∷ []) 3 2 image (3 ∷ []) }
{}
