ghost use Rattle.std.specs.Prelude.{◌≡◌, ℕ, List, [], ◌∷◌, ◌++◌, codes, length, None, Some};
ghost use Rattle.row_codec.specs.Batches.{batch_bytes};
ghost use Rattle.row_codec.specs.declared.changes.Op.TheVariants.{Put, Delete};
ghost use Rattle.row_store.specs.WorkedStores.{ops_of_ann};
ghost use Rattle.follow_core.specs.declared.taken.Taken.TheVariants.{Took, Repeat, Old, Piece, Skipped, Ahead, BadShip, BadBatch, Differs, Full, MarkFull};
ghost use Rattle.follow_core.specs.Following.{received, follow, own_serial};
ghost use Rattle.ship_frames.specs.Pieces.{piece_frame};
ghost use Rattle.ship_frames.specs.WorkedPieces.{framed, frame_of_two, of_serial, of_number, of_count};
ghost use Rattle.follow_core.specs.WorkedCopies.{no_copy, ann, copy_of_ann, puts_next, puts_bob, puts_first, puts_serial, bob, both, whole, next, roomy, slot_of_most, mark_of_most, rows_of_both, ann_in_parts, copy_of_both, copy_of_whole};

/// What becomes of batches that are taken, worked by hand: the first Whole, a Next behind it, and a Whole in place of what was kept, whose mark has a
/// byte more. The Whole that is kept is a repeat; another one of its serial differs from it at the place of the name, or at that of the value's
/// length.
pub fn worked_copies()
    ensures first { received roomy (whole 1 ann) no_copy ≡ (Took, copy_of_ann) }
    ensures next { received roomy (next 2 (bob 2)) copy_of_ann ≡ (Took, copy_of_both) }
    ensures whole { received roomy (whole 2 (both 2)) copy_of_ann ≡ (Took, copy_of_whole 2) }
    ensures later { received roomy (whole 9 (both 9)) copy_of_ann ≡ (Took, copy_of_whole 9) }
    ensures repeat { received roomy (whole 1 ann) copy_of_ann ≡ (Repeat, copy_of_ann) }
    ensures own { (own_serial copy_of_ann ≡ 1) × (own_serial no_copy ≡ 0) }
    ensures own_behind { (own_serial copy_of_both ≡ 2) × (own_serial (copy_of_whole 2) ≡ 2) × (own_serial (copy_of_whole 9) ≡ 9) }
{}

/// What becomes of frames, worked by hand: of a batch in one piece, also where a header is told twice; of the first piece of two, and of pieces that
/// go on with nothing in parts.
pub fn worked_frames()
    ensures one { follow roomy (piece_frame 0 (whole 1 ann) 0) no_copy ≡ (Took, copy_of_ann) }
    ensures last_header_counts { follow roomy (framed 1901 (of_serial 2 ∷ of_number 0 ∷ of_count 7 0 ∷ of_count 1 0 ∷ []) (bob 2)) copy_of_ann ≡ (Took, copy_of_both) }
    ensures first { (body : List ℕ) → length body ≡ 1048576 → follow roomy (frame_of_two 0 2 0 body) copy_of_ann ≡ (Piece, ann_in_parts body) }
    ensures alone { follow roomy (frame_of_two 1 2 0 (bob 2)) copy_of_ann ≡ (Skipped, copy_of_ann) }
    ensures other_serial { (bytes : List ℕ) → follow roomy (framed 1901 (of_serial 3 ∷ of_number 1 ∷ of_count 2 0 ∷ []) (bob 2)) (ann_in_parts bytes)
        ≡ (Skipped, ann_in_parts bytes) }
{}

/// Frames that are no piece of a batch, worked by hand: the copy stays, and so does what is in parts.
pub fn worked_bad_frames()
    ensures other_type { (bytes : List ℕ) → follow roomy (framed 1902 (of_serial 2 ∷ of_number 0 ∷ of_count 1 0 ∷ []) (bob 2)) (ann_in_parts bytes)
        ≡ (BadShip, ann_in_parts bytes) }
    ensures no_count { follow roomy (framed 1901 (of_serial 2 ∷ of_number 0 ∷ []) (bob 2)) copy_of_ann ≡ (BadShip, copy_of_ann) }
    ensures short_serial { follow roomy (framed 1901 (record { key = 1000; value = 2 ∷ 0 ∷ 0 ∷ 0 ∷ [] } ∷ of_number 0 ∷ of_count 1 0 ∷ []) (bob 2)) copy_of_ann
        ≡ (BadShip, copy_of_ann) }
    ensures none_of_none { follow roomy (frame_of_two 0 0 0 (bob 2)) copy_of_ann ≡ (BadShip, copy_of_ann) }
    ensures too_many { follow roomy (frame_of_two 0 1 4 (bob 2)) copy_of_ann ≡ (BadShip, copy_of_ann) }
    ensures past_them { follow roomy (frame_of_two 1 1 0 (bob 2)) copy_of_ann ≡ (BadShip, copy_of_ann) }
    ensures too_short { follow roomy (frame_of_two 0 2 0 (bob 2)) copy_of_ann ≡ (BadShip, copy_of_ann) }
    ensures without_a_byte { follow roomy (frame_of_two 0 1 0 []) copy_of_ann ≡ (BadShip, copy_of_ann) }
{}

/// What becomes of batches that are refused, worked by hand. The copy stays.
pub fn worked_refusals()
    ensures no_batch { received roomy (whole 2 (3 ∷ [])) copy_of_ann ≡ (BadBatch, copy_of_ann) }
    ensures no_old_batch { received roomy (next 1 (3 ∷ [])) copy_of_ann ≡ (BadBatch, copy_of_ann) }
    ensures other_serial { received roomy (whole 2 ann) copy_of_ann ≡ (BadBatch, copy_of_ann) }
    ensures no_difference { received roomy (whole 1 (batch_bytes (Delete (3 ∷ 0 ∷ 0 ∷ 0 ∷ 9 ∷ []) ∷ puts_serial 1 ∷ []))) copy_of_ann ≡ (BadBatch, copy_of_ann) }
    ensures other_name { received roomy (whole 1 (batch_bytes (Put (1 ∷ 1 ∷ []) (2 ∷ 0 ∷ 0 ∷ 0 ∷ []) ∷ puts_first (codes "anm") (0 ∷ []) ∷ puts_serial 1 ∷ []))) copy_of_ann
        ≡ (Differs 1 26, copy_of_ann) }
    ensures longer_value { received roomy (whole 1 (batch_bytes (Put (1 ∷ 1 ∷ []) (2 ∷ 0 ∷ 0 ∷ 0 ∷ []) ∷ puts_first (codes "ann") (1 ∷ 1 ∷ 97 ∷ []) ∷ puts_serial 1 ∷ []))) copy_of_ann
        ≡ (Differs 1 19, copy_of_ann) }
    ensures old_next { received roomy (next 1 (bob 1)) copy_of_ann ≡ (Old, copy_of_ann) }
    ensures older_next { received roomy (next 0 (bob 1)) copy_of_ann ≡ (Old, copy_of_ann) }
    ensures old_whole { received roomy (whole 0 (batch_bytes ops_of_ann)) copy_of_ann ≡ (Old, copy_of_ann) }
    ensures gap { received roomy (next 3 (bob 3)) copy_of_ann ≡ (Ahead, copy_of_ann) }
    ensures no_start { received roomy (next 1 (bob 1)) no_copy ≡ (Ahead, no_copy) }
    ensures serial_of_rows { received roomy (next 2 (bob 3)) copy_of_ann ≡ (BadBatch, copy_of_ann) }
    ensures no_next_number { received roomy (next 2 (batch_bytes (puts_bob ∷ puts_serial 2 ∷ []))) copy_of_ann ≡ (BadBatch, copy_of_ann) }
    ensures equal_row { received roomy (next 2 (both 2)) copy_of_ann ≡ (BadBatch, copy_of_ann) }
    ensures slot_for_next { received (slot_of_most 64) (next 2 (bob 2)) copy_of_ann ≡ (Full, copy_of_ann) }
    ensures slot_for_whole { received (slot_of_most 64) (whole 2 (both 2)) copy_of_ann ≡ (Full, copy_of_ann) }
    ensures mark { received (mark_of_most 1) (whole 2 (both 2)) copy_of_ann ≡ (MarkFull, copy_of_ann) }
{}
