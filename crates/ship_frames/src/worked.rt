ghost use Rattle.std.specs.Prelude.{◌≡◌, [], ◌∷◌, ◌^◌, ◌+◌, ℕ, List, length, take, drop, None, Some};
ghost use Rattle.ship_frames.specs.declared.gathering.Gathered.TheVariants as gathered;
ghost use Rattle.ship_frames.specs.declared.shipments.Sort.TheVariants as sort;
ghost use Rattle.ship_frames.specs.Pieces.{piece_count, piece_at, piece_frame, frames_of};
ghost use Rattle.ship_frames.specs.PieceReading.{piece_in};
ghost use Rattle.ship_frames.specs.GatheredPieces.{gather};
ghost use Rattle.ship_frames.specs.WorkedPieces.{next_five, of_serial, of_number, of_count, framed, frame_of_two, piece_of_two, first_piece, first_came, both_pieces};

/// Pieces, worked by hand: of no byte, of as many as one piece may have, and of one more; and the sequence past 2^32 frames.
pub fn worked_pieces()
    ensures of_none { piece_count [] ≡ 0 }
    ensures of_one { piece_count (7 ∷ []) ≡ 1 }
    ensures just_one { (bytes : List ℕ) → length bytes ≡ 1048576 → piece_count bytes ≡ 1 }
    ensures one_more { (bytes : List ℕ) → length bytes ≡ 1048577 → piece_count bytes ≡ 2 }
    ensures second { (bytes : List ℕ) → piece_at 1 bytes ≡ take 1048576 (drop 1048576 bytes) }
    ensures two_frames { (bytes : List ℕ) → length bytes ≡ 1048577 → frames_of 4 (next_five bytes) ≡ piece_frame 4 (next_five bytes) 0 ∷ piece_frame 5 (next_five bytes) 1 ∷ [] }
    ensures sequence { (bytes : List ℕ) → (piece_frame (2 ^ 32 + 3) (next_five bytes) 0).sequence ≡ 3 }
{}

/// Frames that are read as pieces, and frames that are none, worked by hand.
pub fn worked_readings()
    ensures one { piece_in (frame_of_two 0 1 0 (7 ∷ 8 ∷ [])) ≡ Some (piece_of_two 0 1 (7 ∷ 8 ∷ [])) }
    ensures first { (body : List ℕ) → length body ≡ 1048576 → piece_in (frame_of_two 0 2 0 body) ≡ Some (piece_of_two 0 2 body) }
    ensures last { piece_in (frame_of_two 255 0 1 (7 ∷ [])) ≡ Some (piece_of_two 255 256 (7 ∷ [])) }
    ensures last_header_counts { piece_in (framed 1901 (of_serial 2 ∷ of_number 0 ∷ of_count 7 0 ∷ of_count 1 0 ∷ []) (7 ∷ [])) ≡ Some (piece_of_two 0 1 (7 ∷ [])) }
    ensures other_type { (body : List ℕ) → piece_in (framed 1902 (of_serial 2 ∷ of_number 0 ∷ of_count 1 0 ∷ []) body) ≡ None }
    ensures no_count { (body : List ℕ) → piece_in (framed 1901 (of_serial 2 ∷ of_number 0 ∷ []) body) ≡ None }
    ensures short_serial { (body : List ℕ) → piece_in (framed 1901 (record { key = 1000; value = 2 ∷ 0 ∷ 0 ∷ 0 ∷ [] } ∷ of_number 0 ∷ of_count 1 0 ∷ []) body) ≡ None }
    ensures none_of_none { (body : List ℕ) → piece_in (frame_of_two 0 0 0 body) ≡ None }
    ensures too_many { (body : List ℕ) → piece_in (frame_of_two 0 1 4 body) ≡ None }
    ensures past_them { (body : List ℕ) → piece_in (frame_of_two 1 1 0 body) ≡ None }
    ensures too_short { piece_in (frame_of_two 0 2 0 (7 ∷ 8 ∷ [])) ≡ None }
    ensures too_long { (body : List ℕ) → length body ≡ 1048577 → piece_in (frame_of_two 0 1 0 body) ≡ None }
    ensures without_a_byte { piece_in (frame_of_two 0 1 0 []) ≡ None }
{}

/// What is gathered of pieces, worked by hand: a piece without those before it, the two of a batch, others between them, and the first one again.
pub fn worked_gatherings()
    ensures alone { gather None (piece_of_two 1 2 (8 ∷ [])) ≡ (gathered.Skipped, None) }
    ensures first { gather None first_piece ≡ (gathered.Waits, Some first_came) }
    ensures second { gather (Some first_came) (piece_of_two 1 2 (8 ∷ [])) ≡ (gathered.Whole both_pieces, None) }
    ensures other_serial { gather (Some first_came) (record (piece_of_two 1 2 (8 ∷ [])) { serial = 3 }) ≡ (gathered.Skipped, Some first_came) }
    ensures other_sort { gather (Some first_came) (record (piece_of_two 1 2 (8 ∷ [])) { sort = sort.Whole }) ≡ (gathered.Skipped, Some first_came) }
    ensures other_count { gather (Some first_came) (piece_of_two 1 3 (8 ∷ [])) ≡ (gathered.Skipped, Some first_came) }
    ensures again { gather (Some first_came) (piece_of_two 0 2 (9 ∷ [])) ≡ (gathered.Waits, Some (record first_came { bytes = 9 ∷ [] })) }
    ensures another { gather (Some first_came) (record (piece_of_two 0 1 (9 ∷ [])) { serial = 3 }) ≡ (gathered.Whole (record both_pieces { serial = 3; bytes = 9 ∷ [] }), None) }
{}
