ghost use Rattle.std.specs.Prelude.{◌≡◌, ◌≤◌, ◌<◌, ◌+◌, ◌-◌, ◌^◌, ℕ, List, [], ◌∷◌, ◌++◌, length, map, replicate, true, None, Some};
ghost use Rattle.std.specs.declared.option.Option.{Option};
ghost use Rattle.channel_frame.specs.declared.frames.Frame.{Frame};
ghost use Rattle.std.specs.List.{flat_map, AllByRecursion};
ghost use Rattle.ship_frames.specs.declared.gathering.Gathered.TheVariants as gathered;
ghost use Rattle.ship_frames.specs.declared.shipments.Shipment.{Shipment};
ghost use Rattle.ship_frames.specs.declared.shipments.Sort.{Sort};
ghost use Rattle.ship_frames.specs.Pieces.{piece_size, piece_count, piece_at, piece_frame, frames_of};
ghost use Rattle.ship_frames.specs.PieceReading.{BatchPiece, most_pieces, is_piece, piece_in, piece_with, pieces_of};
ghost use Rattle.ship_frames.specs.GatheredPieces.{Parts, parts_behind, gathered_all, bytes_held, IsPieceOf, TellsOf, IsFrontOf};

/// The pieces of a batch make it again: the bodies of its frames, one behind another, are its bytes. Each has one byte at least and no more
/// than a piece may have, and each but the last as many.
pub fn pieces_make_the_batch()
    ensures joined { (place : ℕ) (s : Shipment) → flat_map (λ f. f.body) (frames_of place s) ≡ s.bytes }
    ensures count { (place : ℕ) (s : Shipment) → length (frames_of place s) ≡ piece_count s.bytes }
    ensures some { (bytes : List ℕ) (number : ℕ) → number < piece_count bytes → 1 ≤ length (piece_at number bytes) }
    ensures most { (bytes : List ℕ) (number : ℕ) → length (piece_at number bytes) ≤ piece_size }
    ensures whole { (bytes : List ℕ) (number : ℕ) → number + 1 < piece_count bytes → length (piece_at number bytes) ≡ piece_size }
{}

/// The frames of a batch of no more pieces than a batch may have are read back as its pieces, in order, wherever they stand in the output.
pub fn pieces_are_read_back()
    ensures one { (place : ℕ) (s : Shipment) (number : ℕ) → s.serial < 2 ^ 64 → piece_count s.bytes ≤ most_pieces → number < piece_count s.bytes
        → piece_in (piece_frame place s number) ≡ Some (piece_with s number) }
    ensures all { (place : ℕ) (s : Shipment) → s.serial < 2 ^ 64 → piece_count s.bytes ≤ most_pieces
        → map piece_in (frames_of place s) ≡ map (λ (p : BatchPiece). Some p) (pieces_of s) }
{}

/// All pieces of a batch in order give exactly this batch, whatever was in parts before, and leave nothing in parts: each but the last waits for the
/// others.
pub fn pieces_in_order_give_the_batch()
    ensures gathered { (parts : Option Parts) (s : Shipment) → 1 ≤ length s.bytes → gathered_all parts (pieces_of s) ≡ replicate (piece_count s.bytes - 1) gathered.Waits ++ gathered.Whole s ∷ [] }
    ensures none { (parts : Option Parts) (s : Shipment) → 1 ≤ length s.bytes → parts_behind parts (pieces_of s) ≡ None }
{}

/// Whatever pieces of the batches of one history come, lost, repeated or reordered, each whole batch that is gathered is one of the history, with
/// exactly its bytes, and what is in parts is a front of one.
pub fn any_pieces_give_batches_of_the_history()
    ensures batches { (history : Sort → ℕ → List ℕ) (parts : Option Parts) (pieces : List BatchPiece) → IsFrontOf history parts → AllByRecursion (IsPieceOf history) pieces
        → AllByRecursion (TellsOf history) (gathered_all parts pieces) }
    ensures parts { (history : Sort → ℕ → List ℕ) (parts : Option Parts) (pieces : List BatchPiece) → IsFrontOf history parts → AllByRecursion (IsPieceOf history) pieces
        → IsFrontOf history (parts_behind parts pieces) }
{}

/// What is read of a frame can be a piece of a batch, and of whatever such pieces no more than 2^30 bytes are held in parts.
pub fn parts_are_bounded()
    ensures read { (f : Frame) (p : BatchPiece) → piece_in f ≡ Some p → is_piece p ≡ true }
    ensures held { (pieces : List BatchPiece) → AllByRecursion (λ (p : BatchPiece). is_piece p ≡ true) pieces → bytes_held (parts_behind None pieces) ≤ 2 ^ 30 }
{}
