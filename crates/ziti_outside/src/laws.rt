ghost use Rattle.std.specs.Prelude.{◌≡◌, ℕ, List, [], ◌∷◌, length, take, None, Some};
ghost use Rattle.std.specs.Io.KnownBytes.{IsAtEnd};
ghost use Rattle.ziti_outside.specs.Told.{Gave, Took, AreTaken, IsFront};
ghost use Rattle.ziti_outside.specs.Causes.{Rose};
ghost use Rattle.ziti_outside.specs.Images.{Holds, StandAt, Torn, CutShort};

/// Examples of the words that speak of the outside, worked by hand.
pub fn worked_examples()
    ensures gave { Gave (Some (1 ∷ 2 ∷ 3 ∷ [])) (Some (3 ∷ [])) (1 ∷ 2 ∷ []) }
    ensures untold { Gave None None (1 ∷ 2 ∷ []) }
    ensures given_and_no_more_told { Gave (Some (1 ∷ [])) None (1 ∷ []) → ⊥ }
    ensures took { Took (Some (1 ∷ [])) (Some (1 ∷ 2 ∷ 3 ∷ [])) (2 ∷ 3 ∷ []) }
    ensures taken { AreTaken (Some (1 ∷ 2 ∷ [])) (1 ∷ 2 ∷ []) }
    ensures nothing_told_as_taken { AreTaken (Some (1 ∷ 2 ∷ [])) (1 ∷ []) → ⊥ }
    ensures front { IsFront (1 ∷ 2 ∷ []) (1 ∷ 2 ∷ 3 ∷ []) }
    ensures at_end { IsAtEnd (Some []) }
    ensures rose { Rose 4 5 }
    ensures stands_at_its_end { Rose 18446744073709551615 18446744073709551615 }
    ensures did_not_rise { Rose 4 4 → ⊥ }
    ensures written_over { Holds 1 (7 ∷ 8 ∷ []) (1 ∷ 2 ∷ 3 ∷ 4 ∷ []) (1 ∷ 7 ∷ 8 ∷ 4 ∷ []) }
    ensures written_past_the_end { Holds 2 (7 ∷ 8 ∷ []) (1 ∷ 2 ∷ 3 ∷ []) (1 ∷ 2 ∷ 7 ∷ 8 ∷ []) }
    ensures stand { StandAt 1 (2 ∷ 3 ∷ []) (1 ∷ 2 ∷ 3 ∷ 4 ∷ []) }
    ensures too_short { StandAt 3 (4 ∷ 5 ∷ []) (1 ∷ 2 ∷ 3 ∷ 4 ∷ []) → ⊥ }
{}

/// A write and a cut that a stop cuts short: examples worked by hand. Any bytes may stand in the range and past the old end.
pub fn worked_stops()
    ensures torn { Torn 1 2 (1 ∷ 2 ∷ 3 ∷ 4 ∷ []) (1 ∷ 9 ∷ 3 ∷ 4 ∷ []) }
    ensures torn_past_the_end { Torn 2 3 (1 ∷ 2 ∷ 3 ∷ []) (1 ∷ 2 ∷ 9 ∷ 9 ∷ []) }
    ensures torn_before_the_range { Torn 1 2 (1 ∷ 2 ∷ 3 ∷ 4 ∷ []) (9 ∷ 2 ∷ 3 ∷ 4 ∷ []) → ⊥ }
    ensures torn_behind_the_range { Torn 1 2 (1 ∷ 2 ∷ 3 ∷ 4 ∷ []) (1 ∷ 2 ∷ 3 ∷ 9 ∷ []) → ⊥ }
    ensures torn_shorter { Torn 1 2 (1 ∷ 2 ∷ 3 ∷ 4 ∷ []) (1 ∷ 2 ∷ 3 ∷ []) → ⊥ }
    ensures torn_longer { Torn 2 3 (1 ∷ 2 ∷ 3 ∷ []) (1 ∷ 2 ∷ 9 ∷ 9 ∷ 9 ∷ 9 ∷ []) → ⊥ }
    ensures cut { CutShort 1 (1 ∷ 2 ∷ 3 ∷ []) (1 ∷ 2 ∷ []) }
    ensures cut_too_far { CutShort 1 (1 ∷ 2 ∷ 3 ∷ []) [] → ⊥ }
    ensures cut_to_other_bytes { CutShort 1 (1 ∷ 2 ∷ 3 ∷ []) (9 ∷ []) → ⊥ }
    ensures longer_than_the_old_image { CutShort 1 (1 ∷ 2 ∷ 3 ∷ []) (1 ∷ 2 ∷ 3 ∷ 4 ∷ []) → ⊥ }
    ensures cut_of_a_shorter_image { CutShort 4 (1 ∷ 2 ∷ []) (1 ∷ 2 ∷ []) }
    ensures a_shorter_image_loses_nothing { CutShort 4 (1 ∷ 2 ∷ []) (1 ∷ []) → ⊥ }
{}

/// What a write and a cut do when nothing stops them, and that nothing was done, are among what a stop within them may leave,
/// also of an image that is shorter than the part reads.
pub fn stops_allow_both_ends()
    ensures written { (at : ℕ) (bytes old new : List ℕ) → Holds at bytes old new → Torn at (length bytes) old new }
    ensures unwritten { (at count : ℕ) (old : List ℕ) → Torn at count old old }
    ensures cut { (len : ℕ) (old : List ℕ) → CutShort len old (take len old) }
    ensures uncut { (len : ℕ) (old : List ℕ) → CutShort len old old }
{}
