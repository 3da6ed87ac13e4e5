ghost use Rattle.std.specs.Prelude.{◌≡◌, [], ◌∷◌, true, false};
ghost use Rattle.bit_lanes.specs.Lanes.{bit_of, AllIn, AnyIn, Meets, bit_row, absent, together, Sweeps};

/// A row of the words 5 and 1 has the bits 0, 2 and 64.
pub fn worked_bits()
    ensures first { bit_of (5 ∷ 1 ∷ []) 0 ≡ 1 }
    ensures not_second { bit_of (5 ∷ 1 ∷ []) 1 ≡ 0 }
    ensures third { bit_of (5 ∷ 1 ∷ []) 2 ≡ 1 }
    ensures next_word { bit_of (5 ∷ 1 ∷ []) 64 ≡ 1 }
    ensures behind { bit_of (5 ∷ 1 ∷ []) 128 ≡ 0 }
    ensures highest { bit_of (9223372036854775808 ∷ []) 63 ≡ 1 }
    ensures second_row { bit_row (1 ∷ 2 ∷ 3 ∷ 4 ∷ []) 2 1 ≡ 3 ∷ 4 ∷ [] }
{}

/// The bits 1 and 2 against the bits 0, 2 and 64: bit 2 is common, and bit 1 is missing. Of no bits each is there, and none is common.
pub fn worked_rows()
    ensures all { AllIn (7 ∷ 1 ∷ []) (5 ∷ 0 ∷ []) }
    ensures one_missing { AllIn (5 ∷ 1 ∷ []) (6 ∷ 0 ∷ []) → ⊥ }
    ensures some { AnyIn (5 ∷ 1 ∷ []) (6 ∷ 0 ∷ []) }
    ensures none_common { AnyIn (5 ∷ 1 ∷ []) (2 ∷ 2 ∷ []) → ⊥ }
    ensures all_of_nothing { Meets true (5 ∷ []) (0 ∷ []) }
    ensures some_of_nothing { Meets false (5 ∷ []) (0 ∷ []) → ⊥ }
{}

/// Sums near the greatest number, and columns of three places, of which the second one just holds: with 1 more on its left side
/// it does not. An absent number is at most an absent sum alone, and every number is at most that.
pub fn worked_columns()
    ensures sum { together 21 21 ≡ 42 }
    ensures over_absent { together 21 absent ≡ absent }
    ensures reaches_absent { together 18446744073709551614 1 ≡ absent }
    ensures short_of_absent { together 18446744073709551613 1 ≡ 18446744073709551614 }
    ensures each { Sweeps (40 ∷ 21 ∷ 0 ∷ []) (21 ∷ 21 ∷ 5 ∷ []) (21 ∷ 0 ∷ 42 ∷ []) }
    ensures one_too_high { Sweeps (40 ∷ 22 ∷ 0 ∷ []) (21 ∷ 21 ∷ 5 ∷ []) (21 ∷ 0 ∷ 42 ∷ []) → ⊥ }
    ensures absent_over_absent { Sweeps (absent ∷ 7 ∷ []) (21 ∷ 21 ∷ []) (absent ∷ absent ∷ []) }
    ensures absent_over_present { Sweeps (absent ∷ []) (21 ∷ []) (3 ∷ []) → ⊥ }
    ensures no_places { Sweeps [] [] [] }
{}
