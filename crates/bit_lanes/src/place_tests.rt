ghost use Rattle.std.specs.Prelude.{◌≡◌, ◌+◌, ◌*◌, ◌/◌, ◌^◌, ◌≤◌, ◌<◌, ℕ, Bool, true, false, length, slice_index};
ghost use Rattle.std.specs.Bool.{OnTrue, OnFalse};
ghost use Rattle.bit_lanes.specs.Words.{Lanes, lanes};

use std::simd::prelude::*;

/// How many words a vector has.
pub const LANES: usize = 8;

/// The vector of the words from a place on.
pub fn vector_at(words: &[u64], place: usize) -> u64x8
    requires { place + lanes ≤ length words.now }
    ensures vector { Lanes 0 lanes result (λ i. slice_index words.now (place + i)) }
    ensures fit { (i : ℕ) → slice_index words.now i < 2 ^ 64 }
{
    u64x8::from_slice(&words[place..place + LANES])
}

/// A test of each place of some rows of one length.
///
/// Contracts see two things of a test: how many places it has, and whether a place passes.
pub trait PlaceTest {
    ghost count: { Self → ℕ };

    ghost passes: { Self → ℕ → Bool };

    /// How many places there are.
    fn places(&self) -> usize
        ensures { result ≡ count self.now };

    /// Whether the place passes.
    fn passes_at(&self, place: usize) -> bool
        requires { place < count self.now }
        ensures { result ≡ passes self.now place };

    /// Whether each of the `LANES` places from this one on passes, in one vector.
    fn passes_from(&self, place: usize) -> bool
        requires { place + lanes ≤ count self.now }
        ensures all { OnTrue result ((n : ℕ) → place ≤ n → n < place + lanes → passes self.now n ≡ true) }
        ensures some { OnFalse result ((n : ℕ) × (n < place + lanes) × (passes self.now n ≡ false)) };
}

// Whether each place of the whole vectors passes.
fn vectors_pass<T: PlaceTest>(test: &T) -> bool
    ensures all { OnTrue result ((n : ℕ) → n < T.count test.now / lanes * lanes → T.passes test.now n ≡ true) }
    ensures some { OnFalse result ((n : ℕ) × (n < T.count test.now) × (T.passes test.now n ≡ false)) }
{
    'vectors: for vector in 0..test.places() / LANES {
        if !test.passes_from(vector * LANES) {
            return false;
        }
    }
    true
}

// Whether each place from this one on passes, one by one.
fn words_pass<T: PlaceTest>(test: &T, from: usize) -> bool
    ensures all { OnTrue result ((n : ℕ) → from ≤ n → n < T.count test.now → T.passes test.now n ≡ true) }
    ensures some { OnFalse result ((n : ℕ) × (n < T.count test.now) × (T.passes test.now n ≡ false)) }
{
    'words: for place in from..test.places() {
        if !test.passes_at(place) {
            return false;
        }
    }
    true
}

/// Whether each place passes: in vectors, and then word by word behind the last whole vector.
pub fn each_passes<T: PlaceTest>(test: &T) -> bool
    ensures all { OnTrue result ((n : ℕ) → n < T.count test.now → T.passes test.now n ≡ true) }
    ensures some { OnFalse result ((n : ℕ) × (n < T.count test.now) × (T.passes test.now n ≡ false)) }
{
    vectors_pass(test) && words_pass(test, test.places() / LANES * LANES)
}
