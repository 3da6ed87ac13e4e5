ghost use Rattle.std.specs.Prelude.{◌≡◌, ◌↔◌, min, IsTrue, length};
ghost use Rattle.bit_lanes.specs.Lanes.{AnyIn};
ghost use Rattle.bit_lanes.specs.Words.{has_none};

use crate::place_tests::{PlaceTest, each_passes, vector_at};
use std::simd::prelude::*;

// At each place: whether the words have no bit in common.
#[derive(Clone, Copy)]
struct NoBits<'a> {
    have: &'a [u64],
    want: &'a [u64],
}

impl<'a> PlaceTest for NoBits<'a> {
    ghost count = { λ s. min (length s.have.now) (length s.want.now) };

    ghost passes = { λ s. has_none s.have.now s.want.now };

    fn places(&self) -> usize {
        self.have.len().min(self.want.len())
    }

    fn passes_at(&self, place: usize) -> bool {
        self.have[place] & self.want[place] == 0
    }

    fn passes_from(&self, place: usize) -> bool {
        let have = vector_at(self.have, place);
        let want = vector_at(self.want, place);
        (have & want).simd_ne(u64x8::splat(0)).to_bitmask() == 0
    }
}

/// Whether some bit of `want` is in `have`.
pub fn any_in(have: &[u64], want: &[u64]) -> bool
    requires { length have.now ≡ length want.now }
    ensures { IsTrue result ↔ AnyIn have.now want.now }
{
    !each_passes(&NoBits { have, want })
}
