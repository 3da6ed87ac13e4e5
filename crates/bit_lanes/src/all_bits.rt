ghost use Rattle.std.specs.Prelude.{◌≡◌, ◌↔◌, min, IsTrue, length};
ghost use Rattle.bit_lanes.specs.Lanes.{AllIn};
ghost use Rattle.bit_lanes.specs.Words.{has_all};

use crate::place_tests::{PlaceTest, each_passes, vector_at};
use std::simd::prelude::*;

// At each place: whether the word of `have` has each bit of the word of `want`.
#[derive(Clone, Copy)]
struct AllBits<'a> {
    have: &'a [u64],
    want: &'a [u64],
}

impl<'a> PlaceTest for AllBits<'a> {
    ghost count = { λ s. min (length s.have.now) (length s.want.now) };

    ghost passes = { λ s. has_all s.have.now s.want.now };

    fn places(&self) -> usize {
        self.have.len().min(self.want.len())
    }

    fn passes_at(&self, place: usize) -> bool {
        self.have[place] & self.want[place] == self.want[place]
    }

    fn passes_from(&self, place: usize) -> bool {
        let have = vector_at(self.have, place);
        let want = vector_at(self.want, place);
        (have & want).simd_ne(want).to_bitmask() == 0
    }
}

/// Whether each bit of `want` is in `have`.
pub fn all_in(have: &[u64], want: &[u64]) -> bool
    requires { length have.now ≡ length want.now }
    ensures { IsTrue result ↔ AllIn have.now want.now }
{
    each_passes(&AllBits { have, want })
}
