ghost use Rattle.std.specs.Prelude.{◌≡◌, ◌↔◌, min, IsTrue, length};
ghost use Rattle.bit_lanes.specs.Lanes.{Sweeps};
ghost use Rattle.bit_lanes.specs.Words.{is_at_most};

use crate::place_tests::{PlaceTest, each_passes, vector_at};
use std::simd::prelude::*;

// At each place: whether the left word is at most the other two together.
#[derive(Clone, Copy)]
struct Columns<'a> {
    left: &'a [u64],
    cost: &'a [u64],
    right: &'a [u64],
}

impl<'a> PlaceTest for Columns<'a> {
    ghost count = { λ s. min (length s.left.now) (min (length s.cost.now) (length s.right.now)) };

    ghost passes = { λ s. is_at_most s.left.now s.cost.now s.right.now };

    fn places(&self) -> usize {
        self.left.len().min(self.cost.len().min(self.right.len()))
    }

    fn passes_at(&self, place: usize) -> bool {
        self.left[place] <= self.cost[place].saturating_add(self.right[place])
    }

    fn passes_from(&self, place: usize) -> bool {
        let left = vector_at(self.left, place);
        let cost = vector_at(self.cost, place);
        let right = vector_at(self.right, place);
        cost.saturating_add(right).simd_lt(left).to_bitmask() == 0
    }
}

/// Whether at each place `left` is at most the sum of `cost` and `right`, where a sum that reaches `u64::MAX` counts as
/// `u64::MAX`, which stands for absent.
pub fn sweep(left: &[u64], cost: &[u64], right: &[u64]) -> bool
    requires cost { length cost.now ≡ length left.now }
    requires right { length right.now ≡ length left.now }
    ensures { IsTrue result ↔ Sweeps left.now cost.now right.now }
{
    each_passes(&Columns { left, cost, right })
}
