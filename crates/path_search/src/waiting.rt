ghost use Rattle.std.specs.Prelude.{◌≡◌, ◌≤◌, ◌∷◌, [], IfOk, OnOk, IfSome, IfNone};
ghost use Rattle.std.specs.List.{All};
ghost use Rattle.std.specs.List.Sorted.{IsPermutation};

use std::alloc::{AllocError, Global};
use std::cmp::Reverse;
use std::collections::BinaryHeap;
use std::marker::Model;

/// Places that wait, each with its potential from when it began to wait: the least comes first.
///
/// Contracts see the pairs of potential and place, in some order.
#[derive(Drop)]
pub struct Waiting {
    heap: BinaryHeap<Reverse<(u64, u16)>>,
}

impl Model for Waiting {
    ghost use Rattle.std.specs.Prelude.{ℕ, List, map};
    ghost use Rattle.std.specs.BinaryHeap.{heap_items, IsHeap};
    ghost use Rattle.std.specs.Ordering.{nat_cmp, ordering_then};

    ghost Value = { List (ℕ × ℕ) };

    ghost view = { λ w. map (λ e. e.0) (heap_items w.heap) };

    ghost invariant = { λ w. IsHeap (λ x y. ordering_then (nat_cmp y.0.0 x.0.0) (nat_cmp y.0.1 x.0.1)) (heap_items w.heap) };
}

impl Waiting {
    /// No place waits.
    pub fn new(alloc: Global) -> Waiting
        ensures { result ≡ [] }
    {
        Waiting {
            heap: BinaryHeap::new(alloc),
        }
    }

    /// The place waits with its potential.
    pub fn push(&mut self, potential: u64, place: u16) -> Result<(), AllocError>
        ensures { OnOk result (IsPermutation ((potential, place) ∷ self.old) self.new) }
    {
        self.heap.push(Reverse((potential, place)))?;
        Ok(())
    }

    /// The pair of the least potential, which waits no longer.
    pub fn pop(&mut self) -> Option<(u64, u16)>
        ensures some { IfSome result (λ e. IsPermutation self.old (e ∷ self.new)) }
        ensures least { IfSome result (λ e. All (λ other. e.0 ≤ other.0) self.old) }
        ensures none { IfNone result (self.old ≡ []) }
    {
        let Reverse(pair) = self.heap.pop()?;
        Some(pair)
    }
}
