ghost use Rattle.std.specs.Prelude.{◌≡◌, ◌+◌, ◌<◌, ◌≤◌, ◌↔◌, ℕ, List, [], All, OnOk, cond, length, slice_set, true, Some, None, IsSome, IfSome, IfOk, OnErr, IsErrOf};
ghost use Rattle.std.specs.Str.{bytes_eq};
ghost use Rattle.bit_lanes.specs.Lanes.{bit_of};
ghost use Rattle.attr_pool.specs.Slots.{free_slot, holds, slot_of, slot_at, held_count, most_slots, most_uses, without_use, row_bit, Interned, IsPool};
ghost use Rattle.attr_pool.specs.Uses.{times, uses_of, has_slots, can_be_counted, AreInUse, KeepsSlots};

use crate::kept_slots::KeptSlots;
use crate::room::has_slots;
use crate::rows::{Row, empty_row, set_bit};
use crate::uses::{can_count, intern_each, intern_in, release_each};
use ctrl_model::{MOST_ATTRIBUTES, Name, Names};
use std::alloc::{AllocError, Global};
use std::marker::Model;
use thiserror::Error;

/// Why an attribute gets no slot.
#[derive(Clone, Copy, Debug, PartialEq, Eq, Error)]
pub enum PoolFault {
    /// As many attributes are held as may be, and this is none of them.
    #[error("all slots are held")]
    Full,
    /// No more uses of the attribute can be counted.
    #[error("no memory")]
    NoMemory,
}

/// The attributes in use, each with a slot. Contracts see the slots, with the name and the uses of each.
#[derive(Drop)]
pub struct Pool {
    slots: KeptSlots,
}

impl Model for Pool {
    ghost use Rattle.std.specs.Prelude.{List};
    ghost use Rattle.attr_pool.specs.Slots.{Slot, IsPool};

    ghost Value = { List Slot };

    ghost view = { λ p. p.slots };

    ghost invariant = { λ p. IsPool p.slots };
}

// Sets the bit of a name in a row, where a slot holds it.
fn add_bit(slots: &KeptSlots, name: &Name, row: &mut Row)
    requires { IsPool slots.now }
    ensures { (n : ℕ) → bit_of row.new n ≡ cond (holds name.now (slot_at slots.now n)) 1 (bit_of row.old n) }
{
    match slots.slot_of(name) {
        Some(number) => set_bit(row, number),
        None => (),
    }
}

// The row of some names.
fn row_of(slots: &KeptSlots, names: &[Name]) -> Row
    requires { IsPool slots.now }
    ensures { (n : ℕ) → bit_of result n ≡ row_bit slots.now names.now n }
{
    let mut row = empty_row();
    'names: for name in names {
        add_bit(slots, name, &mut row);
    }
    row
}

impl Pool {
    /// A pool that holds no attribute. It takes all its memory here.
    pub fn new(alloc: Global) -> Result<Pool, AllocError>
        ensures long { IfOk result (λ pool. length pool ≡ most_slots) }
        ensures free { IfOk result (λ pool. All (λ slot. slot ≡ free_slot) pool) }
    {
        let slots = KeptSlots::free(alloc)?;
        Ok(Pool { slots })
    }

    /// Adds one use of a name and answers its slot.
    ///
    /// `Full` comes exactly where 4,096 names are held and this is none of them, and `NoMemory` exactly where no more uses of the
    /// name can be counted.
    pub fn intern(&mut self, name: &Name) -> Result<u16, PoolFault>
        ensures ok { IfOk result (λ n. Interned name.now n self.old self.new) }
        ensures err { OnErr result (self.new ≡ self.old) }
        ensures full { IsErrOf result PoolFault.Full ↔ (slot_of name.now self.old ≡ None) × (held_count self.old ≡ most_slots) }
        ensures memory { IsErrOf result PoolFault.NoMemory ↔ (uses_of name.now self.old ≡ most_uses) }
        ensures uses { OnOk result ((q : List ℕ) → uses_of q self.new ≡ uses_of q self.old + cond (bytes_eq name.now q) 1 0) }
    {
        intern_in(&mut self.slots, name)
    }

    /// Takes one use away from a held slot. The slot is free without one.
    pub fn release(&mut self, slot: u16)
        requires { 0 < (slot_at self.old slot).uses }
        ensures { self.new ≡ slice_set self.old slot (without_use (slot_at self.old slot)) }
    {
        self.slots.let_go_at(usize::from(slot));
    }

    /// The row of some names: exactly the bits of the slots that hold one of them are set. A name that is not held has none.
    pub fn row_of(&self, names: &Names) -> Row
        ensures { (n : ℕ) → bit_of result n ≡ row_bit self.now names.now n }
    {
        row_of(&self.slots, names.as_slice())
    }

    /// The slot of a name. None exactly where it is not held. No other slot holds it.
    pub fn slot_of(&self, name: &Name) -> Option<u16>
        ensures number { result ≡ slot_of name.now self.now }
        ensures small { IfSome result (λ n. n < most_slots) }
        ensures alone { (n : ℕ) → n < most_slots → holds name.now (slot_at self.now n) ≡ true → result ≡ Some n }
    {
        match self.slots.slot_of(name) {
            Some(number) => Some(number as u16),
            None => None,
        }
    }

    /// Whether a use more of each name can be counted.
    pub fn can_count(&self, names: &Names) -> bool
        ensures { result ≡ can_be_counted self.now names.now }
    {
        can_count(&self.slots, names.as_slice())
    }

    /// Whether there would be a slot for each name that is held once a use of each entry of `gone` is taken away, and one of each
    /// entry of `fresh` is added.
    pub fn has_room(&self, gone: &Names, fresh: &Names) -> bool
        requires { AreInUse self.now gone.now }
        ensures { result ≡ has_slots self.now gone.now fresh.now }
    {
        has_slots(&self.slots, gone.as_slice(), fresh.as_slice())
    }

    /// Adds one use of each name. A name that has uses before keeps its slot.
    pub fn intern_all(&mut self, names: &Names)
        requires room { has_slots self.old [] names.now ≡ true }
        requires counted { can_be_counted self.old names.now ≡ true }
        ensures uses { (q : List ℕ) → uses_of q self.new ≡ uses_of q self.old + times q names.now }
        ensures slots { KeepsSlots self.old self.new }
    {
        intern_each(&mut self.slots, names.as_slice());
    }

    /// Takes one use of each name away. A name that still has uses keeps its slot.
    pub fn release_all(&mut self, names: &Names)
        requires { AreInUse self.old names.now }
        ensures uses { (q : List ℕ) → uses_of q self.new + times q names.now ≡ uses_of q self.old }
        ensures slots { KeepsSlots self.old self.new }
    {
        release_each(&mut self.slots, names.as_slice());
    }
}
