ghost use Rattle.std.specs.Prelude.{◌≡◌, ◌<◌, ◌≤◌, ◌==◌, ℕ, All, IfOk, Some, false, not, cond, position, length, slice_set};
ghost use Rattle.attr_pool.specs.Slots.{free_slot, is_free, slot_of, slot_at, number_for, held_count, most_slots, with_use, without_use, most_uses};

use crate::chains::{ChainedSlots, free_at, hold_at, slot_in};
use crate::slots::KeptSlot;
use ctrl_model::{MOST_ATTRIBUTES, Name};
use std::alloc::{AllocError, Global};
use std::marker::Model;

/// The slots of a pool. Contracts see the slots alone, and not how one is found by its name.
#[derive(Drop)]
pub struct KeptSlots {
    chained: ChainedSlots,
    // How many slots are held.
    held: usize,
    // No slot below this number is free.
    first: usize,
}

impl Model for KeptSlots {
    ghost use Rattle.std.specs.Prelude.{List};
    ghost use Rattle.attr_pool.specs.Slots.{Slot};
    ghost use Rattle.attr_pool.specs.Chains.{AreFound};

    ghost Value = { List Slot };

    ghost view = { λ s. s.chained.slots.items };

    ghost invariant = { λ s. AreFound s.chained.slots.items s.chained.links.items s.held s.first };
}

// As many free slots as there may be attributes.
fn free_slots(alloc: Global) -> Result<Vec<KeptSlot>, AllocError>
    ensures long { IfOk result (λ slots. length slots.items ≡ most_slots) }
    ensures free { IfOk result (λ slots. All (λ slot. slot ≡ free_slot) slots.items) }
{
    let mut slots = Vec::with_capacity(alloc, MOST_ATTRIBUTES)?;
    'slots: while slots.len() < MOST_ATTRIBUTES {
        slots.push(KeptSlot::free())?;
    }
    Ok(slots)
}

// The first free slot, where none below a number is free.
fn free_from(slots: &[KeptSlot], first: usize) -> Option<usize>
    requires low { (n : ℕ) → n < first → is_free (slot_at slots.now n) ≡ false }
    ensures { result ≡ position is_free slots.now }
{
    'slots: for number in first..slots.len() {
        if slots[number].is_free() {
            return Some(number);
        }
    }
    None
}

impl KeptSlots {
    /// Free slots, as many as there may be attributes. They take all their memory here.
    pub fn free(alloc: Global) -> Result<KeptSlots, AllocError>
        ensures long { IfOk result (λ slots. length slots ≡ most_slots) }
        ensures free { IfOk result (λ slots. All (λ slot. slot ≡ free_slot) slots) }
    {
        let slots = free_slots(alloc)?;
        let mut links = Vec::new(alloc);
        links.resize(2 * MOST_ATTRIBUTES, MOST_ATTRIBUTES as u16)?;
        Ok(KeptSlots {
            chained: ChainedSlots { slots, links },
            held: 0,
            first: 0,
        })
    }

    /// How many slots hold a name.
    pub fn held_count(&self) -> usize
        ensures count { result ≡ held_count self.now }
        ensures few { result ≤ most_slots }
    {
        self.held
    }

    /// The uses that a slot counts.
    pub fn uses_at(&self, number: usize) -> u64
        requires { number < length self.now }
        ensures { result ≡ (slot_at self.now number).uses }
    {
        self.chained.slots[number].uses()
    }

    /// The number of the slot that holds a name.
    pub fn slot_of(&self, name: &Name) -> Option<usize>
        ensures { result ≡ slot_of name.now self.now }
    {
        slot_in(&self.chained, name.bytes())
    }

    /// The number that a name has or gets.
    pub fn number_for(&self, name: &Name) -> Option<usize>
        ensures { result ≡ number_for name.now self.now }
    {
        match self.slot_of(name) {
            Some(number) => Some(number),
            None => free_from(self.chained.slots.as_slice(), self.first),
        }
    }

    /// Adds one use of a name under its number. False where no more can be counted.
    pub fn use_at(&mut self, number: usize, name: &Name) -> bool
        requires { number_for name.now self.old ≡ Some number }
        ensures counted { result ≡ not ((slot_at self.old number).uses == most_uses) }
        ensures value { self.new ≡ cond result (slice_set self.old number (with_use name.now (slot_at self.old number))) self.old }
    {
        if !self.chained.slots[number].is_free() {
            return self.chained.slots[number].add_use();
        }
        hold_at(&mut self.chained, number, name.bytes());
        self.held += 1;
        self.first = number + 1;
        true
    }

    /// Takes one use away from a slot that is not free.
    pub fn let_go_at(&mut self, number: usize)
        requires { 0 < (slot_at self.old number).uses }
        ensures { self.new ≡ slice_set self.old number (without_use (slot_at self.old number)) }
    {
        if self.chained.slots[number].uses() > 1 {
            self.chained.slots[number].let_go();
            return;
        }
        free_at(&mut self.chained, number);
        self.held -= 1;
        self.first = self.first.min(number);
    }
}
