ghost use Rattle.std.specs.Prelude.{◌≡◌, ◌<◌, ◌≤◌, ◌==◌, not, cond, length};
ghost use Rattle.attr_pool.specs.Slots.{free_slot, is_free, holds, with_use, without_use, most_uses};
ghost use Rattle.ctrl_model.specs.Limits.{longest_name};

use ctrl_model::LONGEST_NAME;
use std::marker::Model;

/// One slot of a pool. Contracts see its name and its uses.
#[derive(Drop)]
pub struct KeptSlot {
    uses: u64,
    length: usize,
    bytes: [u8; LONGEST_NAME],
}

impl Model for KeptSlot {
    ghost use Rattle.std.specs.Prelude.{◌≡◌, ◌≤◌, take, length};
    ghost use Rattle.ctrl_model.specs.Limits.{longest_name};
    ghost use Rattle.attr_pool.specs.Slots.{Slot, slot_with};

    ghost Value = { Slot };

    ghost view = { λ s. slot_with (take s.length s.bytes) s.uses };

    ghost invariant = { λ s. s.length ≤ longest_name };
}

impl KeptSlot {
    /// A free slot.
    pub fn free() -> KeptSlot
        ensures { result ≡ free_slot }
    {
        KeptSlot {
            uses: 0,
            length: 0,
            bytes: [0; LONGEST_NAME],
        }
    }

    /// Whether the slot is free.
    pub fn is_free(&self) -> bool
        ensures { result ≡ is_free self.now }
    {
        self.uses == 0
    }

    /// Whether the slot holds a name.
    pub fn holds(&self, name: &[u8]) -> bool
        ensures { result ≡ holds name.now self.now }
    {
        self.uses != 0 && self.name() == name
    }

    /// The bytes of the name.
    pub fn name(&self) -> &[u8]
        ensures { result.now ≡ self.now.name }
    {
        &self.bytes[..self.length]
    }

    /// How many uses the name has.
    pub fn uses(&self) -> u64
        ensures { result ≡ self.now.uses }
    {
        self.uses
    }

    /// Puts a name into a free slot.
    pub fn take(&mut self, name: &[u8])
        requires short { length name.now ≤ longest_name }
        requires free { self.old.uses ≡ 0 }
        ensures { self.new ≡ with_use name.now self.old }
    {
        self.length = name.len();
        self.bytes[..name.len()].copy_from_slice(name);
        self.uses = 1;
    }

    /// Adds one use. False where no more can be counted.
    pub fn add_use(&mut self) -> bool
        ensures counted { result ≡ not (self.old.uses == most_uses) }
        ensures value { self.new ≡ cond result (with_use self.old.name self.old) self.old }
    {
        if self.uses == u64::MAX {
            return false;
        }
        self.uses += 1;
        true
    }

    /// Takes one use away. The slot is free without one.
    pub fn let_go(&mut self)
        requires { 0 < self.old.uses }
        ensures { self.new ≡ without_use self.old }
    {
        self.uses -= 1;
        if self.uses == 0 {
            self.length = 0;
        }
    }
}
