ghost use Rattle.std.specs.Prelude.{◌≡◌, ◌+◌, ◌<◌, ◌≤◌, ◌↔◌, ℕ, List, [], cond, true, nat_le, None, IfOk, OnOk, OnErr, IsErrOf};
ghost use Rattle.std.specs.Str.{bytes_eq};
ghost use Rattle.attr_pool.specs.Slots.{slot_of, held_count, most_slots, most_uses, Interned, IsPool};
ghost use Rattle.attr_pool.specs.Uses.{times, uses_of, has_slots, can_be_counted, AreInUse, KeepsSlots};

use crate::kept_slots::KeptSlots;
use crate::names::times;
use crate::pool::PoolFault;
use ctrl_model::Name;

/// How many uses of a name are counted.
pub fn uses_in(slots: &KeptSlots, name: &Name) -> u64
    requires { IsPool slots.now }
    ensures { result ≡ uses_of name.now slots.now }
{
    match slots.slot_of(name) {
        Some(number) => slots.uses_at(number),
        None => 0,
    }
}

// Whether as many uses more of a name can be counted as it stands among some.
fn can_count_one(slots: &KeptSlots, names: &[Name], name: &Name) -> bool
    requires { IsPool slots.now }
    ensures { result ≡ nat_le (uses_of name.now slots.now + times name.now names.now) most_uses }
{
    let more = times(names, name) as u64;
    uses_in(slots, name) <= u64::MAX - more
}

/// Whether a use more of each name can be counted.
pub fn can_count(slots: &KeptSlots, names: &[Name]) -> bool
    requires { IsPool slots.now }
    ensures { result ≡ can_be_counted slots.now names.now }
{
    names.iter().all(|name| can_count_one(slots, names, name))
}

/// Adds one use of a name in its slot, or else in the first free one, and answers the slot.
pub fn intern_in(slots: &mut KeptSlots, name: &Name) -> Result<u16, PoolFault>
    requires { IsPool slots.old }
    ensures ok { IfOk result (λ n. Interned name.now n slots.old slots.new) }
    ensures err { OnErr result (slots.new ≡ slots.old) }
    ensures full { IsErrOf result PoolFault.Full ↔ (slot_of name.now slots.old ≡ None) × (held_count slots.old ≡ most_slots) }
    ensures memory { IsErrOf result PoolFault.NoMemory ↔ (uses_of name.now slots.old ≡ most_uses) }
    ensures uses { OnOk result ((q : List ℕ) → uses_of q slots.new ≡ uses_of q slots.old + cond (bytes_eq name.now q) 1 0) }
    ensures slots { OnOk result (KeepsSlots slots.old slots.new) }
    ensures pool { IsPool slots.new }
{
    let number = match slots.number_for(name) {
        Some(number) => number,
        None => return Err(PoolFault::Full),
    };
    if slots.use_at(number, name) {
        Ok(number as u16)
    } else {
        Err(PoolFault::NoMemory)
    }
}

/// Adds one use of each name.
pub fn intern_each(slots: &mut KeptSlots, names: &[Name])
    requires pool { IsPool slots.old }
    requires room { has_slots slots.old [] names.now ≡ true }
    requires counted { can_be_counted slots.old names.now ≡ true }
    ensures uses { (q : List ℕ) → uses_of q slots.new ≡ uses_of q slots.old + times q names.now }
    ensures slots { KeepsSlots slots.old slots.new }
    ensures pool { IsPool slots.new }
{
    'names: for name in names {
        match intern_in(slots, name) {
            Ok(_number) => (),
            Err(_fault) => unreachable!(),
        }
    }
}

// Takes one use of a name away.
fn release_in(slots: &mut KeptSlots, name: &Name)
    requires pool { IsPool slots.old }
    requires used { 0 < uses_of name.now slots.old }
    ensures uses { (q : List ℕ) → uses_of q slots.new + cond (bytes_eq name.now q) 1 0 ≡ uses_of q slots.old }
    ensures slots { KeepsSlots slots.old slots.new }
    ensures pool { IsPool slots.new }
{
    let number = slots.slot_of(name).unwrap();
    slots.let_go_at(number);
}

/// Takes one use of each name away.
pub fn release_each(slots: &mut KeptSlots, names: &[Name])
    requires pool { IsPool slots.old }
    requires used { AreInUse slots.old names.now }
    ensures uses { (q : List ℕ) → uses_of q slots.new + times q names.now ≡ uses_of q slots.old }
    ensures slots { KeepsSlots slots.old slots.new }
    ensures pool { IsPool slots.new }
{
    'names: for name in names {
        release_in(slots, name);
    }
}
