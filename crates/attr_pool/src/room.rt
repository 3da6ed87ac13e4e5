ghost use Rattle.std.specs.Prelude.{◌≡◌, ◌≤◌, ◌&&◌, length, not};
ghost use Rattle.std.specs.List.{filter};
ghost use Rattle.std.specs.Set.{distinct_count};
ghost use Rattle.std.specs.Str.{bytes_eq};
ghost use Rattle.ctrl_model.specs.Matches.{has_name};
ghost use Rattle.attr_pool.specs.Slots.{held_count, IsPool};
ghost use Rattle.attr_pool.specs.Uses.{has_slots, AreInUse};
ghost use Rattle.attr_pool.specs.Moving.{is_new, leaves};

use crate::kept_slots::KeptSlots;
use crate::names::{has_name, times};
use crate::uses::uses_in;
use ctrl_model::{MOST_ATTRIBUTES, Name};

// Whether a name has no use.
fn is_new(slots: &KeptSlots, name: &Name) -> bool
    requires { IsPool slots.now }
    ensures { result ≡ is_new slots.now name.now }
{
    uses_in(slots, name) == 0
}

// Whether all uses of a name go and none comes.
fn leaves(slots: &KeptSlots, gone: &[Name], fresh: &[Name], name: &Name) -> bool
    requires { IsPool slots.now }
    ensures { result ≡ leaves slots.now gone.now fresh.now name.now }
{
    uses_in(slots, name) == times(gone, name) as u64 && !has_name(fresh, name)
}

// Whether a name is new and does not stand among the rest.
fn is_last_new(slots: &KeptSlots, name: &Name, rest: &[Name]) -> bool
    requires { IsPool slots.now }
    ensures { result ≡ (not (has_name rest.now name.now) && is_new slots.now name.now) }
{
    !has_name(rest, name) && is_new(slots, name)
}

// Whether a name leaves and does not stand among the rest.
fn is_last_to_leave(
    slots: &KeptSlots,
    gone: &[Name],
    fresh: &[Name],
    name: &Name,
    rest: &[Name],
) -> bool
    requires { IsPool slots.now }
    ensures { result ≡ (not (has_name rest.now name.now) && leaves slots.now gone.now fresh.now name.now) }
{
    !has_name(rest, name) && leaves(slots, gone, fresh, name)
}

// How many different names of some are new.
fn new_count(slots: &KeptSlots, fresh: &[Name]) -> usize
    requires { IsPool slots.now }
    ensures count { result ≡ distinct_count bytes_eq (filter (is_new slots.now) fresh.now) }
    ensures few { result ≤ length fresh.now }
{
    let mut count = 0;
    'names: for (at, name) in fresh.iter().enumerate() {
        if is_last_new(slots, name, &fresh[at + 1..]) {
            count += 1;
        }
    }
    count
}

// How many different names of some leave.
fn left_count(slots: &KeptSlots, gone: &[Name], fresh: &[Name]) -> usize
    requires { IsPool slots.now }
    ensures count { result ≡ distinct_count bytes_eq (filter (leaves slots.now gone.now fresh.now) gone.now) }
    ensures few { result ≤ length gone.now }
{
    let mut count = 0;
    'names: for (at, name) in gone.iter().enumerate() {
        if is_last_to_leave(slots, gone, fresh, name, &gone[at + 1..]) {
            count += 1;
        }
    }
    count
}

/// Whether there would be a slot for each name that is held once some uses go and some come.
pub fn has_slots(slots: &KeptSlots, gone: &[Name], fresh: &[Name]) -> bool
    requires pool { IsPool slots.now }
    requires used { AreInUse slots.now gone.now }
    ensures { result ≡ has_slots slots.now gone.now fresh.now }
{
    slots.held_count() + new_count(slots, fresh) <= MOST_ATTRIBUTES + left_count(slots, gone, fresh)
}
