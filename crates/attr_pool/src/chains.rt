ghost use Rattle.std.specs.Prelude.{◌≡◌, ◌<◌, ◌≤◌, length, slice_set, get_or};
ghost use Rattle.attr_pool.specs.Slots.{free_slot, slot_of, slot_at, with_use, most_slots};
ghost use Rattle.attr_pool.specs.Chains.{chain_of, AreLinked, IsLinkTo};
ghost use Rattle.ctrl_model.specs.Limits.{longest_name};

use crate::slots::KeptSlot;
use ctrl_model::MOST_ATTRIBUTES;

/// Slots, and the links of the chains in which those stand that hold names: a link for each chain, which leads to its first slot,
/// and behind them one for each slot, which leads to the next of its chain. At the end stands the number of slots.
#[derive(Drop)]
pub struct ChainedSlots {
    pub slots: Vec<KeptSlot>,
    pub links: Vec<u16>,
}

// The chain of a name.
fn chain_of(name: &[u8]) -> usize
    ensures chain { result ≡ chain_of name.now }
    ensures small { result < most_slots }
{
    let mut chain = 0;
    'bytes: for byte in name {
        chain = (chain * 31 + usize::from(*byte)) % MOST_ATTRIBUTES;
    }
    chain
}

// The place of the last link of a chain that leads from a number on which is at most this one.
fn link_to(chained: &ChainedSlots, chain: usize, number: usize) -> usize
    requires linked { AreLinked chained.now.slots.items chained.now.links.items }
    requires chain { chain < most_slots }
    requires number { number < most_slots }
    ensures link { IsLinkTo chained.now.slots.items chain number result }
    ensures past { number ≤ get_or chained.now.links.items result 0 }
{
    let mut place = chain;
    'links: while usize::from(chained.links[place]) < number {
        place = MOST_ATTRIBUTES + usize::from(chained.links[place]);
    }
    place
}

/// The number of the slot that holds a name. It is looked for along the name's chain.
pub fn slot_in(chained: &ChainedSlots, name: &[u8]) -> Option<usize>
    requires { AreLinked chained.now.slots.items chained.now.links.items }
    ensures { result ≡ slot_of name.now chained.now.slots.items }
{
    let mut number = usize::from(chained.links[chain_of(name)]);
    'chain: while number < MOST_ATTRIBUTES {
        if chained.slots[number].holds(name) {
            return Some(number);
        }
        number = usize::from(chained.links[MOST_ATTRIBUTES + number]);
    }
    None
}

/// Puts a name into a free slot.
pub fn hold_at(chained: &mut ChainedSlots, number: usize, name: &[u8])
    requires linked { AreLinked chained.old.slots.items chained.old.links.items }
    requires place { number < most_slots }
    requires short { length name.now ≤ longest_name }
    requires free { (slot_at chained.old.slots.items number).uses ≡ 0 }
    ensures slots { chained.new.slots.items ≡ slice_set chained.old.slots.items number (with_use name.now (slot_at chained.old.slots.items number)) }
    ensures linked { AreLinked chained.new.slots.items chained.new.links.items }
{
    let place = link_to(chained, chain_of(name), number);
    chained.slots[number].take(name);
    chained.links[MOST_ATTRIBUTES + number] = chained.links[place];
    chained.links[place] = number as u16;
}

/// Takes the last use of a slot away.
pub fn free_at(chained: &mut ChainedSlots, number: usize)
    requires linked { AreLinked chained.old.slots.items chained.old.links.items }
    requires last { (slot_at chained.old.slots.items number).uses ≡ 1 }
    ensures slots { chained.new.slots.items ≡ slice_set chained.old.slots.items number free_slot }
    ensures linked { AreLinked chained.new.slots.items chained.new.links.items }
{
    let chain = chain_of(chained.slots[number].name());
    let place = link_to(chained, chain, number);
    chained.slots[number].let_go();
    chained.links[place] = chained.links[MOST_ATTRIBUTES + number];
}
