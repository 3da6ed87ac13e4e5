ghost use Rattle.std.specs.Prelude.{◌≡◌, ◌<◌, ◌==◌, ℕ, cond};
ghost use Rattle.bit_lanes.specs.Lanes.{bit_of};
ghost use Rattle.attr_pool.specs.Slots.{most_slots};

use ctrl_model::MOST_ATTRIBUTES;

/// How many words a row has: one bit for each slot.
pub const WORDS: usize = MOST_ATTRIBUTES / 64;

/// The bits of the slots of some attributes.
pub type Row = [u64; WORDS];

/// A row without a bit.
pub fn empty_row() -> Row
    ensures { (n : ℕ) → bit_of result n ≡ 0 }
{
    [0; WORDS]
}

/// Sets the bit of a slot.
pub fn set_bit(row: &mut Row, number: usize)
    requires { number < most_slots }
    ensures { (n : ℕ) → bit_of row.new n ≡ cond (n == number) 1 (bit_of row.old n) }
{
    row[number / 64] |= 1 << (number % 64);
}
