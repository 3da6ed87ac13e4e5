ghost use Rattle.std.specs.Prelude.{◌≡◌, codes, [], ◌∷◌, ◌++◌, Some, None, true, false, replicate};
ghost use Rattle.attr_pool.specs.Moving.{is_new, leaves};
ghost use Rattle.attr_pool.specs.Uses.{times, uses_of, held_names, stays_held, has_slots, can_be_counted, AreInUse, KeepsSlots};
ghost use Rattle.attr_pool.specs.AttributeRows.{AreRows};
ghost use Rattle.attr_pool.specs.Slots.{slot_with, free_slot, slot_at, slot_of, number_for, held_count, row_bit, with_use, without_use, most_uses, most_slots, Interned, IsPool};
ghost use Rattle.attr_pool.specs.WorkedSlots.{four_slots, later_slots, swapped_slots, two_lists, row_from};

/// Of four slots red has the first with two uses, and blue the third with one. A new name gets the second.
pub fn worked_slots()
    ensures red { slot_of (codes "red") four_slots ≡ Some 0 }
    ensures blue { slot_of (codes "blue") four_slots ≡ Some 2 }
    ensures absent { slot_of (codes "green") four_slots ≡ None }
    ensures first_free { number_for (codes "green") four_slots ≡ Some 1 }
    ensures own { number_for (codes "blue") four_slots ≡ Some 2 }
    ensures held { held_count four_slots ≡ 2 }
    ensures one_more { with_use (codes "red") (slot_at four_slots 0) ≡ slot_with (codes "red") 3 }
    ensures one_less { without_use (slot_at four_slots 0) ≡ slot_with (codes "red") 1 }
    ensures none_left { without_use (slot_at four_slots 2) ≡ free_slot }
    ensures past { slot_at four_slots 4 ≡ free_slot }
    ensures interned { Interned (codes "green") 1 four_slots (slot_with (codes "red") 2 ∷ slot_with (codes "green") 1 ∷ slot_with (codes "blue") 1 ∷ free_slot ∷ []) }
    ensures not_its_slot { Interned (codes "blue") 1 four_slots (slot_with (codes "red") 2 ∷ slot_with (codes "blue") 1 ∷ slot_with (codes "blue") 1 ∷ free_slot ∷ []) → ⊥ }
    ensures pool { IsPool (replicate most_slots free_slot) }
    ensures held_twice { IsPool (slot_with (codes "red") 1 ∷ slot_with (codes "red") 1 ∷ replicate 4094 free_slot) → ⊥ }
    ensures too_few { IsPool four_slots → ⊥ }
{}

/// Red has two uses, so it is still held once one goes. Blue has one, so it is not, unless one comes.
pub fn worked_uses()
    ensures red { uses_of (codes "red") four_slots ≡ 2 }
    ensures green { uses_of (codes "green") four_slots ≡ 0 }
    ensures twice { times (codes "red") (codes "red" ∷ codes "blue" ∷ codes "red" ∷ []) ≡ 2 }
    ensures held { held_names four_slots ≡ codes "red" ∷ codes "blue" ∷ [] }
    ensures red_stays { stays_held four_slots (codes "red" ∷ []) [] (codes "red") ≡ true }
    ensures blue_goes { stays_held four_slots (codes "blue" ∷ []) [] (codes "blue") ≡ false }
    ensures blue_comes { stays_held four_slots (codes "blue" ∷ []) (codes "blue" ∷ []) (codes "blue") ≡ true }
    ensures green_comes { stays_held four_slots [] (codes "green" ∷ []) (codes "green") ≡ true }
    ensures room { has_slots four_slots [] (codes "green" ∷ []) ≡ true }
    ensures counted { can_be_counted four_slots (codes "red" ∷ codes "green" ∷ []) ≡ true }
    ensures at_end { can_be_counted (slot_with (codes "red") most_uses ∷ []) (codes "red" ∷ []) ≡ false }
    ensures new { is_new four_slots (codes "green") ≡ true }
    ensures leaves { leaves four_slots (codes "blue" ∷ []) [] (codes "blue") ≡ true }
    ensures one_left { leaves four_slots (codes "red" ∷ []) [] (codes "red") ≡ false }
    ensures in_use { AreInUse four_slots (codes "red" ∷ codes "blue" ∷ codes "red" ∷ []) }
    ensures not_so_often { AreInUse four_slots (codes "blue" ∷ codes "blue" ∷ []) → ⊥ }
{}

/// The row of blue and green has the bit of blue alone.
pub fn worked_row()
    ensures blue { row_bit four_slots (codes "blue" ∷ codes "green" ∷ []) 2 ≡ 1 }
    ensures red { row_bit four_slots (codes "blue" ∷ codes "green" ∷ []) 0 ≡ 0 }
    ensures free { row_bit four_slots (codes "blue" ∷ codes "green" ∷ []) 1 ≡ 0 }
    ensures nothing { row_bit four_slots [] 2 ≡ 0 }
{}

/// Of blue alone the word is 4, the bit of the third slot, and of blue and red it is 5. Green is not held, so a list with it has no
/// row.
pub fn worked_attribute_rows()
    ensures rows { AreRows four_slots two_lists (row_from 4 ++ row_from 5) }
    ensures bit_missing { AreRows four_slots two_lists (row_from 4 ++ row_from 4) → ⊥ }
    ensures bit_too_many { AreRows four_slots two_lists (row_from 5 ++ row_from 5) → ⊥ }
    ensures row_missing { AreRows four_slots two_lists (row_from 4) → ⊥ }
    ensures not_held { AreRows four_slots ((codes "green" ∷ []) ∷ []) (row_from 0) → ⊥ }
    ensures no_lists { AreRows four_slots [] [] }
{}

/// Red has uses before and after, and the first slot holds it both times. Blue goes and green comes, so they may leave and get any
/// slot. Where red and blue change places, none of them keeps its own.
pub fn worked_keeping()
    ensures keeps { KeepsSlots four_slots later_slots }
    ensures swapped { KeepsSlots four_slots swapped_slots → ⊥ }
    ensures nothing_before { KeepsSlots [] swapped_slots }
{}
