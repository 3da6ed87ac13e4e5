ghost use Rattle.std.specs.Prelude.{[], ◌∷◌, ◌++◌, codes};
ghost use Rattle.std.specs.List.{flat_map};
ghost use Rattle.ctrl_model.specs.declared.formats.Format.TheVariants.{One, Two};
ghost use Rattle.row_codec.specs.declared.rows.Row.{Row};
ghost use Rattle.row_codec.specs.RowForm.{SpellsRow};

/// Keys and values that spell no row: a mark that has no meaning, a key and a value cut short, and values that have no row.
pub fn worked_no_rows()
    ensures unused_mark { (r : Row) → SpellsRow One (5 ∷ 0 ∷ 0 ∷ 0 ∷ 1 ∷ []) (2 ∷ 114 ∷ 49 ∷ 0 ∷ 44 ∷ 1 ∷ 4 ∷ []) r → ⊥ }
    ensures short_key { (r : Row) → SpellsRow One (3 ∷ 0 ∷ 0 ∷ 1 ∷ []) (3 ∷ 97 ∷ 110 ∷ 110 ∷ 1 ∷ 1 ∷ 97 ∷ []) r → ⊥ }
    ensures cut { (r : Row) → SpellsRow One (10 ∷ 0 ∷ 0 ∷ 0 ∷ 2 ∷ []) (1 ∷ 0 ∷ 0 ∷ 0 ∷ 4 ∷ 0 ∷ 0 ∷ 0 ∷ 7 ∷ 0 ∷ 0 ∷ []) r → ⊥ }
    ensures next_of_one { (r : Row) → SpellsRow One (1 ∷ 1 ∷ []) (1 ∷ 0 ∷ 0 ∷ 0 ∷ []) r → ⊥ }
    ensures cost_of_ten { (r : Row) → SpellsRow One (2 ∷ []) (10 ∷ 0 ∷ 0 ∷ 0 ∷ []) r → ⊥ }
    ensures count_of_none { (r : Row) → SpellsRow One (12 ∷ 0 ∷ 0 ∷ 0 ∷ 1 ∷ 0 ∷ 0 ∷ 0 ∷ 2 ∷ []) (0 ∷ 0 ∷ 0 ∷ 0 ∷ []) r → ⊥ }
{}

/// Keys and values that spell no row of the second format: a count of four bytes, serials of none and of seven bytes, and what is no
/// intercept; and two that spell rows of the second format and none of the first.
pub fn worked_no_rows_of_two()
    ensures count_of_four_bytes { (r : Row) → SpellsRow Two (12 ∷ 0 ∷ 0 ∷ 0 ∷ 1 ∷ 0 ∷ 0 ∷ 0 ∷ 2 ∷ []) (3 ∷ 0 ∷ 0 ∷ 0 ∷ []) r → ⊥ }
    ensures serial_of_none { (r : Row) → SpellsRow Two (17 ∷ []) (0 ∷ 0 ∷ 0 ∷ 0 ∷ 0 ∷ 0 ∷ 0 ∷ 0 ∷ []) r → ⊥ }
    ensures serial_of_seven_bytes { (r : Row) → SpellsRow Two (17 ∷ []) (1 ∷ 0 ∷ 0 ∷ 0 ∷ 0 ∷ 0 ∷ 0 ∷ []) r → ⊥ }
    ensures no_protocol { (r : Row) → SpellsRow Two (16 ∷ 0 ∷ 0 ∷ 0 ∷ 1 ∷ []) (0 ∷ 1 ∷ 1 ∷ 97 ∷ 1 ∷ 1 ∷ 0 ∷ 2 ∷ 0 ∷ []) r → ⊥ }
    ensures protocols_of_four { (r : Row) → SpellsRow Two (16 ∷ 0 ∷ 0 ∷ 0 ∷ 1 ∷ []) (4 ∷ 1 ∷ 1 ∷ 97 ∷ 1 ∷ 1 ∷ 0 ∷ 2 ∷ 0 ∷ []) r → ⊥ }
    ensures no_address { (r : Row) → SpellsRow Two (16 ∷ 0 ∷ 0 ∷ 0 ∷ 1 ∷ []) (1 ∷ 0 ∷ 1 ∷ 1 ∷ 0 ∷ 2 ∷ 0 ∷ []) r → ⊥ }
    ensures addresses_33 { (r : Row) → SpellsRow Two (16 ∷ 0 ∷ 0 ∷ 0 ∷ 1 ∷ [])
        (1 ∷ 33 ∷ (flat_map (λ n. 2 ∷ 97 ∷ n ∷ []) (codes "abcdefghijklmnopqrstuvwxyz") ++ (flat_map (λ n. 2 ∷ 98 ∷ n ∷ []) (codes "abcdefg") ++ 1 ∷ 1 ∷ 0 ∷ 2 ∷ 0 ∷ []))) r → ⊥ }
    ensures capital { (r : Row) → SpellsRow Two (16 ∷ 0 ∷ 0 ∷ 0 ∷ 1 ∷ []) (1 ∷ 1 ∷ 3 ∷ 87 ∷ 101 ∷ 98 ∷ 1 ∷ 1 ∷ 0 ∷ 2 ∷ 0 ∷ []) r → ⊥ }
    ensures address_twice { (r : Row) → SpellsRow Two (16 ∷ 0 ∷ 0 ∷ 0 ∷ 1 ∷ []) (1 ∷ 2 ∷ 1 ∷ 97 ∷ 1 ∷ 97 ∷ 1 ∷ 1 ∷ 0 ∷ 2 ∷ 0 ∷ []) r → ⊥ }
    ensures ports_from_0 { (r : Row) → SpellsRow Two (16 ∷ 0 ∷ 0 ∷ 0 ∷ 1 ∷ []) (1 ∷ 1 ∷ 1 ∷ 97 ∷ 1 ∷ 0 ∷ 0 ∷ 2 ∷ 0 ∷ []) r → ⊥ }
    ensures ports_turned { (r : Row) → SpellsRow Two (16 ∷ 0 ∷ 0 ∷ 0 ∷ 1 ∷ []) (1 ∷ 1 ∷ 1 ∷ 97 ∷ 1 ∷ 2 ∷ 0 ∷ 1 ∷ 0 ∷ []) r → ⊥ }
    ensures bits_past_the_range { (r : Row) → SpellsRow Two (16 ∷ 0 ∷ 0 ∷ 0 ∷ 1 ∷ []) (1 ∷ 1 ∷ 10 ∷ 49 ∷ 48 ∷ 46 ∷ 49 ∷ 46 ∷ 50 ∷ 46 ∷ 51 ∷ 47 ∷ 56 ∷ 1 ∷ 1 ∷ 0 ∷ 2 ∷ 0 ∷ []) r → ⊥ }
    ensures all_bits { (r : Row) → SpellsRow Two (16 ∷ 0 ∷ 0 ∷ 0 ∷ 1 ∷ []) (1 ∷ 1 ∷ 11 ∷ 49 ∷ 48 ∷ 46 ∷ 49 ∷ 46 ∷ 50 ∷ 46 ∷ 51 ∷ 47 ∷ 51 ∷ 50 ∷ 1 ∷ 1 ∷ 0 ∷ 2 ∷ 0 ∷ []) r → ⊥ }
    ensures serial_in_one { (r : Row) → SpellsRow One (17 ∷ []) (1 ∷ 0 ∷ 0 ∷ 0 ∷ 0 ∷ 0 ∷ 0 ∷ 0 ∷ []) r → ⊥ }
    ensures intercept_in_one { (r : Row) → SpellsRow One (16 ∷ 0 ∷ 0 ∷ 0 ∷ 1 ∷ []) (1 ∷ 1 ∷ 1 ∷ 97 ∷ 1 ∷ 1 ∷ 0 ∷ 2 ∷ 0 ∷ []) r → ⊥ }
{}
