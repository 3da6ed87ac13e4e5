ghost use Rattle.std.specs.Prelude.{◌≡◌, ℕ, [], ◌∷◌, Some, None};
ghost use Rattle.ctrl_model.specs.Numbered.{at, edit_at, without};
ghost use Rattle.record_tables.specs.AfterChange.{changed_by, touched_numbers, without_numbers};

/// Two records, 10 under the number 2 and 20 under the number 5: what stands at a number, and what a write and a removal leave.
pub fn records_at_places()
    ensures stands { at {R = ℕ} ((2, 10) ∷ (5, 20) ∷ []) 5 ≡ Some 20 }
    ensures absent { at {R = ℕ} ((2, 10) ∷ (5, 20) ∷ []) 3 ≡ None }
    ensures written { edit_at {R = ℕ} ((2, 10) ∷ (5, 20) ∷ []) 5 (λ r. 21) ≡ (2, 10) ∷ (5, 21) ∷ [] }
    ensures removed { without {R = ℕ} ((2, 10) ∷ (5, 20) ∷ []) 2 ≡ (5, 20) ∷ [] }
{}

/// A table as it will be: a change is made if there is one, the numbers that are gone have no record, and the number that is changed
/// stands at its place among them.
pub fn tables_as_they_will_be()
    ensures unchanged { changed_by {C = ℕ} {T = ℕ} (λ c t. c) None 7 ≡ 7 }
    ensures changed { changed_by {C = ℕ} {T = ℕ} (λ c t. c) (Some 8) 7 ≡ 8 }
    ensures gone { without_numbers {R = ℕ} (2 ∷ 3 ∷ []) (record { rows = (2, 10) ∷ (5, 20) ∷ []; next = 6 }) ≡ record { rows = (5, 20) ∷ []; next = 6 } }
    ensures touched { touched_numbers (Some 4) (2 ∷ 3 ∷ 5 ∷ []) ≡ 2 ∷ 3 ∷ 4 ∷ 5 ∷ [] }
    ensures once { touched_numbers (Some 3) (2 ∷ 3 ∷ 5 ∷ []) ≡ 2 ∷ 3 ∷ 5 ∷ [] }
    ensures none { touched_numbers None (2 ∷ 5 ∷ []) ≡ 2 ∷ 5 ∷ [] }
{}
