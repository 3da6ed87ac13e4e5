ghost use Rattle.std.specs.Prelude.{◌≡◌, [], ◌∷◌, true, false, None, Some};
ghost use Rattle.ctrl_model.specs.Numbered.{at, numbers};
ghost use Rattle.circuits.specs.declared.changes.CircuitChange.TheVariants.{Add, Remove};
ghost use Rattle.circuits.specs.CircuitChanges.{circuits_after};
ghost use Rattle.circuits.specs.CircuitTables.{no_circuits, is_full, with_circuit, without_circuit, with_next};
ghost use Rattle.circuits.specs.MovedCircuits.{moved_numbers, moved_links, moves_by, ended_by, with_moves};
ghost use Rattle.circuits.specs.WorkedCircuits.{over, now_over, two_circuits, two_ways};

/// Circuits get the numbers 1 and 2, and a removed number is not given again. Numbers run out at 4,294,967,295.
pub fn circuits_by_number()
    ensures first { no_circuits.circuits.next ≡ 1 }
    ensures third { two_circuits.circuits.next ≡ 3 }
    ensures found { at two_circuits.circuits.rows 1 ≡ Some (over (1 ∷ 2 ∷ [])) }
    ensures removed { at (without_circuit 2 two_circuits).circuits.rows 2 ≡ None }
    ensures not_again { numbers (with_circuit (over []) (without_circuit 2 two_circuits)).circuits.rows ≡ 1 ∷ 3 ∷ [] }
    ensures room { is_full two_circuits ≡ false }
    ensures last { is_full (with_next 4294967294 two_circuits) ≡ false }
    ensures run_out { is_full (with_next 4294967295 two_circuits) ≡ true }
{}

/// The circuits 1 and 2 as they will be: circuit 3 comes, circuit 1 goes, and either may be gone.
pub fn circuits_as_they_will_be()
    ensures unchanged { circuits_after None [] two_circuits ≡ two_circuits }
    ensures added { numbers (circuits_after (Some (Add (over []))) [] two_circuits).circuits.rows ≡ 1 ∷ 2 ∷ 3 ∷ [] }
    ensures removed { numbers (circuits_after (Some (Remove (record { 0 = 1 }))) [] two_circuits).circuits.rows ≡ 2 ∷ [] }
    ensures gone { numbers (circuits_after (Some (Add (over []))) (1 ∷ 2 ∷ []) two_circuits).circuits.rows ≡ 3 ∷ [] }
    ensures absent { at (circuits_after None (2 ∷ []) two_circuits).circuits.rows 2 ≡ None }
    ensures next { (circuits_after (Some (Add (over []))) (3 ∷ []) two_circuits).circuits.next ≡ 4 }
{}

/// Circuits that are moved: of two moves of circuit 1 the first counts, circuit 2 stays as it is, and where no circuit has the number
/// nothing changes. A circuit that comes is moved too, and one that is gone is not there.
pub fn circuits_that_are_moved()
    ensures first { at (with_moves (now_over 1 (3 ∷ []) ∷ now_over 1 (4 ∷ []) ∷ []) two_circuits).circuits.rows 1 ≡ Some (over (3 ∷ [])) }
    ensures other { at (with_moves (now_over 1 (3 ∷ []) ∷ []) two_circuits).circuits.rows 2 ≡ Some (over []) }
    ensures absent { with_moves (now_over 3 (4 ∷ []) ∷ []) two_circuits ≡ two_circuits }
    ensures added { at (with_moves (now_over 3 (4 ∷ []) ∷ []) (circuits_after (Some (Add (over []))) [] two_circuits)).circuits.rows 3 ≡ Some (over (4 ∷ [])) }
    ensures gone { numbers (with_moves (now_over 1 (4 ∷ []) ∷ []) (circuits_after None (1 ∷ []) two_circuits)).circuits.rows ≡ 2 ∷ [] }
    ensures named { moved_numbers (now_over 1 [] ∷ now_over 3 (4 ∷ []) ∷ []) ≡ 1 ∷ 3 ∷ [] }
    ensures unnamed { moved_links (now_over 1 [] ∷ now_over 3 (4 ∷ []) ∷ []) 2 ≡ None }
{}

/// Of the numbers 1 to 3, of which 2 and 3 are given links, these two are moved and 1 ends.
pub fn numbers_that_are_given_links()
    ensures moved { moves_by two_ways (1 ∷ 2 ∷ 3 ∷ []) ≡ now_over 2 (4 ∷ []) ∷ now_over 3 [] ∷ [] }
    ensures ended { ended_by two_ways (1 ∷ 2 ∷ 3 ∷ []) ≡ 1 ∷ [] }
{}
