ghost use Rattle.std.specs.Prelude.{◌≡◌, [], ◌∷◌, true, false, None, Some};
ghost use Rattle.ctrl_model.specs.WorkedStates.{line_in_use, ungranted};
ghost use Rattle.circuits.specs.WorkedCircuits.{over};
ghost use Rattle.circuit_settling.specs.OtherLinks.{other_links, way_in, going_in};
ghost use Rattle.circuit_settling.specs.PresentRecords.{stays};
ghost use Rattle.circuit_settling.specs.WorkedLines.{line, unsettled};

/// On the line a circuit over both links stays, with its identity 3, its service 2 and terminator 1 present. It does not where one of
/// these is absent, where a link is down, where router 2 is not connected or may not be passed through, and where its links lead
/// nowhere, too short, or back.
pub fn circuits_on_a_line()
    ensures stays { stays (line true true true) (1 ∷ 3 ∷ []) (2 ∷ []) (over (1 ∷ 2 ∷ [])) ≡ true }
    ensures identity_gone { stays (line true true true) (1 ∷ []) (2 ∷ []) (over (1 ∷ 2 ∷ [])) ≡ false }
    ensures service_gone { stays (line true true true) (3 ∷ []) (3 ∷ []) (over (1 ∷ 2 ∷ [])) ≡ false }
    ensures terminator_gone { stays (line true true true) (3 ∷ []) (2 ∷ []) (record (over (1 ∷ 2 ∷ [])) { terminator = 2 }) ≡ false }
    ensures link_down { stays (line false true true) (3 ∷ []) (2 ∷ []) (over (1 ∷ 2 ∷ [])) ≡ false }
    ensures not_passed_through { stays (line true false true) (3 ∷ []) (2 ∷ []) (over (1 ∷ 2 ∷ [])) ≡ false }
    ensures not_connected { stays (line true true false) (3 ∷ []) (2 ∷ []) (over (1 ∷ 2 ∷ [])) ≡ false }
    ensures from_the_middle { stays (line true false true) (3 ∷ []) (2 ∷ []) (record (over (2 ∷ [])) { ingress = 2 }) ≡ true }
    ensures link_gone { stays (line true true true) (3 ∷ []) (2 ∷ []) (over (1 ∷ 3 ∷ [])) ≡ false }
    ensures too_short { stays (line true true true) (3 ∷ []) (2 ∷ []) (over (1 ∷ [])) ≡ false }
    ensures and_back { stays (line true true true) (3 ∷ []) (2 ∷ []) (over (1 ∷ 1 ∷ 1 ∷ 2 ∷ [])) ≡ false }
{}

/// On the line a circuit that leads back goes on over both links, or over none where it enters at its end. It ends where a link is down,
/// where its identity, its service or its terminator is absent, and where router 2 may not be passed through. Where a link goes straight to
/// the end of a circuit it goes on over that link once one of its own is down. A circuit that nothing grants goes on nowhere.
pub fn circuits_that_go_on()
    ensures least { other_links (line true true true) (3 ∷ []) (2 ∷ []) (over (1 ∷ 1 ∷ 1 ∷ 2 ∷ [])) ≡ Some (1 ∷ 2 ∷ []) }
    ensures at_the_end { other_links (line true true true) (3 ∷ []) (2 ∷ []) (record (over (1 ∷ 2 ∷ [])) { ingress = 3 }) ≡ Some [] }
    ensures link_down { other_links (line false true true) (3 ∷ []) (2 ∷ []) (over (1 ∷ 2 ∷ [])) ≡ None }
    ensures identity_gone { other_links (line true true true) (1 ∷ []) (2 ∷ []) (over []) ≡ None }
    ensures service_gone { other_links (line true true true) (3 ∷ []) (3 ∷ []) (over []) ≡ None }
    ensures terminator_gone { other_links (line true true true) (3 ∷ []) (2 ∷ []) (record (over []) { terminator = 2 }) ≡ None }
    ensures not_passed_through { other_links (line true false true) (3 ∷ []) (2 ∷ []) (over (1 ∷ 2 ∷ [])) ≡ None }
    ensures going { going_in unsettled ≡ 1 ∷ [] }
    ensures way { way_in unsettled 1 ≡ Some (3 ∷ []) }
    ensures no_circuit { way_in unsettled 2 ≡ None }
    ensures no_grant { going_in ungranted ≡ 1 ∷ [] }
    ensures no_way { way_in ungranted 1 ≡ None }
    ensures grant { going_in line_in_use ≡ [] }
{}
