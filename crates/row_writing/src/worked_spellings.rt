ghost use Rattle.std.specs.Prelude.{◌≡◌, ◌++◌, true, false, codes, None, Some, [], ◌∷◌};
ghost use Rattle.std.specs.List.{list_all};
ghost use Rattle.ctrl_model.specs.declared.formats.Format.TheVariants.{One, Two};
ghost use Rattle.ctrl_model.specs.declared.kinds.Kind.TheVariants as kind;
ghost use Rattle.row_codec.specs.RowForm.{is_row};
ghost use Rattle.row_writing.specs.RecordChanges.{value_at, changes_at};
ghost use Rattle.row_writing.specs.WorkedRows.{worked_rows, spelled, next_identity, cost_of_twenty, ann, web, web_alone, marked_router, second_link, bind_policy, edge_policy, service_edge_policy, plain_terminator, hosted_terminator, first_circuit, dial_count, bind_count, identity_router_count, service_router_count, web_intercept, api_intercept, serial};

/// Rows of the first nine tables as their keys and values, worked by hand.
pub fn worked_row_spellings()
    ensures form { list_all (is_row One) worked_rows ≡ true }
    ensures next { spelled One next_identity ≡ (1 ∷ 1 ∷ [], 2 ∷ 0 ∷ 0 ∷ 0 ∷ []) }
    ensures setting { spelled One cost_of_twenty ≡ (2 ∷ [], 20 ∷ 0 ∷ 0 ∷ 0 ∷ []) }
    ensures identity { spelled One ann ≡ (3 ∷ 0 ∷ 0 ∷ 0 ∷ 1 ∷ [], 3 ∷ 97 ∷ 110 ∷ 110 ∷ 1 ∷ 1 ∷ 97 ∷ []) }
    ensures service { spelled One web ≡ (4 ∷ 0 ∷ 0 ∷ 1 ∷ 2 ∷ [], 3 ∷ 119 ∷ 101 ∷ 98 ∷ 0 ∷ []) }
    ensures router { spelled One marked_router ≡ (5 ∷ 0 ∷ 0 ∷ 0 ∷ 1 ∷ [], 2 ∷ 114 ∷ 49 ∷ 0 ∷ 44 ∷ 1 ∷ 3 ∷ []) }
    ensures link { spelled One second_link ≡ (6 ∷ 0 ∷ 0 ∷ 0 ∷ 2 ∷ [], 2 ∷ 108 ∷ 50 ∷ 2 ∷ 0 ∷ 0 ∷ 0 ∷ 3 ∷ 0 ∷ 0 ∷ 0 ∷ 1 ∷ 0 ∷ 5 ∷ 0 ∷ 6 ∷ 0 ∷ 1 ∷ []) }
    ensures service_policy { spelled One bind_policy ≡ (7 ∷ 0 ∷ 0 ∷ 0 ∷ 1 ∷ [], 1 ∷ 112 ∷ 2 ∷ 2 ∷ 1 ∷ 0 ∷ 0 ∷ 0 ∷ 1 ∷ 1 ∷ 119 ∷ 1 ∷ 1 ∷ 120 ∷ []) }
    ensures edge_router_policy { spelled One edge_policy ≡ (8 ∷ 0 ∷ 0 ∷ 0 ∷ 3 ∷ [], 1 ∷ 101 ∷ 1 ∷ 0 ∷ 1 ∷ 1 ∷ 97 ∷ 0 ∷ 1 ∷ 0 ∷ 0 ∷ []) }
    ensures service_edge_router_policy { spelled One service_edge_policy ≡ (9 ∷ 0 ∷ 0 ∷ 0 ∷ 1 ∷ [], 1 ∷ 115 ∷ 1 ∷ 1 ∷ 0 ∷ 0 ∷ 1 ∷ 0 ∷ 0 ∷ []) }
{}

/// Rows of the other tables.
pub fn worked_more_row_spellings()
    ensures no_host { spelled One plain_terminator ≡ (10 ∷ 0 ∷ 0 ∷ 0 ∷ 1 ∷ [], 1 ∷ 0 ∷ 0 ∷ 0 ∷ 3 ∷ 0 ∷ 0 ∷ 0 ∷ 0 ∷ 0 ∷ 0 ∷ 0 ∷ 0 ∷ 0 ∷ 0 ∷ 2 ∷ []) }
    ensures host { spelled One hosted_terminator ≡ (10 ∷ 0 ∷ 0 ∷ 0 ∷ 2 ∷ [], 1 ∷ 0 ∷ 0 ∷ 0 ∷ 4 ∷ 0 ∷ 0 ∷ 0 ∷ 7 ∷ 0 ∷ 0 ∷ 0 ∷ 1 ∷ 98 ∷ 244 ∷ 1 ∷ 3 ∷ []) }
    ensures circuit { spelled One first_circuit ≡ (11 ∷ 0 ∷ 0 ∷ 0 ∷ 1 ∷ [], 1 ∷ 0 ∷ 0 ∷ 0 ∷ 1 ∷ 0 ∷ 0 ∷ 0 ∷ 1 ∷ 0 ∷ 0 ∷ 0 ∷ 1 ∷ 0 ∷ 0 ∷ 0 ∷ 2 ∷ 1 ∷ 0 ∷ 0 ∷ 0 ∷ 2 ∷ 0 ∷ 0 ∷ 0 ∷ []) }
    ensures dial { spelled One dial_count ≡ (12 ∷ 0 ∷ 0 ∷ 0 ∷ 1 ∷ 0 ∷ 0 ∷ 0 ∷ 2 ∷ [], 3 ∷ 0 ∷ 0 ∷ 0 ∷ []) }
    ensures bind { spelled One bind_count ≡ (13 ∷ 0 ∷ 0 ∷ 0 ∷ 1 ∷ 0 ∷ 0 ∷ 0 ∷ 1 ∷ [], 1 ∷ 0 ∷ 0 ∷ 0 ∷ []) }
    ensures identity_router { spelled One identity_router_count ≡ (14 ∷ 0 ∷ 0 ∷ 0 ∷ 1 ∷ 0 ∷ 0 ∷ 1 ∷ 0 ∷ [], 1 ∷ 0 ∷ 0 ∷ 0 ∷ []) }
    ensures service_router { spelled One service_router_count ≡ (15 ∷ 0 ∷ 0 ∷ 0 ∷ 2 ∷ 0 ∷ 0 ∷ 0 ∷ 3 ∷ [], 0 ∷ 0 ∷ 1 ∷ 0 ∷ []) }
{}

/// Rows of the second format, where they are others than those of the first: counts of two bytes, intercepts and the serial.
pub fn worked_rows_of_two()
    ensures form { list_all (is_row Two) (ann ∷ dial_count ∷ web_intercept ∷ api_intercept ∷ serial ∷ []) ≡ true }
    ensures identity { spelled Two ann ≡ spelled One ann }
    ensures dial { spelled Two dial_count ≡ (12 ∷ 0 ∷ 0 ∷ 0 ∷ 1 ∷ 0 ∷ 0 ∷ 0 ∷ 2 ∷ [], 3 ∷ 0 ∷ []) }
    ensures too_great { is_row Two service_router_count ≡ false }
    ensures web { spelled Two web_intercept ≡ (16 ∷ 0 ∷ 0 ∷ 0 ∷ 1 ∷ [], 1 ∷ 1 ∷ 13 ∷ (codes "*.example.org" ++ 1 ∷ 187 ∷ 1 ∷ 187 ∷ 1 ∷ [])) }
    ensures api { spelled Two api_intercept ≡ (16 ∷ 0 ∷ 0 ∷ 0 ∷ 2 ∷ [], 1 ∷ 1 ∷ 11 ∷ (codes "10.1.0.0/16" ++ 1 ∷ 22 ∷ 0 ∷ 22 ∷ 0 ∷ [])) }
    ensures serial { spelled Two serial ≡ (17 ∷ [], 2 ∷ 1 ∷ 0 ∷ 0 ∷ 0 ∷ 0 ∷ 0 ∷ 0 ∷ []) }
    ensures not_in_one { list_all (is_row One) (web_intercept ∷ []) ≡ false }
    ensures no_serial_in_one { is_row One serial ≡ false }
{}

/// The service web alone: its value at its number and none at another; and the changes where it stood under 1 and stands under 2.
pub fn worked_record_changes()
    ensures stands { value_at kind.Service (web_alone 2) 2 ≡ Some (3 ∷ 119 ∷ 101 ∷ 98 ∷ 0 ∷ []) }
    ensures absent { value_at kind.Service (web_alone 2) 1 ≡ None }
    ensures changes { changes_at kind.Service (value_at kind.Service (web_alone 1)) (value_at kind.Service (web_alone 2)) (1 ∷ 2 ∷ [])
        ≡ record { key = 4 ∷ 0 ∷ 0 ∷ 0 ∷ 1 ∷ []; before = Some (3 ∷ 119 ∷ 101 ∷ 98 ∷ 0 ∷ []); after = None }
        ∷ record { key = 4 ∷ 0 ∷ 0 ∷ 0 ∷ 2 ∷ []; before = None; after = Some (3 ∷ 119 ∷ 101 ∷ 98 ∷ 0 ∷ []) } ∷ [] }
{}
