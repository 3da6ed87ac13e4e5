ghost use Rattle.std.specs.Prelude.{◌≡◌, [], ◌∷◌, ◌++◌, length, map, replicate, codes, true, false, None, Some};
ghost use Rattle.ctrl_model.specs.State.{State, start};
ghost use Rattle.ctrl_model.specs.WorkedStates.{after, counted_after, line, ann_to_web, everyone, service_policy};
ghost use Rattle.ctrl_model.specs.declared.addresses.Address.TheVariants.{Host, Under, Range};
ghost use Rattle.ctrl_model.specs.declared.commands.Command.TheVariants.{CreateIdentity, CreateService, SetIntercept, SetLeastRouterCost, DeleteServicePolicy, DeleteIdentity, ConnectRouter};
ghost use Rattle.ctrl_model.specs.declared.formats.Format.TheVariants.{One, Two};
ghost use Rattle.ctrl_model.specs.declared.kinds.Relation.TheVariants.{Dial};
ghost use Rattle.row_codec.specs.declared.rows.Row.TheVariants as row;
ghost use Rattle.row_codec.specs.RowForm.{is_row, key_of, value_of};
ghost use Rattle.row_codec.specs.RowKeys.{key_bytes, is_key, tables_of};
ghost use Rattle.row_codec.specs.RowValues.{count_bytes, intercept_value, protocols_byte, wide};
ghost use Rattle.row_codec.specs.StateRows.{count_value, rows_of, row_at, serial_value, HasRows};
ghost use Rattle.row_codec.specs.NarrowedRows.{narrowed};
ghost use Rattle.row_codec.specs.Batches.{batch_between, batch_bytes, spelled_rows};

/// The rows of states, worked by hand.
pub fn worked_rows()
    ensures start { rows_of One start ≡ [] }
    ensures start_in_two { rows_of Two start ≡ [] }
    ensures line { length (rows_of One line) ≡ 24 }
    ensures counted_line { length (rows_of Two (record line { serial = 14 })) ≡ 25 }
    ensures circuit { length (rows_of One (after (ann_to_web ∷ []) line)) ≡ 26 }
    ensures counted_circuit { length (rows_of Two (record (after (ann_to_web ∷ []) line) { serial = 15 })) ≡ 27 }
    ensures narrowed { map narrowed (spelled_rows (rows_of One (after (CreateIdentity (codes "ann") [] ∷ CreateService (codes "web") [] ∷ service_policy (codes "dial") Dial everyone everyone ∷ []) start)))
        ≡ (1 ∷ 1 ∷ [], 2 ∷ 0 ∷ 0 ∷ 0 ∷ []) ∷ (1 ∷ 2 ∷ [], 2 ∷ 0 ∷ 0 ∷ 0 ∷ []) ∷ (1 ∷ 5 ∷ [], 2 ∷ 0 ∷ 0 ∷ 0 ∷ [])
        ∷ (3 ∷ 0 ∷ 0 ∷ 0 ∷ 1 ∷ [], 3 ∷ 97 ∷ 110 ∷ 110 ∷ 0 ∷ []) ∷ (4 ∷ 0 ∷ 0 ∷ 0 ∷ 1 ∷ [], 3 ∷ 119 ∷ 101 ∷ 98 ∷ 0 ∷ [])
        ∷ (7 ∷ 0 ∷ 0 ∷ 0 ∷ 1 ∷ [], 4 ∷ 100 ∷ 105 ∷ 97 ∷ 108 ∷ 1 ∷ 1 ∷ 1 ∷ 0 ∷ 0 ∷ 1 ∷ 0 ∷ 0 ∷ []) ∷ (12 ∷ 0 ∷ 0 ∷ 0 ∷ 1 ∷ 0 ∷ 0 ∷ 0 ∷ 1 ∷ [], 1 ∷ 0 ∷ []) ∷ [] }
    ensures in_two { spelled_rows (rows_of Two (after (CreateIdentity (codes "ann") [] ∷ CreateService (codes "web") [] ∷ service_policy (codes "dial") Dial everyone everyone ∷ []) start))
        ≡ (1 ∷ 1 ∷ [], 2 ∷ 0 ∷ 0 ∷ 0 ∷ []) ∷ (1 ∷ 2 ∷ [], 2 ∷ 0 ∷ 0 ∷ 0 ∷ []) ∷ (1 ∷ 5 ∷ [], 2 ∷ 0 ∷ 0 ∷ 0 ∷ [])
        ∷ (3 ∷ 0 ∷ 0 ∷ 0 ∷ 1 ∷ [], 3 ∷ 97 ∷ 110 ∷ 110 ∷ 0 ∷ []) ∷ (4 ∷ 0 ∷ 0 ∷ 0 ∷ 1 ∷ [], 3 ∷ 119 ∷ 101 ∷ 98 ∷ 0 ∷ [])
        ∷ (7 ∷ 0 ∷ 0 ∷ 0 ∷ 1 ∷ [], 4 ∷ 100 ∷ 105 ∷ 97 ∷ 108 ∷ 1 ∷ 1 ∷ 1 ∷ 0 ∷ 0 ∷ 1 ∷ 0 ∷ 0 ∷ []) ∷ (12 ∷ 0 ∷ 0 ∷ 0 ∷ 1 ∷ 0 ∷ 0 ∷ 0 ∷ 1 ∷ [], 1 ∷ 0 ∷ []) ∷ [] }
    ensures narrowed_count { narrowed (12 ∷ 0 ∷ 0 ∷ 0 ∷ 1 ∷ 0 ∷ 0 ∷ 0 ∷ 2 ∷ [], 3 ∷ 1 ∷ 0 ∷ 0 ∷ []) ≡ (12 ∷ 0 ∷ 0 ∷ 0 ∷ 1 ∷ 0 ∷ 0 ∷ 0 ∷ 2 ∷ [], 3 ∷ 1 ∷ []) }
    ensures narrowed_setting { narrowed (2 ∷ [], 20 ∷ 0 ∷ 0 ∷ 0 ∷ []) ≡ (2 ∷ [], 20 ∷ 0 ∷ 0 ∷ 0 ∷ []) }
    ensures tables { length (tables_of One) ≡ 15 }
    ensures more_tables { length (tables_of Two) ≡ 17 }
    ensures has_rows { HasRows One line }
    ensures serial { HasRows One (record line { serial = 1 }) → ⊥ }
    ensures every { HasRows Two (record line { serial = 1 }) }
{}

/// The batches that lead from one state to the next, worked by hand.
pub fn worked_differences()
    ensures identity { batch_bytes (batch_between One start (after (CreateIdentity (codes "ann") [] ∷ []) start))
        ≡ 1 ∷ 2 ∷ 1 ∷ 1 ∷ 4 ∷ 0 ∷ 0 ∷ 0 ∷ 2 ∷ 0 ∷ 0 ∷ 0 ∷ 1 ∷ 5 ∷ 3 ∷ 0 ∷ 0 ∷ 0 ∷ 1 ∷ 5 ∷ 0 ∷ 0 ∷ 0 ∷ 3 ∷ 97 ∷ 110 ∷ 110 ∷ 0 ∷ [] }
    ensures counted_identity { batch_bytes (batch_between Two start (counted_after (CreateIdentity (codes "ann") [] ∷ []) start))
        ≡ 1 ∷ 2 ∷ 1 ∷ 1 ∷ 4 ∷ 0 ∷ 0 ∷ 0 ∷ 2 ∷ 0 ∷ 0 ∷ 0 ∷ 1 ∷ 5 ∷ 3 ∷ 0 ∷ 0 ∷ 0 ∷ 1 ∷ 5 ∷ 0 ∷ 0 ∷ 0 ∷ 3 ∷ 97 ∷ 110 ∷ 110 ∷ 0
        ∷ 1 ∷ 1 ∷ 17 ∷ 8 ∷ 0 ∷ 0 ∷ 0 ∷ 1 ∷ 0 ∷ 0 ∷ 0 ∷ 0 ∷ 0 ∷ 0 ∷ 0 ∷ [] }
    ensures least_cost { batch_bytes (batch_between One line (after (SetLeastRouterCost 20 ∷ []) line)) ≡ 1 ∷ 1 ∷ 2 ∷ 4 ∷ 0 ∷ 0 ∷ 0 ∷ 20 ∷ 0 ∷ 0 ∷ 0 ∷ [] }
    ensures least_cost_back { batch_bytes (batch_between One (after (SetLeastRouterCost 20 ∷ []) line) line) ≡ 2 ∷ 1 ∷ 2 ∷ [] }
    ensures connected_again { batch_between One line (after (ConnectRouter (codes "r1") ∷ []) line) ≡ [] }
    ensures dial_policy { batch_bytes (batch_between One line (after (DeleteServicePolicy (codes "dial") ∷ []) line))
        ≡ 2 ∷ 5 ∷ 7 ∷ 0 ∷ 0 ∷ 0 ∷ 1 ∷ 2 ∷ 9 ∷ 12 ∷ 0 ∷ 0 ∷ 0 ∷ 1 ∷ 0 ∷ 0 ∷ 0 ∷ 1 ∷ [] }
    ensures counted_dial_policy { batch_bytes (batch_between Two (record line { serial = 14 }) (counted_after (DeleteServicePolicy (codes "dial") ∷ []) (record line { serial = 14 })))
        ≡ 2 ∷ 5 ∷ 7 ∷ 0 ∷ 0 ∷ 0 ∷ 1 ∷ 2 ∷ 9 ∷ 12 ∷ 0 ∷ 0 ∷ 0 ∷ 1 ∷ 0 ∷ 0 ∷ 0 ∷ 1
        ∷ 1 ∷ 1 ∷ 17 ∷ 8 ∷ 0 ∷ 0 ∷ 0 ∷ 15 ∷ 0 ∷ 0 ∷ 0 ∷ 0 ∷ 0 ∷ 0 ∷ 0 ∷ [] }
    ensures all_of_line { length (batch_bytes (batch_between One start line)) ≡ 446 }
    ensures all_of_counted_line { length (batch_bytes (batch_between Two start (record line { serial = 14 }))) ≡ 451 }
    ensures all_with_circuit { length (batch_bytes (batch_between One start (after (ann_to_web ∷ []) line))) ≡ 494 }
    ensures all_with_counted_circuit { length (batch_bytes (batch_between Two start (record (after (ann_to_web ∷ []) line) { serial = 15 }))) ≡ 499 }
    ensures circuit { length (batch_bytes (batch_between One line (after (ann_to_web ∷ []) line))) ≡ 48 }
    ensures counted_circuit { length (batch_bytes (batch_between Two (record line { serial = 14 }) (counted_after (ann_to_web ∷ []) (record line { serial = 14 })))) ≡ 63 }
    ensures identity_gone { length (batch_bytes (batch_between One (after (ann_to_web ∷ []) line) (after (ann_to_web ∷ DeleteIdentity (codes "ann") ∷ []) line))) ≡ 90 }
{}

/// The rows of intercepts, of counts and of the serial, worked by hand.
pub fn worked_intercept_values()
    ensures web { intercept_value (record { tcp = true; udp = false; addresses = Under (codes "example.org") ∷ []; ports = record { low = 443; high = 443 } ∷ [] })
        ≡ 1 ∷ 1 ∷ 13 ∷ (codes "*.example.org" ++ 1 ∷ 187 ∷ 1 ∷ 187 ∷ 1 ∷ []) }
    ensures api { intercept_value (record { tcp = true; udp = false; addresses = Range 167837696 16 ∷ []; ports = record { low = 22; high = 22 } ∷ [] })
        ≡ 1 ∷ 1 ∷ 11 ∷ (codes "10.1.0.0/16" ++ 1 ∷ 22 ∷ 0 ∷ 22 ∷ 0 ∷ []) }
    ensures longest { length (intercept_value (record { tcp = true; udp = true; addresses = replicate 32 (Under (replicate 253 97)); ports = replicate 32 (record { low = 1; high = 65535 }) })) ≡ 8323 }
    ensures udp { protocols_byte false true ≡ 2 }
    ensures both { protocols_byte true true ≡ 3 }
    ensures key { key_bytes (16, 1, 0) ≡ 16 ∷ 0 ∷ 0 ∷ 0 ∷ 1 ∷ [] }
    ensures serial_key { key_bytes (17, 0, 0) ≡ 17 ∷ [] }
    ensures one_number { is_key (16, 1, 1) ≡ false }
    ensures no_number { is_key (17, 1, 0) ≡ false }
    ensures past { is_key (18, 0, 0) ≡ false }
    ensures serial { serial_value 15 ≡ Some (15 ∷ 0 ∷ 0 ∷ 0 ∷ 0 ∷ 0 ∷ 0 ∷ 0 ∷ []) }
    ensures no_serial { serial_value 0 ≡ None }
    ensures long { count_bytes One 258 ≡ 2 ∷ 1 ∷ 0 ∷ 0 ∷ [] }
    ensures short { count_bytes Two 258 ≡ 2 ∷ 1 ∷ [] }
    ensures no_count { count_value Two 0 ≡ None }
    ensures at_key { row_at Two (after (CreateService (codes "web") [] ∷ SetIntercept (codes "web") (record { tcp = true; udp = false; addresses = Host (codes "a") ∷ []; ports = record { low = 1; high = 2 } ∷ [] }) ∷ []) start) (16, 1, 0)
        ≡ Some (1 ∷ 1 ∷ 1 ∷ 97 ∷ 1 ∷ 1 ∷ 0 ∷ 2 ∷ 0 ∷ []) }
    ensures at_no_key { row_at One (record start { serial = 1 }) (17, 0, 0) ≡ None }
    ensures greatest { is_row Two (row.Dial (record { 0 = 1 }) (record { 0 = 1 }) 65535) ≡ true }
    ensures too_great { is_row Two (row.Dial (record { 0 = 1 }) (record { 0 = 1 }) 65536) ≡ false }
    ensures great_in_one { is_row One (row.Dial (record { 0 = 1 }) (record { 0 = 1 }) 65536) ≡ true }
    ensures serial_row { is_row Two (row.Serial 1) ≡ true }
    ensures serial_0 { is_row Two (row.Serial 0) ≡ false }
    ensures serial_in_one { is_row One (row.Serial 1) ≡ false }
    ensures intercept_in_one { is_row One (row.Intercept (record { 0 = 1 }) (record { tcp = true; udp = false; addresses = Host (codes "a") ∷ []; ports = record { low = 1; high = 2 } ∷ [] })) ≡ false }
    ensures no_address { is_row Two (row.Intercept (record { 0 = 1 }) (record { tcp = true; udp = false; addresses = []; ports = record { low = 1; high = 2 } ∷ [] })) ≡ false }
    ensures serial_spelled { value_of Two (row.Serial 258) ≡ wide 258 }
    ensures count_spelled { value_of Two (row.Bind (record { 0 = 1 }) (record { 0 = 1 }) 258) ≡ 2 ∷ 1 ∷ [] }
    ensures key_of_intercept { key_of (row.Intercept (record { 0 = 7 }) (record { tcp = true; udp = false; addresses = []; ports = [] })) ≡ (16, 7, 0) }
{}
