ghost use Rattle.std.specs.Prelude.{◌≡◌, true, false, [], ◌∷◌, codes, replicate, None, Some};
ghost use Rattle.ctrl_model.specs.declared.kinds.Kind.TheVariants as kind;
ghost use Rattle.ctrl_model.specs.declared.kinds.Relation.TheVariants.{Dial, Bind, ServiceRouter};
ghost use Rattle.ctrl_model.specs.declared.kinds.Semantic.TheVariants.{AnyOf};
ghost use Rattle.ctrl_model.specs.declared.kinds.Precedence.TheVariants.{Normal};
ghost use Rattle.ctrl_model.specs.declared.commands.Command.TheVariants.{CreateIdentity, DeleteIdentity};
ghost use Rattle.ctrl_model.specs.State.{start};
ghost use Rattle.ctrl_model.specs.Tables.{table};
ghost use Rattle.ctrl_model.specs.WorkedStates.{after, everyone, only, carrying, line, two_policies, names_of_two_bytes};
ghost use Rattle.ctrl_model.specs.declared.addresses.Address.TheVariants.{Under};
ghost use Rattle.model_laws.specs.WorkedIntercepts.{over_tcp, ports};
ghost use Rattle.row_codec.specs.declared.rows.Row.TheVariants as row;
ghost use Rattle.state_building.specs.declared.flaws.Flaw.TheVariants.{NoRecord, OutOfOrder, NameTaken, Hanging, Unsettled, TooMany, WrongCount};
ghost use Rattle.state_building.specs.JoinedRecords.{skipped};
ghost use Rattle.state_building.specs.BuiltStates.{with_row, flaw_in, next_in, count_in, state_in};

/// What a row makes of a state: a record joins it under its own number, from which the next numbers go on, and the setting is set.
/// Rows of next numbers and of counts leave it.
pub fn worked_joins()
    ensures record_joins { table kind.Identity (with_row (row.Identity (record { 0 = 3 }) (codes "ann") (codes "staff" ∷ [])) start)
        ≡ record { rows = (3, record { name = codes "ann"; attributes = codes "staff" ∷ [] }) ∷ []; next = 4 } }
    ensures one_kind_alone { table kind.Service (with_row (row.Identity (record { 0 = 3 }) (codes "ann") []) start) ≡ record { rows = []; next = 1 } }
    ensures as_a_command { with_row (row.Identity (record { 0 = 1 }) (codes "ann") (codes "staff" ∷ [])) start ≡ after (CreateIdentity (codes "ann") (codes "staff" ∷ []) ∷ []) start }
    ensures setting { with_row (row.Setting 20) line ≡ record line { least_router_cost = 20 } }
    ensures next_later { with_row (row.Next 1 7) line ≡ line }
    ensures count_computed { with_row (row.Dial (record { 0 = 1 }) (record { 0 = 1 }) 1) line ≡ line }
    ensures intercept { (with_row (row.Intercept (record { 0 = 1 }) (over_tcp (Under (codes "example.org") ∷ []) (ports 443 443 ∷ []))) line).intercepts ≡ (1, over_tcp (Under (codes "example.org") ∷ []) (ports 443 443 ∷ [])) ∷ [] }
    ensures intercept_behind { (with_row (row.Intercept (record { 0 = 2 }) (over_tcp (Under (codes "example.org") ∷ []) (ports 443 443 ∷ []))) (record line { intercepts = (1, over_tcp (Under (codes "example.org") ∷ []) (ports 80 80 ∷ [])) ∷ [] })).intercepts
        ≡ (1, over_tcp (Under (codes "example.org") ∷ []) (ports 80 80 ∷ [])) ∷ (2, over_tcp (Under (codes "example.org") ∷ []) (ports 443 443 ∷ [])) ∷ [] }
    ensures serial { with_row (row.Serial 15) line ≡ record line { serial = 15 } }
    ensures skips { (table kind.Circuit (skipped kind.Circuit 9 line)).next ≡ 9 }
    ensures circuit { table kind.Circuit (with_row (row.Circuit (record { 0 = 7 }) (record { 0 = 1 }) (record { 0 = 2 }) (record { 0 = 3 }) (record { 0 = 4 }) (5 ∷ 6 ∷ [])) line)
        ≡ record { rows = (7, record { identity = 1; service = 2; terminator = 3; ingress = 4; links = 5 ∷ 6 ∷ [] }) ∷ []; next = 8 } }
{}

/// Why a row cannot come next, each reason once, and beside it a row that can.
pub fn worked_flaws()
    ensures may_come { flaw_in (λ k. 4) (row.Identity (record { 0 = 3 }) (codes "ann") []) start ≡ None }
    ensures not_below_the_end { flaw_in (λ k. 3) (row.Identity (record { 0 = 3 }) (codes "ann") []) start ≡ Some OutOfOrder }
    ensures below_those_before { flaw_in (λ k. 9) (row.Identity (record { 0 = 1 }) (codes "bob") []) line ≡ Some OutOfOrder }
    ensures above_those_before { flaw_in (λ k. 9) (row.Identity (record { 0 = 2 }) (codes "bob") []) line ≡ None }
    ensures number_zero { flaw_in (λ k. 9) (row.Identity (record { 0 = 0 }) (codes "ann") []) start ≡ Some OutOfOrder }
    ensures cost_too_high { flaw_in (λ k. 9) (row.Router (record { 0 = 4 }) (codes "r4") [] 65536 true false) line ≡ Some NoRecord }
    ensures greatest_cost { flaw_in (λ k. 9) (row.Router (record { 0 = 4 }) (codes "r4") [] 65535 true false) line ≡ None }
    ensures one_router_twice { flaw_in (λ k. 9) (row.Link (record { 0 = 3 }) (codes "l3") (record { 0 = 1 }) (record { 0 = 1 }) 1 5 5 true) line ≡ Some NoRecord }
    ensures setting_zero { flaw_in (λ k. 9) (row.Setting 0) start ≡ Some NoRecord }
    ensures least_setting { flaw_in (λ k. 9) (row.Setting 1) start ≡ None }
    ensures name_twice { flaw_in (λ k. 9) (row.Identity (record { 0 = 2 }) (codes "ann") []) line ≡ Some NameTaken }
    ensures name_of_another_kind { flaw_in (λ k. 9) (row.Service (record { 0 = 2 }) (codes "ann") []) line ≡ None }
    ensures link_to_nowhere { flaw_in (λ k. 9) (row.Link (record { 0 = 3 }) (codes "l3") (record { 0 = 1 }) (record { 0 = 4 }) 1 5 5 true) line ≡ Some Hanging }
    ensures link_between_routers { flaw_in (λ k. 9) (row.Link (record { 0 = 3 }) (codes "l3") (record { 0 = 1 }) (record { 0 = 3 }) 1 5 5 true) line ≡ None }
    ensures absent_identity { flaw_in (λ k. 9) (row.EdgeRouterPolicy (record { 0 = 2 }) (codes "second") AnyOf (only (codes "bob")) everyone) line ≡ Some Hanging }
    ensures absent_router { flaw_in (λ k. 9) (row.ServiceEdgeRouterPolicy (record { 0 = 2 }) (codes "second") AnyOf everyone (only (codes "r4"))) line ≡ Some Hanging }
    ensures absent_attribute { flaw_in (λ k. 9) (row.EdgeRouterPolicy (record { 0 = 2 }) (codes "second") AnyOf (carrying (codes "staff" ∷ [])) everyone) line ≡ None }
    ensures absent_host { flaw_in (λ k. 9) (row.Terminator (record { 0 = 2 }) (record { 0 = 1 }) (record { 0 = 3 }) (Some (record { 0 = 2 })) [] 0 Normal) line ≡ Some Hanging }
    ensures no_host { flaw_in (λ k. 9) (row.Terminator (record { 0 = 2 }) (record { 0 = 1 }) (record { 0 = 3 }) None [] 0 Normal) line ≡ None }
    ensures half_a_path { flaw_in (λ k. 9) (row.Circuit (record { 0 = 1 }) (record { 0 = 1 }) (record { 0 = 1 }) (record { 0 = 1 }) (record { 0 = 1 }) (1 ∷ [])) line ≡ Some Unsettled }
    ensures a_path { flaw_in (λ k. 9) (row.Circuit (record { 0 = 1 }) (record { 0 = 1 }) (record { 0 = 1 }) (record { 0 = 1 }) (record { 0 = 1 }) (1 ∷ 2 ∷ [])) line ≡ None }
    ensures policies_of_bind { flaw_in (λ k. 9) (row.ServicePolicy (record { 0 = 2 }) (codes "bind") Bind AnyOf everyone everyone) line ≡ None }
    ensures policies_of_routers { flaw_in (λ k. 9) (row.ServicePolicy (record { 0 = 2 }) (codes "bind") ServiceRouter AnyOf everyone everyone) line ≡ Some NoRecord }
    ensures count_without_policy { flaw_in (λ k. 9) (row.Dial (record { 0 = 1 }) (record { 0 = 1 }) 1) start ≡ Some WrongCount }
    ensures count_of_one_policy { flaw_in (λ k. 9) (row.Dial (record { 0 = 1 }) (record { 0 = 1 }) 1) line ≡ None }
    ensures count_too_high { flaw_in (λ k. 9) (row.Dial (record { 0 = 1 }) (record { 0 = 1 }) 2) line ≡ Some WrongCount }
    ensures absent_service { flaw_in (λ k. 9) (row.Intercept (record { 0 = 2 }) (over_tcp (Under (codes "example.org") ∷ []) (ports 443 443 ∷ []))) line ≡ Some Hanging }
    ensures present_service { flaw_in (λ k. 9) (row.Intercept (record { 0 = 1 }) (over_tcp (Under (codes "example.org") ∷ []) (ports 443 443 ∷ []))) line ≡ None }
    ensures no_port { flaw_in (λ k. 9) (row.Intercept (record { 0 = 1 }) (over_tcp (Under (codes "example.org") ∷ []) [])) line ≡ Some NoRecord }
    ensures second_intercept { flaw_in (λ k. 9) (row.Intercept (record { 0 = 1 }) (over_tcp (Under (codes "example.org") ∷ []) (ports 443 443 ∷ [])))
        (record line { intercepts = (1, over_tcp (Under (codes "example.org") ∷ []) (ports 80 80 ∷ [])) ∷ [] }) ≡ Some OutOfOrder }
    ensures form_before_service { flaw_in (λ k. 9) (row.Intercept (record { 0 = 2 }) (over_tcp (Under (codes "example.org") ∷ []) [])) line ≡ Some NoRecord }
    ensures last_serial { flaw_in (λ k. 9) (row.Serial 9223372036854775808) line ≡ None }
    ensures past_last_serial { flaw_in (λ k. 9) (row.Serial 9223372036854775809) line ≡ Some NoRecord }
    ensures next_numbers_wait { flaw_in (λ k. 9) (row.Next 1 7) line ≡ None }
{}

/// The first reason is told: the number before the record, the record before its name, and the name before what it stands on.
pub fn worked_orders_of_flaws()
    ensures number_first { flaw_in (λ k. 9) (row.Router (record { 0 = 3 }) (codes "r1") [] 65536 true false) line ≡ Some OutOfOrder }
    ensures record_before_name { flaw_in (λ k. 9) (row.Router (record { 0 = 4 }) (codes "r1") [] 65536 true false) line ≡ Some NoRecord }
    ensures name_before_ends { flaw_in (λ k. 9) (row.Link (record { 0 = 3 }) (codes "l1") (record { 0 = 1 }) (record { 0 = 4 }) 1 5 5 true) line ≡ Some NameTaken }
{}

/// A record for which its kind, or attributes, have no room, and beside it one for which there is room.
pub fn worked_limits()
    ensures full_kind { flaw_in (λ k. 900) (row.Router (record { 0 = 300 }) (codes "b") [] 0 true false)
        (record start { routers = record start.routers { rows = replicate 256 (1, record { name = codes "a"; attributes = []; cost = 0; through = true; connected = false }) } }) ≡ Some TooMany }
    ensures last_of_a_kind { flaw_in (λ k. 900) (row.Router (record { 0 = 300 }) (codes "b") [] 0 true false)
        (record start { routers = record start.routers { rows = replicate 255 (1, record { name = codes "a"; attributes = []; cost = 0; through = true; connected = false }) } }) ≡ None }
    ensures full_attributes { flaw_in (λ k. 9) (row.Service (record { 0 = 1 }) (codes "web") (codes "a" ∷ []))
        (record start { identities = record { rows = (1, record { name = codes "a"; attributes = names_of_two_bytes }) ∷ []; next = 2 } }) ≡ Some TooMany }
    ensures attribute_in_use { flaw_in (λ k. 9) (row.Service (record { 0 = 1 }) (codes "web") (codes "AA" ∷ []))
        (record start { identities = record { rows = (1, record { name = codes "a"; attributes = names_of_two_bytes }) ∷ []; next = 2 } }) ≡ None }
{}

/// Next numbers and counts that rows have, the first row of a key alone, and what is there where no row has them.
pub fn worked_rows()
    ensures next { next_in (row.Next 1 4 ∷ row.Next 3 2 ∷ []) kind.Router ≡ 2 }
    ensures no_next { next_in (row.Next 1 4 ∷ row.Next 3 2 ∷ []) kind.Service ≡ 1 }
    ensures first_next { next_in (row.Next 1 4 ∷ row.Next 1 7 ∷ []) kind.Identity ≡ 4 }
    ensures next_beside_others { next_in (row.Setting 20 ∷ row.Identity (record { 0 = 3 }) (codes "ann") [] ∷ row.Next 1 4 ∷ []) kind.Identity ≡ 4 }
    ensures count { count_in (row.Setting 20 ∷ row.Dial (record { 0 = 1 }) (record { 0 = 2 }) 5 ∷ []) Dial 1 2 ≡ 5 }
    ensures other_pair { count_in (row.Dial (record { 0 = 1 }) (record { 0 = 2 }) 5 ∷ []) Dial 2 1 ≡ 0 }
    ensures other_relation { count_in (row.Dial (record { 0 = 1 }) (record { 0 = 2 }) 5 ∷ []) Bind 1 2 ≡ 0 }
    ensures no_rows { state_in [] ≡ start }
    ensures removed { state_in (row.Next 1 2 ∷ []) ≡ after (CreateIdentity (codes "ann") [] ∷ DeleteIdentity (codes "ann") ∷ []) start }
    ensures state { state_in (row.Next 1 2 ∷ row.Next 2 2 ∷ row.Next 5 3
        ∷ row.Identity (record { 0 = 1 }) (codes "ann") (codes "staff" ∷ [])
        ∷ row.Service (record { 0 = 1 }) (codes "web") (codes "public" ∷ [])
        ∷ row.ServicePolicy (record { 0 = 1 }) (codes "p1") Dial AnyOf (only (codes "ann")) everyone
        ∷ row.ServicePolicy (record { 0 = 2 }) (codes "p2") Dial AnyOf (carrying (codes "staff" ∷ [])) (carrying (codes "public" ∷ []))
        ∷ row.Dial (record { 0 = 1 }) (record { 0 = 1 }) 2 ∷ []) ≡ two_policies }
{}
