ghost use Rattle.std.specs.Prelude.{◌≡◌, [], ◌∷◌, codes, replicate, true, false, None, Some, Ok, Err};
ghost use Rattle.serde_json.specs.Data.{unsigned, null, number, string, array, object, no_members, member};
ghost use Rattle.serde_json.specs.View.{items_of};
ghost use Rattle.ctrl_model.specs.declared.commands.Command.TheVariants as command;
ghost use Rattle.ctrl_model.specs.declared.refusals.Field.TheVariants as field;
ghost use Rattle.ctrl_model.specs.declared.refusals.Reason.TheVariants as reason;
ghost use Rattle.command_codec.specs.declared.reading.CodecFault.TheVariants.{UnsupportedType, BadBody};
ghost use Rattle.ctrl_model.specs.declared.kinds.Precedence.TheVariants.{Required, Normal, Failed};
ghost use Rattle.ctrl_model.specs.declared.kinds.Relation.TheVariants.{Dial, Bind};
ghost use Rattle.ctrl_model.specs.declared.kinds.Semantic.TheVariants.{AnyOf, AllOf};
ghost use Rattle.role_expr.specs.NameRepeats.{without_repeats};
ghost use Rattle.command_codec.specs.NameLists.{as_attributes};
ghost use Rattle.command_codec.specs.RoleLists.{as_side};
ghost use Rattle.ctrl_model.specs.declared.addresses.Address.TheVariants.{Host, Under, Range};
ghost use Rattle.body_fields.specs.InterceptFields.{as_addresses, as_ranges};
ghost use Rattle.body_fields.specs.RouteClaims.{as_numbers, as_reach};
ghost use Rattle.command_codec.specs.BodyMeaning.{meaning};
ghost use Rattle.command_codec.specs.FirstCauses.{IsFirstCause};
ghost use Rattle.command_codec.specs.SpelledBodies.{Spells};

use command_codec::{the_first_cause, what_a_body_spells};

/// Bodies that spell a command of each kind.
pub fn worked_bodies()
    ensures hello { meaning 0 (codes "abc") ≡ Ok command.Hello }
    ensures made { meaning 1000 (codes "{\"name\":\"ann\"}") ≡ Ok (command.CreateIdentity (codes "ann") []) }
    ensures attributes { meaning 1000 (codes "{\"name\":\"ann\",\"attributes\":[\"a\",\"b\",\"a\"]}") ≡ Ok (command.CreateIdentity (codes "ann") (codes "a" ∷ codes "b" ∷ [])) }
    ensures updated { meaning 1001 (codes "{\"name\":\"ann\",\"attributes\":[]}") ≡ Ok (command.UpdateIdentity (codes "ann") []) }
    ensures deleted { meaning 1002 (codes "{\"name\":\"ann\"}") ≡ Ok (command.DeleteIdentity (codes "ann")) }
    ensures made_service { meaning 1010 (codes "{\"name\":\"web\"}") ≡ Ok (command.CreateService (codes "web") []) }
    ensures updated_service { meaning 1011 (codes "{\"attributes\":[\"a\"],\"name\":\"web\"}") ≡ Ok (command.UpdateService (codes "web") (codes "a" ∷ [])) }
    ensures deleted_service { meaning 1012 (codes "{\"name\":\"web\"}") ≡ Ok (command.DeleteService (codes "web")) }
    ensures made_router { meaning 1020 (codes "{\"name\":\"r1\"}") ≡ Ok (command.CreateRouter (codes "r1") [] 0 false) }
    ensures made_router_in_full { meaning 1020 (codes "{\"name\":\"r1\",\"attributes\":[\"a\"],\"cost\":65535,\"no_traversal\":true}") ≡ Ok (command.CreateRouter (codes "r1") (codes "a" ∷ []) 65535 true) }
    ensures updated_router { meaning 1021 (codes "{\"name\":\"r1\",\"attributes\":[],\"cost\":7,\"no_traversal\":false}") ≡ Ok (command.UpdateRouter (codes "r1") [] 7 false) }
    ensures deleted_router { meaning 1022 (codes "{\"name\":\"r1\"}") ≡ Ok (command.DeleteRouter (codes "r1")) }
    ensures connected { meaning 1023 (codes "{\"name\":\"r1\"}") ≡ Ok (command.ConnectRouter (codes "r1")) }
    ensures disconnected { meaning 1024 (codes "{\"name\":\"r1\"}") ≡ Ok (command.DisconnectRouter (codes "r1")) }
{}

/// Bodies of the commands on policies: the kinds of policy, and sides with `#all`, `@` and `#` entries.
pub fn worked_policies()
    ensures made { meaning 1100 (codes "{\"name\":\"p\",\"type\":\"Dial\",\"semantic\":\"AnyOf\",\"identity_roles\":[\"#all\"],\"service_roles\":[\"@web\",\"#a\",\"@web\"]}")
        ≡ Ok (command.CreateServicePolicy (codes "p") Dial AnyOf (record { all = true; ids = []; attributes = [] }) (record { all = false; ids = codes "web" ∷ []; attributes = codes "a" ∷ [] })) }
    ensures updated { meaning 1101 (codes "{\"name\":\"p\",\"type\":\"Bind\",\"semantic\":\"AllOf\",\"identity_roles\":[],\"service_roles\":[\"#all\",\"#all\"]}")
        ≡ Ok (command.UpdateServicePolicy (codes "p") Bind AllOf (record { all = false; ids = []; attributes = [] }) (record { all = true; ids = []; attributes = [] })) }
    ensures deleted { meaning 1102 (codes "{\"name\":\"p\"}") ≡ Ok (command.DeleteServicePolicy (codes "p")) }
    ensures made_for_identities { meaning 1110 (codes "{\"name\":\"p\",\"semantic\":\"AllOf\",\"identity_roles\":[\"#a\"],\"router_roles\":[\"@r1\"]}")
        ≡ Ok (command.CreateEdgeRouterPolicy (codes "p") AllOf (record { all = false; ids = []; attributes = codes "a" ∷ [] }) (record { all = false; ids = codes "r1" ∷ []; attributes = [] })) }
    ensures updated_for_identities { meaning 1111 (codes "{\"name\":\"p\",\"semantic\":\"AnyOf\",\"identity_roles\":[],\"router_roles\":[\"#all\"]}")
        ≡ Ok (command.UpdateEdgeRouterPolicy (codes "p") AnyOf (record { all = false; ids = []; attributes = [] }) (record { all = true; ids = []; attributes = [] })) }
    ensures deleted_for_identities { meaning 1112 (codes "{\"name\":\"p\"}") ≡ Ok (command.DeleteEdgeRouterPolicy (codes "p")) }
    ensures made_for_services { meaning 1120 (codes "{\"name\":\"p\",\"semantic\":\"AnyOf\",\"service_roles\":[\"@web\"],\"router_roles\":[\"#a\"]}")
        ≡ Ok (command.CreateServiceEdgeRouterPolicy (codes "p") AnyOf (record { all = false; ids = codes "web" ∷ []; attributes = [] }) (record { all = false; ids = []; attributes = codes "a" ∷ [] })) }
    ensures updated_for_services { meaning 1121 (codes "{\"name\":\"p\",\"semantic\":\"AllOf\",\"service_roles\":[\"#all\"],\"router_roles\":[]}")
        ≡ Ok (command.UpdateServiceEdgeRouterPolicy (codes "p") AllOf (record { all = true; ids = []; attributes = [] }) (record { all = false; ids = []; attributes = [] })) }
    ensures deleted_for_services { meaning 1122 (codes "{\"name\":\"p\"}") ≡ Ok (command.DeleteServiceEdgeRouterPolicy (codes "p")) }
{}

/// Bodies of the commands that show grants, services and counts, and of Compact.
pub fn worked_shows()
    ensures grants { meaning 1500 (codes "{\"identity\":\"ann\"}") ≡ Ok (command.ShowGrants (codes "ann")) }
    ensures services { meaning 1501 (codes "{\"identity\":\"ann\"}") ≡ Ok (command.ListServices (codes "ann")) }
    ensures counts { meaning 1502 (codes "{}") ≡ Ok command.ShowCounts }
    ensures no_object { meaning 1502 [] ≡ Err (BadBody field.Nothing reason.NotObject) }
    ensures other_key { meaning 1502 (codes "{\"x\":1}") ≡ Err (BadBody field.Nothing reason.Unknown) }
    ensures name { meaning 1500 (codes "{\"name\":\"ann\"}") ≡ Err (BadBody field.Identity reason.Missing) }
    ensures compacts { meaning 1510 (codes "{}") ≡ Ok command.Compact }
    ensures compacts_no_object { meaning 1510 [] ≡ Err (BadBody field.Nothing reason.NotObject) }
    ensures compacts_nothing { meaning 1510 (codes "{\"x\":1}") ≡ Err (BadBody field.Nothing reason.Unknown) }
{}

/// Bodies of the commands on links.
pub fn worked_links()
    ensures made { meaning 1200 (codes "{\"name\":\"l1\",\"a\":\"r1\",\"b\":\"r2\"}") ≡ Ok (command.CreateLink (codes "l1") (codes "r1") (codes "r2") 1 0 0) }
    ensures made_in_full { meaning 1200 (codes "{\"name\":\"l1\",\"a\":\"r1\",\"b\":\"r2\",\"cost\":65535,\"latency_a\":60000,\"latency_b\":7}") ≡ Ok (command.CreateLink (codes "l1") (codes "r1") (codes "r2") 65535 60000 7) }
    ensures cost { meaning 1201 (codes "{\"link\":\"l1\",\"cost\":9}") ≡ Ok (command.SetLinkCost (codes "l1") 9) }
    ensures latency { meaning 1202 (codes "{\"link\":\"l1\",\"router\":\"r1\",\"latency\":0}") ≡ Ok (command.ReportLatency (codes "l1") (codes "r1") 0) }
    ensures state { meaning 1203 (codes "{\"link\":\"l1\",\"router\":\"r2\",\"up\":false}") ≡ Ok (command.ReportState (codes "l1") (codes "r2") false) }
    ensures deleted { meaning 1204 (codes "{\"link\":\"l1\"}") ≡ Ok (command.DeleteLink (codes "l1")) }
    ensures least { meaning 1210 (codes "{\"cost\":10}") ≡ Ok (command.SetLeastRouterCost 10) }
    ensures free { meaning 1200 (codes "{\"name\":\"l1\",\"a\":\"r1\",\"b\":\"r2\",\"cost\":0}") ≡ Err (BadBody field.Cost reason.WrongKind) }
    ensures no_least { meaning 1210 (codes "{\"cost\":0}") ≡ Err (BadBody field.Cost reason.WrongKind) }
    ensures slow { meaning 1202 (codes "{\"link\":\"l1\",\"router\":\"r1\",\"latency\":60001}") ≡ Err (BadBody field.Latency reason.WrongKind) }
    ensures one_end { meaning 1200 (codes "{\"name\":\"l1\",\"a\":\"r1\",\"cost\":0}") ≡ Err (BadBody field.B reason.Missing) }
    ensures reported { meaning 1203 (codes "{\"link\":\"l1\",\"router\":\"r2\",\"up\":0}") ≡ Err (BadBody field.Up reason.WrongKind) }
{}

/// Bodies of the commands on terminators.
pub fn worked_terminators()
    ensures made { meaning 1300 (codes "{\"service\":\"web\",\"router\":\"r1\"}") ≡ Ok (command.CreateTerminator (codes "web") (codes "r1") [] None 0 Normal) }
    ensures made_in_full { meaning 1300 (codes "{\"service\":\"web\",\"router\":\"r1\",\"instance\":\"i-1\",\"host\":\"ann\",\"cost\":65535,\"precedence\":\"required\"}")
        ≡ Ok (command.CreateTerminator (codes "web") (codes "r1") (codes "i-1") (Some (codes "ann")) 65535 Required) }
    ensures empty_instance { meaning 1300 (codes "{\"service\":\"web\",\"router\":\"r1\",\"instance\":\"\"}") ≡ Ok (command.CreateTerminator (codes "web") (codes "r1") [] None 0 Normal) }
    ensures updated { meaning 1301 (codes "{\"no\":4294967295,\"cost\":0,\"precedence\":\"failed\"}") ≡ Ok (command.UpdateTerminator 4294967295 0 Failed) }
    ensures deleted { meaning 1302 (codes "{\"no\":1}") ≡ Ok (command.DeleteTerminator 1) }
    ensures no_instance { meaning 1300 (codes "{\"service\":\"web\",\"router\":\"r1\",\"instance\":\"a b\"}") ≡ Err (BadBody field.Instance reason.WrongKind) }
    ensures null_host { meaning 1300 (codes "{\"service\":\"web\",\"router\":\"r1\",\"host\":null}") ≡ Err (BadBody field.Host reason.WrongKind) }
    ensures normal { meaning 1300 (codes "{\"service\":\"web\",\"router\":\"r1\",\"precedence\":\"normal\"}") ≡ Err (BadBody field.Precedence reason.WrongKind) }
    ensures zero { meaning 1302 (codes "{\"no\":0}") ≡ Err (BadBody field.No reason.WrongKind) }
    ensures beyond { meaning 1302 (codes "{\"no\":4294967296}") ≡ Err (BadBody field.No reason.WrongKind) }
    ensures no_cost { meaning 1301 (codes "{\"no\":1,\"precedence\":\"failed\"}") ≡ Err (BadBody field.Cost reason.Missing) }
{}

/// Bodies of the commands on circuits.
pub fn worked_circuits()
    ensures made { meaning 1400 (codes "{\"identity\":\"ann\",\"service\":\"web\"}") ≡ Ok (command.CreateCircuit (codes "ann") (codes "web") None []) }
    ensures made_in_full { meaning 1400 (codes "{\"identity\":\"ann\",\"service\":\"web\",\"ingress\":\"r1\",\"instance\":\"i-1\"}") ≡ Ok (command.CreateCircuit (codes "ann") (codes "web") (Some (codes "r1")) (codes "i-1")) }
    ensures deleted { meaning 1401 (codes "{\"no\":7}") ≡ Ok (command.DeleteCircuit 7) }
    ensures explained { meaning 1402 (codes "{\"identity\":\"ann\",\"service\":\"web\",\"instance\":\"\"}") ≡ Ok (command.Explain (codes "ann") (codes "web") None []) }
    ensures shown { meaning 1503 (codes "{\"no\":7}") ≡ Ok (command.ShowCircuit 7) }
    ensures zero { meaning 1401 (codes "{\"no\":0}") ≡ Err (BadBody field.No reason.WrongKind) }
    ensures no_instance { meaning 1400 (codes "{\"identity\":\"ann\",\"service\":\"web\",\"instance\":\"a b\"}") ≡ Err (BadBody field.Instance reason.WrongKind) }
    ensures null_ingress { meaning 1400 (codes "{\"identity\":\"ann\",\"service\":\"web\",\"ingress\":null,\"instance\":1}") ≡ Err (BadBody field.Ingress reason.WrongKind) }
{}

/// Claims of routes: null is no path, and a fault anywhere in a list is one of its field.
pub fn worked_claims()
    ensures claimed { meaning 1403 (codes "{\"identity\":\"ann\",\"service\":\"web\",\"chosen\":\"r1\",\"links\":[1],\"potentials\":[{\"router\":3,\"values\":[42,0,null]}],\"routers\":[1,3],\"terminator\":1,\"total\":42}")
        ≡ Ok (command.VerifyRoute (codes "ann") (codes "web") None [] (codes "r1") (1 ∷ []) (record { router = record { 0 = 3 }; values = 42 ∷ 0 ∷ 18446744073709551615 ∷ [] } ∷ []) (1 ∷ 3 ∷ []) 1 42) }
    ensures empty { meaning 1403 (codes "{\"identity\":\"ann\",\"service\":\"web\",\"chosen\":\"r1\",\"links\":[],\"potentials\":[],\"routers\":[],\"terminator\":4294967295,\"total\":0}")
        ≡ Ok (command.VerifyRoute (codes "ann") (codes "web") None [] (codes "r1") [] [] [] 4294967295 0) }
    ensures no_link { meaning 1403 (codes "{\"identity\":\"ann\",\"service\":\"web\",\"chosen\":\"r1\",\"links\":[0],\"potentials\":[{\"router\":3,\"values\":[42,0,null]}],\"routers\":[1,3],\"terminator\":1,\"total\":42}") ≡ Err (BadBody field.Links reason.WrongKind) }
    ensures no_values { meaning 1403 (codes "{\"identity\":\"ann\",\"service\":\"web\",\"chosen\":\"r1\",\"links\":[1],\"potentials\":[{\"router\":3}],\"routers\":[1,3],\"terminator\":1,\"total\":42}") ≡ Err (BadBody field.Potentials reason.WrongKind) }
    ensures more_keys { meaning 1403 (codes "{\"identity\":\"ann\",\"service\":\"web\",\"chosen\":\"r1\",\"links\":[1],\"potentials\":[{\"router\":3,\"values\":[],\"x\":1}],\"routers\":[1,3],\"terminator\":1,\"total\":42}") ≡ Err (BadBody field.Potentials reason.WrongKind) }
    ensures no_router { meaning 1403 (codes "{\"identity\":\"ann\",\"service\":\"web\",\"chosen\":\"r1\",\"links\":[1],\"potentials\":[{\"router\":0,\"values\":[]}],\"routers\":[1,3],\"terminator\":1,\"total\":42}") ≡ Err (BadBody field.Potentials reason.WrongKind) }
    ensures beyond { meaning 1403 (codes "{\"identity\":\"ann\",\"service\":\"web\",\"chosen\":\"r1\",\"links\":[1],\"potentials\":[{\"router\":3,\"values\":[4294967296]}],\"routers\":[1,3],\"terminator\":1,\"total\":42}") ≡ Err (BadBody field.Potentials reason.WrongKind) }
    ensures no_object { meaning 1403 (codes "{\"identity\":\"ann\",\"service\":\"web\",\"chosen\":\"r1\",\"links\":[1],\"potentials\":[[3,[]]],\"routers\":[1,3],\"terminator\":1,\"total\":42}") ≡ Err (BadBody field.Potentials reason.WrongKind) }
    ensures no_total { meaning 1403 (codes "{\"identity\":\"ann\",\"service\":\"web\",\"chosen\":\"r1\",\"links\":[1],\"potentials\":[{\"router\":3,\"values\":[42,0,null]}],\"routers\":[1,3],\"terminator\":1,\"total\":-1}") ≡ Err (BadBody field.Total reason.WrongKind) }
    ensures most_links { as_numbers 255 (array (items_of (replicate 255 (number (unsigned 1))))) ≡ Some (replicate 255 1) }
    ensures more_links { as_numbers 255 (array (items_of (replicate 256 (number (unsigned 1))))) ≡ None }
    ensures most_values { as_reach (object (member (codes "router") (number (unsigned 1)) (member (codes "values") (array (items_of (replicate 256 null))) no_members))) ≡ Some (record { router = record { 0 = 1 }; values = replicate 256 18446744073709551615 }) }
    ensures more_values { as_reach (object (member (codes "router") (number (unsigned 1)) (member (codes "values") (array (items_of (replicate 257 null))) no_members))) ≡ None }
{}

/// Bodies of the commands on intercepts: capital letters are read as small ones, a range without the bits past it, and what stands
/// twice, or is read as the same, counts once.
pub fn worked_intercepts()
    ensures set { meaning 1600 (codes "{\"service\":\"web\",\"protocols\":[\"tcp\"],\"addresses\":[\"*.Example.org\"],\"ports\":[[443,443]]}")
        ≡ Ok (command.SetIntercept (codes "web") (record { tcp = true; udp = false; addresses = Under (codes "example.org") ∷ []; ports = record { low = 443; high = 443 } ∷ [] })) }
    ensures both { meaning 1600 (codes "{\"service\":\"web\",\"protocols\":[\"udp\",\"tcp\"],\"addresses\":[\"10.1.2.9/16\",\"a\",\"10.1.0.0/16\"],\"ports\":[[1,65535],[22,22],[1,65535]]}")
        ≡ Ok (command.SetIntercept (codes "web") (record { tcp = true; udp = true; addresses = Range 167837696 16 ∷ Host (codes "a") ∷ []; ports = record { low = 1; high = 65535 } ∷ record { low = 22; high = 22 } ∷ [] })) }
    ensures twice { meaning 1600 (codes "{\"service\":\"web\",\"protocols\":[\"tcp\",\"tcp\"],\"addresses\":[\"a\"],\"ports\":[[1,1]]}")
        ≡ Ok (command.SetIntercept (codes "web") (record { tcp = true; udp = false; addresses = Host (codes "a") ∷ []; ports = record { low = 1; high = 1 } ∷ [] })) }
    ensures cleared { meaning 1601 (codes "{\"service\":\"web\"}") ≡ Ok (command.ClearIntercept (codes "web")) }
    ensures picked { meaning 1610 (codes "{\"identity\":\"ann\",\"protocol\":\"tcp\",\"address\":\"API.example.org\",\"port\":443}") ≡ Ok (command.Pick (codes "ann") false (Host (codes "api.example.org")) 443) }
    ensures picked_by_number { meaning 1610 (codes "{\"identity\":\"ann\",\"protocol\":\"udp\",\"address\":\"10.1.2.3/32\",\"port\":65535}") ≡ Ok (command.Pick (codes "ann") true (Range 167838211 32) 65535) }
    ensures listed { meaning 1611 (codes "{\"identity\":\"ann\",\"service\":\"web\"}") ≡ Ok (command.ListClashes (codes "ann") (codes "web")) }
    ensures most { as_addresses (array (items_of (replicate 32 (string (codes "a"))))) ≡ Some (Host (codes "a") ∷ []) }
    ensures more { as_addresses (array (items_of (replicate 33 (string (codes "a"))))) ≡ None }
    ensures more_ranges { as_ranges (array (items_of (replicate 33 (array (items_of (replicate 2 (number (unsigned 1)))))))) ≡ None }
{}

/// Bodies of the commands on intercepts that spell none, each with its first cause.
pub fn worked_intercept_causes()
    ensures no_protocol { meaning 1600 (codes "{\"service\":\"web\",\"protocols\":[],\"addresses\":[\"1.2.3\"],\"ports\":[[1,1]]}") ≡ Err (BadBody field.Protocols reason.WrongKind) }
    ensures another_protocol { meaning 1600 (codes "{\"service\":\"web\",\"protocols\":[\"TCP\"],\"addresses\":[\"a\"],\"ports\":[[1,1]]}") ≡ Err (BadBody field.Protocols reason.WrongKind) }
    ensures three_protocols { meaning 1600 (codes "{\"service\":\"web\",\"protocols\":[\"tcp\",\"udp\",\"tcp\"],\"addresses\":[\"a\"],\"ports\":[[1,1]]}") ≡ Err (BadBody field.Protocols reason.WrongKind) }
    ensures no_address { meaning 1600 (codes "{\"service\":\"web\",\"protocols\":[\"tcp\"],\"addresses\":[\"a\",\"1.2.3\"],\"ports\":[[0,1]]}") ≡ Err (BadBody field.Addresses reason.WrongKind) }
    ensures no_addresses { meaning 1600 (codes "{\"service\":\"web\",\"protocols\":[\"tcp\"],\"addresses\":[],\"ports\":[[1,1]]}") ≡ Err (BadBody field.Addresses reason.WrongKind) }
    ensures port_0 { meaning 1600 (codes "{\"service\":\"web\",\"protocols\":[\"tcp\"],\"addresses\":[\"a\"],\"ports\":[[0,1]]}") ≡ Err (BadBody field.Ports reason.WrongKind) }
    ensures turned { meaning 1600 (codes "{\"service\":\"web\",\"protocols\":[\"tcp\"],\"addresses\":[\"a\"],\"ports\":[[2,1]]}") ≡ Err (BadBody field.Ports reason.WrongKind) }
    ensures one_number { meaning 1600 (codes "{\"service\":\"web\",\"protocols\":[\"tcp\"],\"addresses\":[\"a\"],\"ports\":[[1]]}") ≡ Err (BadBody field.Ports reason.WrongKind) }
    ensures past { meaning 1600 (codes "{\"service\":\"web\",\"protocols\":[\"tcp\"],\"addresses\":[\"a\"],\"ports\":[[1,65536]]}") ≡ Err (BadBody field.Ports reason.WrongKind) }
    ensures no_ports { meaning 1600 (codes "{\"service\":\"web\",\"protocols\":[\"tcp\"],\"addresses\":[\"a\"]}") ≡ Err (BadBody field.Ports reason.Missing) }
    ensures network { meaning 1610 (codes "{\"identity\":\"ann\",\"protocol\":\"tcp\",\"address\":\"10.0.0.0/8\",\"port\":0}") ≡ Err (BadBody field.Address reason.WrongKind) }
    ensures under { meaning 1610 (codes "{\"identity\":\"ann\",\"protocol\":\"tcp\",\"address\":\"*.a\",\"port\":1}") ≡ Err (BadBody field.Address reason.WrongKind) }
    ensures no_port { meaning 1610 (codes "{\"identity\":\"ann\",\"protocol\":\"tcp\",\"address\":\"a\",\"port\":0}") ≡ Err (BadBody field.Port reason.WrongKind) }
    ensures two_protocols { meaning 1610 (codes "{\"identity\":\"ann\",\"protocol\":[\"tcp\"],\"address\":\"a\",\"port\":1}") ≡ Err (BadBody field.Protocol reason.WrongKind) }
    ensures another_key { meaning 1601 (codes "{\"service\":\"web\",\"identity\":\"ann\"}") ≡ Err (BadBody field.Nothing reason.Unknown) }
    ensures no_service { meaning 1611 (codes "{\"identity\":\"ann\",\"service\":7}") ≡ Err (BadBody field.Service reason.WrongKind) }
{}

/// Bodies that spell no command, each with its first cause: of fields that say nothing of their kind the first counts, and
/// another key only behind them.
pub fn worked_causes()
    ensures unsupported { meaning 999 (codes "{\"name\":\"ann\"}") ≡ Err UnsupportedType }
    ensures no_command { meaning 1511 (codes "{}") ≡ Err UnsupportedType }
    ensures reply { meaning 2 (codes "{\"name\":\"ann\"}") ≡ Err UnsupportedType }
    ensures no_text { meaning 1000 (codes "abc") ≡ Err (BadBody field.Nothing reason.NotObject) }
    ensures no_bytes { meaning 1000 [] ≡ Err (BadBody field.Nothing reason.NotObject) }
    ensures list { meaning 1000 (codes "[1]") ≡ Err (BadBody field.Nothing reason.NotObject) }
    ensures empty { meaning 1000 (codes "{}") ≡ Err (BadBody field.Name reason.Missing) }
    ensures no_name { meaning 1000 (codes "{\"name\":\"a b\"}") ≡ Err (BadBody field.Name reason.WrongKind) }
    ensures other_key { meaning 1000 (codes "{\"name\":\"a\",\"x\":1}") ≡ Err (BadBody field.Nothing reason.Unknown) }
    ensures nothing { meaning 1000 (codes "{\"name\":\"a\",\"attributes\":null}") ≡ Err (BadBody field.Attributes reason.WrongKind) }
    ensures first { meaning 1000 (codes "{\"attributes\":1}") ≡ Err (BadBody field.Name reason.Missing) }
    ensures fields_first { meaning 1000 (codes "{\"x\":1,\"name\":\"a\",\"attributes\":1}") ≡ Err (BadBody field.Attributes reason.WrongKind) }
    ensures left_out { meaning 1001 (codes "{\"name\":\"a\"}") ≡ Err (BadBody field.Attributes reason.Missing) }
    ensures attributes { meaning 1002 (codes "{\"name\":\"a\",\"attributes\":[]}") ≡ Err (BadBody field.Nothing reason.Unknown) }
    ensures cost { meaning 1020 (codes "{\"name\":\"r1\",\"cost\":65536}") ≡ Err (BadBody field.Cost reason.WrongKind) }
    ensures no_flag { meaning 1020 (codes "{\"name\":\"r1\",\"no_traversal\":0}") ≡ Err (BadBody field.NoTraversal reason.WrongKind) }
    ensures no_cost { meaning 1021 (codes "{\"name\":\"r1\",\"attributes\":[]}") ≡ Err (BadBody field.Cost reason.Missing) }
{}

/// Bodies of the commands on policies that spell none, each with its first cause.
pub fn worked_policy_causes()
    ensures relation { meaning 1100 (codes "{\"name\":\"p\",\"type\":\"IdentityRouter\"}") ≡ Err (BadBody field.PolicyType reason.WrongKind) }
    ensures case { meaning 1100 (codes "{\"name\":\"p\",\"type\":\"dial\"}") ≡ Err (BadBody field.PolicyType reason.WrongKind) }
    ensures semantic { meaning 1110 (codes "{\"name\":\"p\",\"semantic\":\"Any\"}") ≡ Err (BadBody field.Semantic reason.WrongKind) }
    ensures no_type { meaning 1100 (codes "{\"name\":\"p\",\"semantic\":1}") ≡ Err (BadBody field.PolicyType reason.Missing) }
    ensures no_side { meaning 1120 (codes "{\"name\":\"p\",\"semantic\":\"AnyOf\",\"router_roles\":1}") ≡ Err (BadBody field.ServiceRoles reason.Missing) }
    ensures all_beside { meaning 1110 (codes "{\"name\":\"p\",\"semantic\":\"AnyOf\",\"identity_roles\":[\"#a\"],\"router_roles\":[\"#all\",\"#a\"]}") ≡ Err (BadBody field.RouterRoles reason.WrongKind) }
    ensures no_role { meaning 1110 (codes "{\"name\":\"p\",\"semantic\":\"AnyOf\",\"identity_roles\":[\"ann\"],\"router_roles\":[]}") ≡ Err (BadBody field.IdentityRoles reason.WrongKind) }
    ensures type_of_others { meaning 1110 (codes "{\"name\":\"p\",\"type\":\"Dial\",\"semantic\":\"AnyOf\",\"identity_roles\":[],\"router_roles\":[]}") ≡ Err (BadBody field.Nothing reason.Unknown) }
{}

/// Lists of attributes: repeats go at their later places, each value has to be a name, and at most 64 may be sent, repeats
/// with them.
pub fn worked_lists()
    ensures repeats { without_repeats (codes "b" ∷ codes "a" ∷ codes "b" ∷ codes "c" ∷ codes "a" ∷ []) ≡ codes "b" ∷ codes "a" ∷ codes "c" ∷ [] }
    ensures most { as_attributes (array (items_of (replicate 64 (string (codes "a"))))) ≡ Some (codes "a" ∷ []) }
    ensures more { as_attributes (array (items_of (replicate 65 (string (codes "a"))))) ≡ None }
    ensures no_name { as_attributes (array (items_of (string (codes "a") ∷ null ∷ []))) ≡ None }
    ensures no_list { as_attributes (string (codes "a")) ≡ None }
{}

/// Role lists: at most 64 entries may be sent, repeats with them, and `#all` stands alone, once or more.
pub fn worked_sides()
    ensures most { as_side (array (items_of (replicate 64 (string (codes "#a"))))) ≡ Some (record { all = false; ids = []; attributes = codes "a" ∷ [] }) }
    ensures more { as_side (array (items_of (replicate 65 (string (codes "#a"))))) ≡ None }
    ensures all { as_side (array (items_of (string (codes "#all") ∷ string (codes "#all") ∷ []))) ≡ Some (record { all = true; ids = []; attributes = [] }) }
    ensures all_beside { as_side (array (items_of (string (codes "#all") ∷ string (codes "#a") ∷ []))) ≡ None }
    ensures named_all { as_side (array (items_of (string (codes "@all") ∷ string (codes "#b") ∷ string (codes "@all") ∷ []))) ≡ Some (record { all = false; ids = codes "all" ∷ []; attributes = codes "b" ∷ [] }) }
    ensures no_role { as_side (array (items_of (string (codes "#a") ∷ string (codes "a") ∷ []))) ≡ None }
    ensures nothing { as_side null ≡ None }
{}

/// The first of several causes: a name that is absent comes before attributes of another kind, and these before another key.
pub fn worked_first_causes()
    ensures missing { IsFirstCause 1000 (codes "{\"x\":1,\"attributes\":7}") (BadBody field.Name reason.Missing) }
    ensures wrong { IsFirstCause 1000 (codes "{\"x\":1,\"attributes\":7,\"name\":\"ann\"}") (BadBody field.Attributes reason.WrongKind) }
    ensures another { IsFirstCause 1000 (codes "{\"x\":1,\"name\":\"ann\"}") (BadBody field.Nothing reason.Unknown) }
    ensures no_object { IsFirstCause 1503 (codes "[1]") (BadBody field.Nothing reason.NotObject) }
    ensures no_type { IsFirstCause 1511 (codes "{}") UnsupportedType }
    ensures none { IsFirstCause 1000 (codes "{\"name\":\"ann\"}") (BadBody field.Attributes reason.Missing) → ⊥ }
    ensures of_hello { IsFirstCause 0 (codes "abc") (BadBody field.Nothing reason.NotObject) → ⊥ }
{
    the_first_cause();
}

/// What bodies spell, and what they do not: a command of another content type, one with another value, and one beside another key.
pub fn worked_spelled()
    ensures left_out { Spells 1000 (codes "{\"name\":\"ann\"}") (command.CreateIdentity (codes "ann") []) }
    ensures of_hello { Spells 0 (codes "abc") command.Hello }
    ensures other_type { Spells 1010 (codes "{\"name\":\"ann\"}") (command.CreateIdentity (codes "ann") []) → ⊥ }
    ensures other_value { Spells 1002 (codes "{\"name\":\"ann\"}") (command.DeleteIdentity (codes "bob")) → ⊥ }
    ensures other_key { Spells 1002 (codes "{\"name\":\"ann\",\"x\":1}") (command.DeleteIdentity (codes "ann")) → ⊥ }
{
    what_a_body_spells();
}
