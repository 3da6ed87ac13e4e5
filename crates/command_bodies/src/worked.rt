ghost use Rattle.std.specs.Prelude.{◌≡◌, [], ◌∷◌, codes, true, false, None, Some};
ghost use Rattle.ctrl_model.specs.declared.addresses.Address.TheVariants.{Host, Under, Range};
ghost use Rattle.ctrl_model.specs.declared.commands.Command.TheVariants as command;
ghost use Rattle.ctrl_model.specs.declared.kinds.Precedence.TheVariants.{Required, Normal, Failed};
ghost use Rattle.ctrl_model.specs.declared.kinds.Relation.TheVariants.{Dial, Bind};
ghost use Rattle.ctrl_model.specs.declared.kinds.Semantic.TheVariants.{AnyOf, AllOf};
ghost use Rattle.command_bodies.specs.BodyTexts.{body_text};
ghost use Rattle.command_bodies.specs.RoleEntries.{role_texts};

/// Bodies of commands on entities: every field is written, also where it has the value of a field that is left out. Keys stand in
/// ascending order.
pub fn worked_entities()
    ensures hello { body_text command.Hello ≡ [] }
    ensures made { body_text (command.CreateIdentity (codes "ann") []) ≡ codes "{\"attributes\":[],\"name\":\"ann\"}" }
    ensures attributes { body_text (command.UpdateService (codes "web") (codes "b" ∷ codes "a" ∷ [])) ≡ codes "{\"attributes\":[\"b\",\"a\"],\"name\":\"web\"}" }
    ensures router { body_text (command.CreateRouter (codes "r1") [] 0 false) ≡ codes "{\"attributes\":[],\"cost\":0,\"name\":\"r1\",\"no_traversal\":false}" }
    ensures deleted { body_text (command.DeleteIdentity (codes "ann")) ≡ codes "{\"name\":\"ann\"}" }
    ensures shown { body_text (command.ShowGrants (codes "ann")) ≡ codes "{\"identity\":\"ann\"}" }
    ensures counts { body_text command.ShowCounts ≡ codes "{}" }
    ensures compacted { body_text command.Compact ≡ codes "{}" }
{}

/// Bodies of commands on policies.
pub fn worked_policies()
    ensures made { body_text (command.CreateServicePolicy (codes "p") Dial AnyOf (record { all = true; ids = []; attributes = [] }) (record { all = false; ids = codes "web" ∷ []; attributes = codes "b" ∷ codes "a" ∷ [] }))
        ≡ codes "{\"identity_roles\":[\"#all\"],\"name\":\"p\",\"semantic\":\"AnyOf\",\"service_roles\":[\"@web\",\"#b\",\"#a\"],\"type\":\"Dial\"}" }
    ensures updated { body_text (command.UpdateServicePolicy (codes "p") Bind AllOf (record { all = false; ids = []; attributes = [] }) (record { all = true; ids = []; attributes = [] }))
        ≡ codes "{\"identity_roles\":[],\"name\":\"p\",\"semantic\":\"AllOf\",\"service_roles\":[\"#all\"],\"type\":\"Bind\"}" }
    ensures routers { body_text (command.CreateEdgeRouterPolicy (codes "p") AnyOf (record { all = false; ids = codes "ann" ∷ []; attributes = [] }) (record { all = false; ids = []; attributes = codes "e" ∷ [] }))
        ≡ codes "{\"identity_roles\":[\"@ann\"],\"name\":\"p\",\"router_roles\":[\"#e\"],\"semantic\":\"AnyOf\"}" }
    ensures services { body_text (command.CreateServiceEdgeRouterPolicy (codes "p") AllOf (record { all = false; ids = []; attributes = codes "c" ∷ [] }) (record { all = true; ids = []; attributes = [] }))
        ≡ codes "{\"name\":\"p\",\"router_roles\":[\"#all\"],\"semantic\":\"AllOf\",\"service_roles\":[\"#c\"]}" }
{}

/// Sides as role lists: `#all` alone, and names before attributes, each kind in its own order.
pub fn worked_sides()
    ensures all { role_texts (record { all = true; ids = []; attributes = [] }) ≡ codes "#all" ∷ [] }
    ensures nothing { role_texts (record { all = false; ids = []; attributes = [] }) ≡ [] }
    ensures both { role_texts (record { all = false; ids = codes "z" ∷ codes "all" ∷ []; attributes = codes "b" ∷ codes "a" ∷ [] }) ≡ codes "@z" ∷ codes "@all" ∷ codes "#b" ∷ codes "#a" ∷ [] }
{}

/// Bodies of commands on links.
pub fn worked_links()
    ensures made { body_text (command.CreateLink (codes "l1") (codes "r1") (codes "r2") 1 0 7) ≡ codes "{\"a\":\"r1\",\"b\":\"r2\",\"cost\":1,\"latency_a\":0,\"latency_b\":7,\"name\":\"l1\"}" }
    ensures cost { body_text (command.SetLinkCost (codes "l1") 65535) ≡ codes "{\"cost\":65535,\"link\":\"l1\"}" }
    ensures latency { body_text (command.ReportLatency (codes "l1") (codes "r1") 60000) ≡ codes "{\"latency\":60000,\"link\":\"l1\",\"router\":\"r1\"}" }
    ensures state { body_text (command.ReportState (codes "l1") (codes "r2") true) ≡ codes "{\"link\":\"l1\",\"router\":\"r2\",\"up\":true}" }
    ensures deleted { body_text (command.DeleteLink (codes "l1")) ≡ codes "{\"link\":\"l1\"}" }
    ensures least { body_text (command.SetLeastRouterCost 10) ≡ codes "{\"cost\":10}" }
{}

/// Bodies of commands on terminators: a host is written only where there is one.
pub fn worked_terminators()
    ensures unhosted { body_text (command.CreateTerminator (codes "web") (codes "r1") [] None 0 Normal)
        ≡ codes "{\"cost\":0,\"instance\":\"\",\"precedence\":\"default\",\"router\":\"r1\",\"service\":\"web\"}" }
    ensures hosted { body_text (command.CreateTerminator (codes "web") (codes "r1") (codes "blue") (Some (codes "bob")) 9 Required)
        ≡ codes "{\"cost\":9,\"host\":\"bob\",\"instance\":\"blue\",\"precedence\":\"required\",\"router\":\"r1\",\"service\":\"web\"}" }
    ensures updated { body_text (command.UpdateTerminator 4294967295 0 Failed) ≡ codes "{\"cost\":0,\"no\":4294967295,\"precedence\":\"failed\"}" }
    ensures deleted { body_text (command.DeleteTerminator 1) ≡ codes "{\"no\":1}" }
{}

/// Bodies of commands that ask for a circuit: an ingress is written only where there is one.
pub fn worked_circuits()
    ensures asked { body_text (command.CreateCircuit (codes "ann") (codes "web") None []) ≡ codes "{\"identity\":\"ann\",\"instance\":\"\",\"service\":\"web\"}" }
    ensures through { body_text (command.Explain (codes "ann") (codes "web") (Some (codes "r1")) (codes "blue")) ≡ codes "{\"identity\":\"ann\",\"ingress\":\"r1\",\"instance\":\"blue\",\"service\":\"web\"}" }
    ensures ended { body_text (command.DeleteCircuit 7) ≡ codes "{\"no\":7}" }
{}

/// The body of a claimed route: where there is no path its value is null.
pub fn worked_claims()
    ensures claimed { body_text (command.VerifyRoute (codes "ann") (codes "web") None [] (codes "r1") (1 ∷ 2 ∷ []) (record { router = record { 0 = 3 }; values = 42 ∷ 18446744073709551615 ∷ 0 ∷ [] } ∷ []) (1 ∷ 2 ∷ 3 ∷ []) 1 42)
        ≡ codes "{\"chosen\":\"r1\",\"identity\":\"ann\",\"instance\":\"\",\"links\":[1,2],\"potentials\":[{\"router\":3,\"values\":[42,null,0]}],\"routers\":[1,2,3],\"service\":\"web\",\"terminator\":1,\"total\":42}" }
{}

/// Bodies of commands on intercepts: tcp comes before udp, and each address stands in its one spelling.
pub fn worked_intercepts()
    ensures set { body_text (command.SetIntercept (codes "web") (record { tcp = true; udp = true; addresses = Under (codes "example.org") ∷ Range 167837696 16 ∷ []; ports = record { low = 443; high = 443 } ∷ record { low = 1; high = 65535 } ∷ [] }))
        ≡ codes "{\"addresses\":[\"*.example.org\",\"10.1.0.0/16\"],\"ports\":[[443,443],[1,65535]],\"protocols\":[\"tcp\",\"udp\"],\"service\":\"web\"}" }
    ensures over_udp { body_text (command.SetIntercept (codes "web") (record { tcp = false; udp = true; addresses = Host (codes "a") ∷ []; ports = record { low = 1; high = 2 } ∷ [] }))
        ≡ codes "{\"addresses\":[\"a\"],\"ports\":[[1,2]],\"protocols\":[\"udp\"],\"service\":\"web\"}" }
    ensures cleared { body_text (command.ClearIntercept (codes "web")) ≡ codes "{\"service\":\"web\"}" }
    ensures picked { body_text (command.Pick (codes "ann") false (Range 167838211 32) 22) ≡ codes "{\"address\":\"10.1.2.3\",\"identity\":\"ann\",\"port\":22,\"protocol\":\"tcp\"}" }
    ensures picked_over_udp { body_text (command.Pick (codes "ann") true (Host (codes "api.example.org")) 65535) ≡ codes "{\"address\":\"api.example.org\",\"identity\":\"ann\",\"port\":65535,\"protocol\":\"udp\"}" }
    ensures listed { body_text (command.ListClashes (codes "ann") (codes "web")) ≡ codes "{\"identity\":\"ann\",\"service\":\"web\"}" }
{}
