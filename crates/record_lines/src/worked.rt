ghost use Rattle.std.specs.Prelude.{◌≡◌, ◌∷◌, [], codes, true};
ghost use Rattle.ctrl_model.specs.declared.addresses.Address.TheVariants.{Host, Range};
ghost use Rattle.ctrl_model.specs.State.{start};
ghost use Rattle.ctrl_model.specs.declared.kinds.Kind.TheVariants as kind;
ghost use Rattle.record_lines.specs.declared.listing.Listed.TheVariants.{Intercepts, Records};
ghost use Rattle.record_lines.specs.RecordLines.{intercept_line, lines_asked, lines_of};
ghost use Rattle.record_lines.specs.WorkedRecords.{claimed_network, small_network};

/// The lines of the records of a small network.
pub fn worked_lists()
    ensures identities { lines_of (Records kind.Identity) small_network ≡ codes "1 ann #staff\n" }
    ensures services { lines_of (Records kind.Service) small_network ≡ codes "1 web #apps\n" }
    ensures routers { lines_of (Records kind.Router) small_network ≡ codes "1 r1 cost=0 no_traversal=false connected=true\n2 r2 cost=0 no_traversal=false connected=true\n" }
    ensures links { lines_of (Records kind.Link) small_network ≡ codes "1 l1 a=r1 b=r2 cost=11 latency_a=0 latency_b=0 up=true\n" }
    ensures service_policies { lines_of (Records kind.ServicePolicy) small_network ≡ codes "1 dial type=Dial semantic=AnyOf #staff -> #apps\n" }
    ensures edge_router_policies { lines_of (Records kind.EdgeRouterPolicy) small_network ≡ codes "1 edges semantic=AnyOf #all -> @r1\n" }
    ensures service_edge_router_policies { lines_of (Records kind.ServiceEdgeRouterPolicy) small_network ≡ codes "1 services semantic=AnyOf #all -> #all\n" }
    ensures terminators { lines_of (Records kind.Terminator) small_network ≡ codes "1 service=web router=r2 instance= cost=0 precedence=default\n" }
    ensures circuits { lines_of (Records kind.Circuit) small_network ≡ codes "1 identity=ann service=web terminator=1 route=r1,l1,r2\n" }
    ensures none { lines_of (Records kind.Link) start ≡ [] }
{}

/// The lines of the intercepts of two services, and of one that claims more over both protocols.
pub fn worked_intercepts()
    ensures two { lines_of Intercepts claimed_network ≡ codes "1 web protocols=[\"tcp\"] addresses=[\"*.example.org\"] ports=[[443,443]]\n2 api protocols=[\"tcp\"] addresses=[\"10.1.0.0/16\"] ports=[[22,22]]\n" }
    ensures more { intercept_line claimed_network 2 (record { tcp = true; udp = true; addresses = Host (codes "a.b") ∷ Range 167838211 32 ∷ []; ports = record { low = 80; high = 80 } ∷ record { low = 1; high = 65535 } ∷ [] })
        ≡ codes "2 api protocols=[\"tcp\",\"udp\"] addresses=[\"a.b\",\"10.1.2.3\"] ports=[[80,80],[1,65535]]\n" }
    ensures none { lines_of Intercepts small_network ≡ [] }
{}

/// The line of one record of a small network, and of one intercept.
pub fn worked_shows()
    ensures named { lines_asked (Records kind.Router) (codes "r2") small_network ≡ codes "2 r2 cost=0 no_traversal=false connected=true\n" }
    ensures other_kind { lines_asked (Records kind.Identity) (codes "r2") small_network ≡ [] }
    ensures number_of_a_named_one { lines_asked (Records kind.Router) (codes "2") small_network ≡ [] }
    ensures terminator { lines_asked (Records kind.Terminator) (codes "1") small_network ≡ codes "1 service=web router=r2 instance= cost=0 precedence=default\n" }
    ensures circuit { lines_asked (Records kind.Circuit) (codes "1") small_network ≡ codes "1 identity=ann service=web terminator=1 route=r1,l1,r2\n" }
    ensures no_number { lines_asked (Records kind.Circuit) (codes "01") small_network ≡ [] }
    ensures no_name { lines_asked (Records kind.Circuit) [] small_network ≡ [] }
    ensures intercept { lines_asked Intercepts (codes "api") claimed_network ≡ codes "2 api protocols=[\"tcp\"] addresses=[\"10.1.0.0/16\"] ports=[[22,22]]\n" }
    ensures no_intercept { lines_asked Intercepts (codes "web") small_network ≡ [] }
{}
