ghost use Rattle.std.specs.Prelude.{◌≡◌, [], codes, None};
ghost use Rattle.ctrl_model.specs.declared.kinds.Kind.TheVariants as kind;
ghost use Rattle.ctrl_model.specs.Numbered.{no_rows};
ghost use Rattle.ctrl_model.specs.State.{start};
ghost use Rattle.ctrl_model.specs.WorkedStates.{after};
ghost use Rattle.frame_lines.specs.TextReading.{fault_said, frames_said};
ghost use Rattle.record_lines.specs.declared.listing.Listed.TheVariants.{Intercepts, Records};
ghost use Rattle.record_lines.specs.WorkedRecords.{claimed_network, small_network};
ghost use Rattle.dump_lines.specs.Dumps.{dump_commands, dump_lines, section, section_commands};
ghost use Rattle.dump_lines.specs.WorkedDumps.{frames_of, unsaid_policy, worn_again, worn_network};

/// The lines of a small network, section by section.
pub fn worked_sections()
    ensures start { dump_lines start ≡ codes "SetLeastRouterCost {\"cost\":10}\n" }
    ensures identities { section small_network (Records kind.Identity) ≡ codes "CreateIdentity {\"attributes\":[\"staff\"],\"name\":\"ann\"}\n" }
    ensures services { section small_network (Records kind.Service) ≡ codes "CreateService {\"attributes\":[\"apps\"],\"name\":\"web\"}\n" }
    ensures routers { section small_network (Records kind.Router) ≡ codes "CreateRouter {\"attributes\":[],\"cost\":0,\"name\":\"r1\",\"no_traversal\":false}\nConnectRouter {\"name\":\"r1\"}\nCreateRouter {\"attributes\":[],\"cost\":0,\"name\":\"r2\",\"no_traversal\":false}\nConnectRouter {\"name\":\"r2\"}\n" }
    ensures links { section small_network (Records kind.Link) ≡ codes "CreateLink {\"a\":\"r1\",\"b\":\"r2\",\"cost\":11,\"latency_a\":0,\"latency_b\":0,\"name\":\"l1\"}\n" }
    ensures terminators { section small_network (Records kind.Terminator) ≡ codes "# 1 service=web router=r2 instance= cost=0 precedence=default\nCreateTerminator {\"cost\":0,\"instance\":\"\",\"precedence\":\"default\",\"router\":\"r2\",\"service\":\"web\"}\n" }
    ensures service_policies { section small_network (Records kind.ServicePolicy) ≡ codes "CreateServicePolicy {\"identity_roles\":[\"#staff\"],\"name\":\"dial\",\"semantic\":\"AnyOf\",\"service_roles\":[\"#apps\"],\"type\":\"Dial\"}\n" }
    ensures edge_router_policies { section small_network (Records kind.EdgeRouterPolicy) ≡ codes "CreateEdgeRouterPolicy {\"identity_roles\":[\"#all\"],\"name\":\"edges\",\"router_roles\":[\"@r1\"],\"semantic\":\"AnyOf\"}\n" }
    ensures service_edge_router_policies { section small_network (Records kind.ServiceEdgeRouterPolicy) ≡ codes "CreateServiceEdgeRouterPolicy {\"name\":\"services\",\"router_roles\":[\"#all\"],\"semantic\":\"AnyOf\",\"service_roles\":[\"#all\"]}\n" }
    ensures intercepts { section claimed_network Intercepts ≡ codes "SetIntercept {\"addresses\":[\"*.example.org\"],\"ports\":[[443,443]],\"protocols\":[\"tcp\"],\"service\":\"web\"}\nSetIntercept {\"addresses\":[\"10.1.0.0/16\"],\"ports\":[[22,22]],\"protocols\":[\"tcp\"],\"service\":\"api\"}\n" }
    ensures circuits { section small_network (Records kind.Circuit) ≡ codes "# 1 identity=ann service=web terminator=1 route=r1,l1,r2\n" }
{}

/// The lines of a link that is down and a router that is not connected, of a terminator with a host, and of a policy that no line says.
pub fn worked_remarks()
    ensures routers { section worn_network (Records kind.Router) ≡ codes "CreateRouter {\"attributes\":[],\"cost\":0,\"name\":\"r1\",\"no_traversal\":false}\nConnectRouter {\"name\":\"r1\"}\nCreateRouter {\"attributes\":[\"far\"],\"cost\":7,\"name\":\"r2\",\"no_traversal\":true}\n" }
    ensures down { section worn_network (Records kind.Link) ≡ codes "CreateLink {\"a\":\"r2\",\"b\":\"r1\",\"cost\":11,\"latency_a\":3,\"latency_b\":9,\"name\":\"l1\"}\nReportState {\"link\":\"l1\",\"router\":\"r2\",\"up\":false}\n" }
    ensures hosted { section worn_network (Records kind.Terminator) ≡ codes "# 2 service=web router=r2 instance=blue cost=9 precedence=failed host=bob\nCreateServicePolicy {\"identity_roles\":[\"@bob\"],\"name\":\"bob\",\"semantic\":\"AnyOf\",\"service_roles\":[\"@web\"],\"type\":\"Bind\"}\nCreateTerminator {\"cost\":9,\"host\":\"bob\",\"instance\":\"blue\",\"precedence\":\"failed\",\"router\":\"r2\",\"service\":\"web\"}\nDeleteServicePolicy {\"name\":\"bob\"}\n" }
    ensures unsaid { section unsaid_policy (Records kind.EdgeRouterPolicy) ≡ codes "# 1 edges semantic=AllOf #all -> #all\n" }
{}

/// What the commands of a dump leave, answered from the start.
pub fn worked_dumps()
    ensures small { after (dump_commands small_network) start ≡ record small_network { circuits = no_rows } }
    ensures worn { after (dump_commands worn_network) start ≡ worn_again }
    ensures again { dump_commands worn_again ≡ dump_commands worn_network }
{}

/// The frames that the lines of a dump say: a remark says none.
pub fn worked_frames()
    ensures start { frames_said (dump_lines start) ≡ frames_of 1 (dump_commands start) }
    ensures identities { frames_said (section small_network (Records kind.Identity)) ≡ frames_of 1 (section_commands small_network (Records kind.Identity)) }
    ensures circuits { frames_said (section small_network (Records kind.Circuit)) ≡ [] }
    ensures no_fault { fault_said (section small_network (Records kind.Circuit)) ≡ None }
{}
