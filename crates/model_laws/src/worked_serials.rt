ghost use Rattle.std.specs.Prelude.{◌≡◌, ◌∷◌, ◌++◌, None, [], false, true, codes};
ghost use Rattle.ctrl_model.specs.declared.addresses.Address.TheVariants.{Host, Under};
ghost use Rattle.ctrl_model.specs.declared.commands.Command.TheVariants.{ConnectRouter, CreateService, DisconnectRouter, SetIntercept, SetLeastRouterCost, ShowCounts};
ghost use Rattle.ctrl_model.specs.declared.kinds.Precedence.TheVariants.{Normal, Failed};
ghost use Rattle.ctrl_model.specs.declared.kinds.Semantic.TheVariants.{AnyOf, AllOf};
ghost use Rattle.ctrl_model.specs.declared.kinds.Who.TheVariants.{Admin};
ghost use Rattle.ctrl_model.specs.declared.refusals.Refusal.TheVariants as refusal;
ghost use Rattle.ctrl_model.specs.declared.replies.Reply.TheVariants as reply;
ghost use Rattle.ctrl_model.specs.Controller.{answer, counted, numbered};
ghost use Rattle.ctrl_model.specs.Limits.{last_serial, most_claimed};
ghost use Rattle.ctrl_model.specs.SameStates.{same_entity, same_router, same_link, same_terminator, same_circuit, same_intercept, same_semantic, same_side, same_rows, same_state};
ghost use Rattle.ctrl_model.specs.State.{start};
ghost use Rattle.ctrl_model.specs.WorkedStates.{counted_after, everyone, line, line_commands, offered, only};
ghost use Rattle.model_laws.specs.WorkedIntercepts.{ports, over_tcp, over_udp, with_hosts};

/// Each change is counted: the line is made by fourteen. What changes nothing leaves the serial, as what is refused.
pub fn counted_changes()
    ensures at_start { start.serial ≡ 0 }
    ensures of_the_line { (counted_after (line_commands ++ offered (codes "web") (codes "r3") 0 Normal ∷ []) start).serial ≡ 14 }
    ensures uncounted { line.serial ≡ 0 }
    ensures changed { (numbered line (answer Admin (SetLeastRouterCost 20) line)).1.serial ≡ 1 }
    ensures reply { (numbered line (answer Admin (SetLeastRouterCost 20) line)).0 ≡ reply.Done }
    ensures as_it_was { (numbered line (answer Admin (SetLeastRouterCost 10) line)).1.serial ≡ 0 }
    ensures connected_again { (numbered line (answer Admin (ConnectRouter (codes "r1")) line)).1.serial ≡ 0 }
    ensures disconnected { (numbered line (answer Admin (DisconnectRouter (codes "r1")) line)).1.serial ≡ 1 }
    ensures shown { (numbered line (answer Admin ShowCounts line)).1.serial ≡ 0 }
    ensures refused { (numbered line (answer Admin (CreateService (codes "web") []) line)).1.serial ≡ 0 }
    ensures refusal { (numbered line (answer Admin (CreateService (codes "web") []) line)).0 ≡ reply.Refused refusal.Exists }
    ensures same_intercept { (numbered with_hosts (answer Admin (SetIntercept (codes "web") (over_tcp (Under (codes "example.org") ∷ []) (ports 443 443 ∷ []))) with_hosts)).1.serial ≡ 0 }
    ensures another_intercept { (numbered with_hosts (answer Admin (SetIntercept (codes "web") (over_tcp (Under (codes "example.org") ∷ []) (ports 443 444 ∷ []))) with_hosts)).1.serial ≡ 1 }
    ensures follows { (counted (record start { serial = 7 }) (record start { serial = 7; least_router_cost = 20 })).serial ≡ 8 }
    ensures last { last_serial ≡ 9223372036854775808 }
    ensures claimed { most_claimed ≡ 32 }
{}

/// Which parts of states are the same: each test tells one field from another.
pub fn same_parts()
    ensures state { same_state start start ≡ true }
    ensures serial { same_state start (record start { serial = 1 }) ≡ false }
    ensures intercepts { same_state start (record start { intercepts = (1, over_tcp [] []) ∷ [] }) ≡ false }
    ensures next { same_state start (record start { circuits = record start.circuits { next = 2 } }) ≡ false }
    ensures entity { same_entity (record { name = codes "a"; attributes = codes "b" ∷ [] }) (record { name = codes "a"; attributes = [] }) ≡ false }
    ensures router { same_router (record { name = codes "r"; attributes = []; cost = 1; through = true; connected = true }) (record { name = codes "r"; attributes = []; cost = 1; through = true; connected = false }) ≡ false }
    ensures link { same_link (record { name = codes "l"; a = 1; b = 2; cost = 1; latency_a = 0; latency_b = 0; up = true }) (record { name = codes "l"; a = 1; b = 2; cost = 1; latency_a = 0; latency_b = 1; up = true }) ≡ false }
    ensures semantic { same_semantic AnyOf AllOf ≡ false }
    ensures side { same_side everyone (only (codes "a")) ≡ false }
    ensures terminator { same_terminator (record { service = 1; router = 1; instance = []; host = None; cost = 0; precedence = Normal }) (record { service = 1; router = 1; instance = []; host = None; cost = 0; precedence = Failed }) ≡ false }
    ensures circuit { same_circuit (record { identity = 1; service = 1; terminator = 1; ingress = 1; links = 1 ∷ 2 ∷ [] }) (record { identity = 1; service = 1; terminator = 1; ingress = 1; links = 2 ∷ 1 ∷ [] }) ≡ false }
    ensures protocol { same_intercept (over_tcp (Host (codes "a") ∷ []) (ports 1 1 ∷ [])) (over_udp (Host (codes "a") ∷ []) (ports 1 1 ∷ [])) ≡ false }
    ensures order { same_intercept (over_tcp (Host (codes "a") ∷ Host (codes "b") ∷ []) (ports 1 1 ∷ [])) (over_tcp (Host (codes "b") ∷ Host (codes "a") ∷ []) (ports 1 1 ∷ [])) ≡ false }
    ensures number { same_rows same_intercept ((1, over_tcp [] []) ∷ []) ((2, over_tcp [] []) ∷ []) ≡ false }
{}
