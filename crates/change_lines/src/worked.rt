ghost use Rattle.std.specs.Prelude.{◌≡◌, [], codes};
ghost use Rattle.ctrl_model.specs.State.{start};
ghost use Rattle.record_lines.specs.WorkedRecords.{claimed_network, small_network};
ghost use Rattle.change_lines.specs.ChangeLines.{change_lines};
ghost use Rattle.change_lines.specs.PlanTexts.{plan_text};
ghost use Rattle.change_lines.specs.WorkedChanges.{cut_network, staffed_network, unclaimed_network, unstaffing};

/// What is said of a small network whose link went down, and of one in which an attribute went over to a new identity.
pub fn worked_changes()
    ensures cut { change_lines small_network cut_network ≡ codes "~ links 1 l1 a=r1 b=r2 cost=11 latency_a=0 latency_b=0 up=true\n> links 1 l1 a=r1 b=r2 cost=11 latency_a=0 latency_b=0 up=false\n- circuits 1 identity=ann service=web terminator=1 route=r1,l1,r2\n+ serial 1\n" }
    ensures staffed { change_lines small_network staffed_network ≡ codes "~ next identities 2\n> next identities 3\n+ least-router-cost 20\n~ identities 1 ann #staff\n> identities 1 ann\n+ identities 2 bob #staff\n- circuits 1 identity=ann service=web terminator=1 route=r1,l1,r2\n- dial ann web 1\n+ dial bob web 1\n+ identity-router bob r1 1\n" }
    ensures back { change_lines staffed_network small_network ≡ codes "~ next identities 3\n> next identities 2\n- least-router-cost 20\n~ identities 1 ann\n> identities 1 ann #staff\n- identities 2 bob #staff\n+ circuits 1 identity=ann service=web terminator=1 route=r1,l1,r2\n+ dial ann web 1\n- dial bob web 1\n- identity-router bob r1 1\n" }
{}

/// Intercepts that went and came, and states that are one.
pub fn worked_lines()
    ensures unclaimed { change_lines claimed_network unclaimed_network ≡ codes "- intercepts 1 web protocols=[\"tcp\"] addresses=[\"*.example.org\"] ports=[[443,443]]\n" }
    ensures claimed { change_lines unclaimed_network claimed_network ≡ codes "+ intercepts 1 web protocols=[\"tcp\"] addresses=[\"*.example.org\"] ports=[[443,443]]\n" }
    ensures same { change_lines small_network small_network ≡ [] }
    ensures start { change_lines start start ≡ [] }
{}

/// What commands would do to the small network: one that ends a grant and with it a circuit, and some that are
/// refused; and one that changes nothing.
pub fn worked_plans()
    ensures unstaffed { plan_text small_network unstaffing ≡ codes "~ identities 1 ann #staff\n> identities 1 ann\n- circuits 1 identity=ann service=web terminator=1 route=r1,l1,r2\n- dial ann web 1\n+ serial 1\nrefused 3 {\"code\":20,\"name\":\"Exists\"}\nrefused 4 {\"code\":21,\"field\":\"no\",\"name\":\"Unknown\"}\n" }
    ensures asked { plan_text small_network (codes "ShowCounts {}\n") ≡ [] }
{}
