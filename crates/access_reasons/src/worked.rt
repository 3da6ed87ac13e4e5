ghost use Rattle.std.specs.Prelude.{◌≡◌, ◌++◌, codes, [], false};
ghost use Rattle.ctrl_model.specs.declared.commands.Command.TheVariants.{DeleteEdgeRouterPolicy, DeleteServiceEdgeRouterPolicy, DeleteTerminator, DisconnectRouter, ReportState};
ghost use Rattle.ctrl_model.specs.WorkedStates.{hosted_line};
ghost use Rattle.policy_advisor.specs.WorkedAdvice.{line_of_d};
ghost use Rattle.access_reasons.specs.ReasonLines.{failing_lines, lines_of};
ghost use Rattle.access_reasons.specs.Reasons.{who, why};
ghost use Rattle.access_reasons.specs.WorkedReasons.{ann_fails_behind, ann_fails_on_web, ann_on_web, misspelt_line, shared_line, unbound_line};

/// Ann reaches web: every line, over a terminator without a host and over one with a host.
pub fn worked_reach()
    ensures reaches { ann_on_web line_of_d ≡ codes "ok identity name=ann\n"
        ++ codes "ok service name=web\n"
        ++ codes "ok dial policies=d identity-only= service-only=\n"
        ++ codes "ok shared-router shared=r1 identity=r1 service=r1,r2,r3\n"
        ++ codes "ok online-router online=r1 offline=\n"
        ++ codes "ok terminator count=1\n"
        ++ codes "ok admissible-terminator 1=r3,admissible\n"
        ++ codes "ok path from=r1 to=r3\n"
        ++ codes "ok room\n" }
    ensures hosted { ann_on_web hosted_line ≡ codes "ok identity name=ann\n"
        ++ codes "ok service name=web\n"
        ++ codes "ok dial policies=dial identity-only= service-only=\n"
        ++ codes "ok shared-router shared=r1 identity=r1 service=r1,r2,r3\n"
        ++ codes "ok online-router online=r1 offline=\n"
        ++ codes "ok terminator count=1\n"
        ++ codes "ok admissible-terminator 1=r3,admissible,bob\n"
        ++ codes "ok path from=r1 to=r3\n"
        ++ codes "ok room\n" }
    ensures reached { ann_fails_on_web line_of_d ≡ [] }
{}

/// Who is absent has no rules of a pair.
pub fn worked_absence()
    ensures identity { lines_of (why line_of_d (codes "bob") (codes "web")) ≡ codes "fails identity name=bob\nok service name=web\n" }
    ensures service { lines_of (why line_of_d (codes "ann") (codes "crm")) ≡ codes "ok identity name=ann\nfails service name=crm\n" }
    ensures both { failing_lines (why line_of_d (codes "bob") (codes "crm")) ≡ codes "fails identity name=bob\nfails service name=crm\n" }
{}

/// A fault of grants is named by the first line that fails: an attribute that a policy spells otherwise, and a missing edge-router policy
/// or service-edge-router policy.
pub fn worked_missing_grants()
    ensures misspelt { ann_fails_on_web misspelt_line ≡ codes "fails dial policies= identity-only= service-only=d\n" }
    ensures edge_router { ann_fails_behind (DeleteEdgeRouterPolicy (codes "edge")) ≡ codes "fails shared-router shared= identity= service=r1,r2,r3\n"
        ++ codes "fails online-router online= offline=\n"
        ++ codes "fails path from= to=r3\n" }
    ensures service_edge_router { ann_fails_behind (DeleteServiceEdgeRouterPolicy (codes "all")) ≡ codes "fails shared-router shared= identity=r1 service=\n"
        ++ codes "fails online-router online= offline=\n"
        ++ codes "fails path from= to=r3\n" }
{}

/// A fault on the way is named by the first line that fails: a router that is offline, a terminator that is gone or whose router or host
/// does not serve, and a link that is down.
pub fn worked_broken_ways()
    ensures shared_offline { ann_fails_behind (DisconnectRouter (codes "r1")) ≡ codes "fails online-router online= offline=r1\nfails path from= to=r3\n" }
    ensures no_terminator { ann_fails_behind (DeleteTerminator 1) ≡ codes "fails terminator count=0\nfails admissible-terminator\nfails path from=r1 to=\n" }
    ensures terminator_offline { ann_fails_behind (DisconnectRouter (codes "r3")) ≡ codes "fails admissible-terminator 1=r3,router-offline\nfails path from=r1 to=\n" }
    ensures no_bind { ann_fails_on_web unbound_line ≡ codes "fails admissible-terminator 1=r3,host-without-bind,bob\nfails path from=r1 to=\n" }
    ensures link_down { ann_fails_behind (ReportState (codes "l2") (codes "r2") false) ≡ codes "fails path from=r1 to=r3\n" }
{}

/// Who can dial web, and by which policies, in the order of identities; and nobody a service that there is not.
pub fn worked_dialers()
    ensures dialers { lines_of (who shared_line (codes "web")) ≡ codes "ok service name=web\n"
        ++ codes "ok dial identity=ann policies=dial,a\n"
        ++ codes "ok dial identity=bob policies=a,c\n" }
    ensures absent { lines_of (who shared_line (codes "crm")) ≡ codes "fails service name=crm\n" }
{}
