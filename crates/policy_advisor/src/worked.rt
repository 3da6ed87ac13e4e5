ghost use Rattle.std.specs.Prelude.{◌≡◌, codes, [], ◌∷◌, true, false, None, Some};
ghost use Rattle.ctrl_model.specs.declared.commands.Command.TheVariants.{DeleteEdgeRouterPolicy, DeleteServicePolicy, DeleteTerminator, DisconnectRouter, UpdateRouter};
ghost use Rattle.ctrl_model.specs.declared.refusals.Denial.TheVariants.{UnknownIdentity, UnknownService, NoDial, NoSharedRouter, SharedRoutersOffline, NoTerminators, NoAdmissibleTerminator, NoPath};
ghost use Rattle.ctrl_model.specs.Choices.{first_rule};
ghost use Rattle.ctrl_model.specs.CircuitCommands.{ask_of};
ghost use Rattle.ctrl_model.specs.Networks.{network_of};
ghost use Rattle.policy_advisor.specs.Advice.{advice_of};
ghost use Rattle.policy_advisor.specs.Reports.{report_line};
ghost use Rattle.policy_advisor.specs.WorkedAdvice.{ann_may_dial, bob_is_absent, routers_of_line, line_behind, line_of_d, line_with_b};

/// Ann may dial web by d, enters at r1 and ends at the terminator on r3. With no way past r2 the advice stays, and another rule denies.
pub fn worked_advice()
    ensures may { advice_of line_of_d (codes "ann") (codes "web") ≡ ann_may_dial }
    ensures no_way { advice_of (line_behind (UpdateRouter (codes "r2") [] 0 true)) (codes "ann") (codes "web") ≡ ann_may_dial }
    ensures no_path { first_rule (network_of (line_behind (UpdateRouter (codes "r2") [] 0 true))) (ask_of (codes "ann") (codes "web") None [] (line_behind (UpdateRouter (codes "r2") [] 0 true))) ≡ Some NoPath }
{}

/// What one command makes other: the rule, and what was found of it.
pub fn worked_denied_pairs()
    ensures no_end { advice_of (line_behind (DisconnectRouter (codes "r3"))) (codes "ann") (codes "web") ≡ record ann_may_dial { admissible = []; rule = Some NoAdmissibleTerminator } }
    ensures offline { advice_of (line_behind (DisconnectRouter (codes "r1"))) (codes "ann") (codes "web") ≡ record ann_may_dial { online = []; rule = Some SharedRoutersOffline } }
    ensures no_policy { advice_of (line_behind (DeleteServicePolicy (codes "d"))) (codes "ann") (codes "web") ≡ record ann_may_dial { dial = 0; policies = []; rule = Some NoDial } }
    ensures no_router { advice_of (line_behind (DeleteEdgeRouterPolicy (codes "edge"))) (codes "ann") (codes "web") ≡ record ann_may_dial { common = []; online = []; rule = Some NoSharedRouter } }
    ensures no_terminator { advice_of (line_behind (DeleteTerminator 1)) (codes "ann") (codes "web") ≡ record ann_may_dial { terminators = []; admissible = []; rule = Some NoTerminators } }
{}

/// Who is absent matches no side, `#all` neither. The terminators are those of the service, whoever asks.
pub fn worked_absent_names()
    ensures identity { advice_of line_of_d (codes "bob") (codes "web") ≡ bob_is_absent }
    ensures service { advice_of line_of_d (codes "ann") (codes "nosuch") ≡ record { dial = 0; bind = 0; common = []; online = []; terminators = []; admissible = []; policies = record { name = codes "d"; left = true; right = false } ∷ []; rule = Some UnknownService } }
    ensures both { advice_of line_with_b (codes "bob") (codes "nosuch") ≡ record { dial = 0; bind = 0; common = []; online = []; terminators = []; admissible = []; policies = record { name = codes "d"; left = false; right = false } ∷ record { name = codes "b"; left = false; right = false } ∷ []; rule = Some UnknownIdentity } }
{}

/// Reports: yes, no for want of an admissible terminator, and no for an absent identity.
pub fn worked_reports()
    ensures yes { report_line routers_of_line ann_may_dial
        ≡ codes "{\"admissible\":[1],\"bind\":0,\"common\":[\"r1\"],\"dial\":1,\"online\":[\"r1\"],\"policies\":[[\"d\",true,true]],\"rule\":0,\"terminators\":[1],\"yes\":true}\n" }
    ensures no { report_line routers_of_line (record ann_may_dial { admissible = []; rule = Some NoAdmissibleTerminator })
        ≡ codes "{\"admissible\":[],\"bind\":0,\"common\":[\"r1\"],\"dial\":1,\"online\":[\"r1\"],\"policies\":[[\"d\",true,true]],\"rule\":37,\"terminators\":[1],\"yes\":false}\n" }
    ensures absent { report_line routers_of_line bob_is_absent
        ≡ codes "{\"admissible\":[1],\"bind\":0,\"common\":[],\"dial\":0,\"online\":[],\"policies\":[[\"d\",false,true]],\"rule\":30,\"terminators\":[1],\"yes\":false}\n" }
{}
