ghost use Rattle.std.specs.Prelude.{◌≡◌, ℕ, codes, true, false, replicate, [], ◌∷◌, None, Some, map, drop};
ghost use Rattle.ctrl_model.specs.declared.claims.Reach.{Reach};
ghost use Rattle.ctrl_model.specs.declared.commands.Command.TheVariants.{CreateIdentity, DeleteIdentity, CreateService, DeleteService, CreateServicePolicy, DeleteServicePolicy, CreateLink, CreateRouter, ConnectRouter, DisconnectRouter, DeleteRouter, DeleteEdgeRouterPolicy, ReportLatency, ReportState, CreateTerminator, DeleteTerminator, CreateCircuit, ShowGrants, ListServices, ShowCounts, ShowCircuit, UpdateRouter, SetLeastRouterCost, CreateEdgeRouterPolicy, UpdateIdentity, UpdateService, UpdateServicePolicy, UpdateEdgeRouterPolicy, UpdateServiceEdgeRouterPolicy, DeleteServiceEdgeRouterPolicy, CreateServiceEdgeRouterPolicy, SetLinkCost, DeleteLink, UpdateTerminator, DeleteCircuit, VerifyRoute, Explain, Hello, Compact};
ghost use Rattle.ctrl_model.specs.declared.kinds.Kind.TheVariants as kind;
ghost use Rattle.ctrl_model.specs.declared.kinds.Precedence.TheVariants.{Required, Normal, Failed};
ghost use Rattle.ctrl_model.specs.declared.kinds.Relation.TheVariants.{Dial, Bind, IdentityRouter, ServiceRouter};
ghost use Rattle.ctrl_model.specs.declared.kinds.Semantic.TheVariants.{AnyOf, AllOf};
ghost use Rattle.ctrl_model.specs.declared.kinds.Who.TheVariants.{Admin, Identity, Router};
ghost use Rattle.ctrl_model.specs.declared.refusals.Denial.TheVariants as denial;
ghost use Rattle.ctrl_model.specs.declared.refusals.Field.TheVariants as field;
ghost use Rattle.ctrl_model.specs.declared.refusals.Refusal.TheVariants as refusal;
ghost use Rattle.ctrl_model.specs.declared.replies.Reply.TheVariants as reply;
ghost use Rattle.ctrl_model.specs.declared.replies.Tally.{Tally};
ghost use Rattle.ctrl_model.specs.ValueForms.{is_side};
ghost use Rattle.ctrl_model.specs.SpelledCommands.{is_spelled};
ghost use Rattle.ctrl_model.specs.NameForm.{is_name, is_instance};
ghost use Rattle.ctrl_model.specs.Numbered.{at, numbers};
ghost use Rattle.ctrl_model.specs.State.{Entity, start};
ghost use Rattle.ctrl_model.specs.Matches.{matches};
ghost use Rattle.ctrl_model.specs.Grants.{count};
ghost use Rattle.ctrl_model.specs.Networks.{network_of, paths, circuits_full, open_circuits};
ghost use Rattle.ctrl_model.specs.RecordCommands.{refusal_of_create};
ghost use Rattle.ctrl_model.specs.EntityCommands.{entity, new_router};
ghost use Rattle.ctrl_model.specs.LinkCommands.{refusal_of_create_link};
ghost use Rattle.ctrl_model.specs.TerminatorCommands.{refusal_of_create_terminator};
ghost use Rattle.ctrl_model.specs.Claims.{least_cost, no_path};
ghost use Rattle.ctrl_model.specs.Permitted.{is_permitted};
ghost use Rattle.ctrl_model.specs.Settling.{circuit_stays, revoke, repair};
ghost use Rattle.ctrl_model.specs.Controller.{answer};
ghost use Rattle.ctrl_model.specs.WorkedStates.{reply_to, after, everyone, only, carrying, service_policy, link_of_eleven, offered, line, detoured, line_without_terminator, line_stopped_at_r2, line_of_precedences, square, two_policies, hosted_line, narrow_line, line_from_two, two_terminators, fork, ann_to_web, explain_ann_to_web, claim_on_line, claim_from_r1, claim_by_ingress, towards, two_on_r3, ungranted, names_of_one_byte, names_of_one_byte_but_one, names_of_two_bytes};

/// Examples of names and instances, from the rule alone.
pub fn names_and_words()
    ensures plain { is_name (codes "ann") ≡ true }
    ensures marks { is_name (codes "r1.East_2-b") ≡ true }
    ensures empty { is_name [] ≡ false }
    ensures space { is_name (codes "a b") ≡ false }
    ensures longest { is_name (replicate 64 97) ≡ true }
    ensures too_long { is_name (replicate 65 97) ≡ false }
    ensures no_instance { is_instance [] ≡ true }
    ensures instance { is_instance (codes "blue") ≡ true }
    ensures bad_instance { is_instance (codes "#blue") ≡ false }
{}

/// Examples of role lists: an entity ab with the attributes a and b, an entity a with the attribute a, and an entity x with
/// none.
pub fn role_lists()
    ensures all_of_both { matches (carrying (codes "a" ∷ codes "b" ∷ [])) AllOf (record { name = codes "ab"; attributes = codes "a" ∷ codes "b" ∷ [] }) ≡ true }
    ensures all_of_one { matches (carrying (codes "a" ∷ codes "b" ∷ [])) AllOf (record { name = codes "a"; attributes = codes "a" ∷ [] }) ≡ false }
    ensures any_of_one { matches (carrying (codes "a" ∷ codes "b" ∷ [])) AnyOf (record { name = codes "a"; attributes = codes "a" ∷ [] }) ≡ true }
    ensures any_of_none { matches (carrying (codes "a" ∷ codes "b" ∷ [])) AnyOf (record { name = codes "x"; attributes = [] }) ≡ false }
    ensures named { matches (only (codes "x")) AllOf (record { name = codes "x"; attributes = [] }) ≡ true }
    ensures not_named { matches (only (codes "x")) AllOf (record { name = codes "a"; attributes = codes "x" ∷ [] }) ≡ false }
    ensures all_of_nothing { matches (carrying []) AllOf (record { name = codes "ab"; attributes = codes "a" ∷ [] }) ≡ false }
    ensures any_of_nothing { matches (carrying []) AnyOf (record { name = codes "ab"; attributes = codes "a" ∷ [] }) ≡ false }
    ensures everyone { matches everyone AllOf (record { name = codes "x"; attributes = codes "all" ∷ [] }) ≡ true }
{}

/// Two policies that grant one pair count twice; without the first they count once, and without both not at all.
pub fn counted_grants()
    ensures twice { count Dial two_policies 1 1 ≡ 2 }
    ensures shown { reply_to (ShowGrants (codes "ann")) two_policies ≡ reply.Grants [] (record { name = codes "web"; count = 2 } ∷ []) [] }
    ensures once { count Dial (after (DeleteServicePolicy (codes "p1") ∷ []) two_policies) 1 1 ≡ 1 }
    ensures listed { reply_to (ListServices (codes "ann")) (after (DeleteServicePolicy (codes "p1") ∷ []) two_policies) ≡ reply.Services (codes "web" ∷ []) }
    ensures never { reply_to (ShowGrants (codes "ann")) (after (DeleteServicePolicy (codes "p2") ∷ DeleteServicePolicy (codes "p1") ∷ []) two_policies) ≡ reply.Grants [] [] [] }
    ensures absent { count Dial two_policies 2 1 ≡ 0 }
    ensures counts { reply_to ShowCounts two_policies ≡ reply.Counts 0 1 1 0 2 0 1 0 }
{}

/// An identity that is deleted and made again has another number, and no policy names it any more.
pub fn deleted_and_made_again()
    ensures number { reply_to (CreateIdentity (codes "ann") []) (after (DeleteIdentity (codes "ann") ∷ []) line) ≡ reply.Made 2 }
    ensures no_grant { reply_to (ShowGrants (codes "ann")) (after (DeleteIdentity (codes "ann") ∷ CreateIdentity (codes "ann") [] ∷ []) line) ≡ reply.Grants [] [] [] }
    ensures twice { reply_to (CreateIdentity (codes "ann") []) line ≡ reply.Refused refusal.Exists }
    ensures absent { reply_to (DeleteIdentity (codes "bob")) line ≡ reply.Refused (refusal.Unknown field.Name) }
    ensures absent_in_roles { reply_to (CreateServicePolicy (codes "p") Dial AllOf (only (codes "q")) everyone) line ≡ reply.Refused (refusal.UnknownRef field.IdentityRoles (codes "q")) }
{}

/// The line of three routers: a circuit over both links, its explanation, and its claim judged.
pub fn a_circuit_on_a_line()
    ensures granted { reply_to ann_to_web line ≡ reply.Circuit (record { 0 = 1 }) (codes "r1") (1 ∷ 2 ∷ []) (record { 0 = 1 }) 42 }
    ensures potentials { map (least_cost (network_of line) 3) (1 ∷ 2 ∷ 3 ∷ []) ≡ 42 ∷ 21 ∷ 0 ∷ [] }
    ensures explained { reply_to explain_ann_to_web line ≡ reply.Explained (codes "r1") (record { ingress = record { 0 = 1 }; links = 1 ∷ 2 ∷ []; potentials = record { router = record { 0 = 3 }; values = 42 ∷ 21 ∷ 0 ∷ [] } ∷ []; routers = 1 ∷ 2 ∷ 3 ∷ []; terminator = record { 0 = 1 }; total = 42 }) }
    ensures certified { reply_to (claim_on_line (42 ∷ 21 ∷ 0 ∷ [])) line ≡ reply.Verified true }
    ensures too_low { reply_to (claim_on_line (41 ∷ 21 ∷ 0 ∷ [])) line ≡ reply.Verified false }
    ensures circuit_stands { reply_to (ShowCircuit 1) (after (ann_to_web ∷ []) line) ≡ reply.Shown (codes "ann") (codes "r1") (1 ∷ 2 ∷ []) (codes "web") (record { 0 = 1 }) }
    ensures dearer_entry { reply_to ann_to_web (after (SetLeastRouterCost 100 ∷ []) line) ≡ reply.Circuit (record { 0 = 1 }) (codes "r1") (1 ∷ 2 ∷ []) (record { 0 = 1 }) 222 }
    ensures first_is_free { reply_to ann_to_web (after (UpdateRouter (codes "r1") [] 5000 false ∷ []) line) ≡ reply.Circuit (record { 0 = 1 }) (codes "r1") (1 ∷ 2 ∷ []) (record { 0 = 1 }) 42 }
{}

/// Each circuit that is open at a terminator makes it dearer by 1, so that of two that cost the same they take turns; and the claim that the
/// route of the line costs 42 fails beside the circuit that it told.
pub fn load_on_terminators()
    ensures first { reply_to ann_to_web two_on_r3 ≡ reply.Circuit (record { 0 = 1 }) (codes "r1") (1 ∷ 2 ∷ []) (record { 0 = 1 }) 42 }
    ensures second { reply_to ann_to_web (after (ann_to_web ∷ []) two_on_r3) ≡ reply.Circuit (record { 0 = 2 }) (codes "r1") (1 ∷ 2 ∷ []) (record { 0 = 2 }) 42 }
    ensures third { reply_to ann_to_web (after (ann_to_web ∷ ann_to_web ∷ []) two_on_r3) ≡ reply.Circuit (record { 0 = 3 }) (codes "r1") (1 ∷ 2 ∷ []) (record { 0 = 1 }) 43 }
    ensures load { map (open_circuits (after (ann_to_web ∷ ann_to_web ∷ ann_to_web ∷ []) two_on_r3)) (1 ∷ 2 ∷ 3 ∷ []) ≡ 2 ∷ 1 ∷ 0 ∷ [] }
    ensures freed { reply_to ann_to_web (after (ann_to_web ∷ ann_to_web ∷ DeleteCircuit 1 ∷ []) two_on_r3) ≡ reply.Circuit (record { 0 = 3 }) (codes "r1") (1 ∷ 2 ∷ []) (record { 0 = 1 }) 42 }
    ensures explained { reply_to explain_ann_to_web (after (ann_to_web ∷ []) line) ≡ reply.Explained (codes "r1") (record { ingress = record { 0 = 1 }; links = 1 ∷ 2 ∷ []; potentials = towards 3 (42 ∷ 21 ∷ 0 ∷ []) ∷ []; routers = 1 ∷ 2 ∷ 3 ∷ []; terminator = record { 0 = 1 }; total = 43 }) }
    ensures claimed { reply_to (claim_on_line (42 ∷ 21 ∷ 0 ∷ [])) (after (ann_to_web ∷ []) line) ≡ reply.Verified false }
    ensures claimed_dearer { reply_to (claim_from_r1 (1 ∷ 2 ∷ []) (towards 3 (42 ∷ 21 ∷ 0 ∷ []) ∷ []) (1 ∷ 2 ∷ 3 ∷ []) 1 43) (after (ann_to_web ∷ []) line) ≡ reply.Verified true }
{}

/// A circuit ends with what granted it: with Dial, with the shared ingress, with its terminator in service, and not with what grants others.
pub fn revoked_circuits()
    ensures dial { reply_to (ShowCircuit 1) (after (ann_to_web ∷ DeleteServicePolicy (codes "dial") ∷ []) line) ≡ reply.Refused (refusal.Unknown field.No) }
    ensures ingress { reply_to (ShowCircuit 1) (after (ann_to_web ∷ DeleteEdgeRouterPolicy (codes "edge") ∷ []) line) ≡ reply.Refused (refusal.Unknown field.No) }
    ensures service_side { reply_to (ShowCircuit 1) (after (ann_to_web ∷ DeleteServiceEdgeRouterPolicy (codes "all") ∷ []) line) ≡ reply.Refused (refusal.Unknown field.No) }
    ensures host { reply_to (ShowCircuit 1) (after (ann_to_web ∷ DeleteServicePolicy (codes "bind") ∷ []) hosted_line) ≡ reply.Refused (refusal.Unknown field.No) }
    ensures router_of_the_host { reply_to (ShowCircuit 1) (after (ann_to_web ∷ DeleteEdgeRouterPolicy (codes "bobs") ∷ []) hosted_line) ≡ reply.Refused (refusal.Unknown field.No) }
    ensures granted_twice { reply_to (ShowCircuit 1) (after (service_policy (codes "too") Dial everyone everyone ∷ ann_to_web ∷ DeleteServicePolicy (codes "dial") ∷ []) line) ≡ reply.Shown (codes "ann") (codes "r1") (1 ∷ 2 ∷ []) (codes "web") (record { 0 = 1 }) }
    ensures not_again { reply_to (ShowCircuit 1) (after (ann_to_web ∷ DeleteServicePolicy (codes "dial") ∷ service_policy (codes "dial") Dial everyone everyone ∷ []) line) ≡ reply.Refused (refusal.Unknown field.No) }
{}

/// A circuit that stands though nothing grants it, as in a folder written before circuits were revoked: repairing leaves it, and so does
/// a command that shows something or is refused; the first command that has an effect ends it, even one that changes nothing itself.
pub fn circuits_from_before()
    ensures stands { reply_to (ShowCircuit 1) (repair ungranted) ≡ reply.Shown (codes "ann") (codes "r1") (1 ∷ 2 ∷ []) (codes "web") (record { 0 = 1 }) }
    ensures revoked { reply_to (ShowCircuit 1) (revoke ungranted) ≡ reply.Refused (refusal.Unknown field.No) }
    ensures shown { reply_to (ShowCircuit 1) (after (ShowCounts ∷ DeleteIdentity (codes "bob") ∷ []) ungranted) ≡ reply.Shown (codes "ann") (codes "r1") (1 ∷ 2 ∷ []) (codes "web") (record { 0 = 1 }) }
    ensures ended { reply_to (ShowCircuit 1) (after (UpdateIdentity (codes "ann") [] ∷ []) ungranted) ≡ reply.Refused (refusal.Unknown field.No) }
{}

/// No path passes through a no-traversal router, and a circuit whose path fails ends where there is no other. A second link gives another path.
pub fn no_traversal()
    ensures ended { reply_to (ShowCircuit 1) line_stopped_at_r2 ≡ reply.Refused (refusal.Unknown field.No) }
    ensures no_path { reply_to ann_to_web line_stopped_at_r2 ≡ reply.Refused (refusal.Denied denial.NoPath) }
    ensures no_potential { least_cost (network_of line_stopped_at_r2) 3 1 ≡ no_path }
    ensures other_way { reply_to ann_to_web (after (CreateLink (codes "l3") (codes "r1") (codes "r3") 60 0 0 ∷ []) line_stopped_at_r2) ≡ reply.Circuit (record { 0 = 2 }) (codes "r1") (3 ∷ []) (record { 0 = 1 }) 70 }
{}

/// A nearer terminator is taken, and a claim of the farther route is no longer justified.
pub fn a_nearer_terminator()
    ensures taken { reply_to ann_to_web (after (offered (codes "web") (codes "r1") 7 Normal ∷ []) line) ≡ reply.Circuit (record { 0 = 1 }) (codes "r1") [] (record { 0 = 2 }) 7 }
    ensures refuted { reply_to (claim_on_line (42 ∷ 21 ∷ 0 ∷ [])) (after (offered (codes "web") (codes "r1") 7 Normal ∷ []) line) ≡ reply.Verified false }
{}

/// Precedence is compared before the total: a required terminator that no path reaches does not count, a default one comes
/// before a failed one that costs less, and numbers are never used again.
pub fn precedences()
    ensures default_first { reply_to ann_to_web (after (ConnectRouter (codes "r4") ∷ []) line_of_precedences) ≡ reply.Circuit (record { 0 = 1 }) (codes "r1") (1 ∷ 2 ∷ []) (record { 0 = 3 }) 542 }
    ensures failed_last { reply_to ann_to_web (after (ConnectRouter (codes "r4") ∷ DeleteTerminator 3 ∷ []) line_of_precedences) ≡ reply.Circuit (record { 0 = 1 }) (codes "r1") [] (record { 0 = 4 }) 0 }
{}

/// Of paths that cost the same the one whose list of links comes first is taken.
pub fn equal_paths()
    ensures first_links { reply_to ann_to_web square ≡ reply.Circuit (record { 0 = 1 }) (codes "r1") (1 ∷ 4 ∷ []) (record { 0 = 1 }) 42 }
    ensures both { paths (network_of square) 1 4 ≡ (1 ∷ 4 ∷ []) ∷ (2 ∷ 3 ∷ []) ∷ [] }
{}

/// Each denial comes before the rules that fail after it.
pub fn denials()
    ensures unknown_identity { reply_to (CreateCircuit (codes "bob") (codes "tea") None []) line ≡ reply.Refused (refusal.Denied denial.UnknownIdentity) }
    ensures unknown_service { reply_to (CreateCircuit (codes "ann") (codes "tea") (Some (codes "r9")) []) line ≡ reply.Refused (refusal.Denied denial.UnknownService) }
    ensures unknown_router { reply_to (CreateCircuit (codes "ann") (codes "web") (Some (codes "r9")) []) (after (DeleteServicePolicy (codes "dial") ∷ []) line) ≡ reply.Refused (refusal.Denied denial.UnknownRouter) }
    ensures no_dial { reply_to ann_to_web (after (DeleteServicePolicy (codes "dial") ∷ DeleteEdgeRouterPolicy (codes "edge") ∷ []) line) ≡ reply.Refused (refusal.Denied denial.NoDial) }
    ensures no_shared_router { reply_to (CreateCircuit (codes "ann") (codes "web") (Some (codes "r2")) []) line_without_terminator ≡ reply.Refused (refusal.Denied denial.NoSharedRouter) }
    ensures routers_offline { reply_to ann_to_web (after (DisconnectRouter (codes "r1") ∷ []) line_without_terminator) ≡ reply.Refused (refusal.Denied denial.SharedRoutersOffline) }
    ensures no_terminators { reply_to (CreateCircuit (codes "ann") (codes "web") None (codes "blue")) (after (DisconnectRouter (codes "r3") ∷ []) line) ≡ reply.Refused (refusal.Denied denial.NoTerminators) }
    ensures none_admissible { reply_to ann_to_web (after (DisconnectRouter (codes "r3") ∷ []) line) ≡ reply.Refused (refusal.Denied denial.NoAdmissibleTerminator) }
    ensures no_path { reply_to ann_to_web (record line_stopped_at_r2 { circuits = record line_stopped_at_r2.circuits { next = 4294967295 } }) ≡ reply.Refused (refusal.Denied denial.NoPath) }
    ensures full { reply_to ann_to_web (record line { circuits = record line.circuits { next = 4294967295 } }) ≡ reply.Refused (refusal.Denied denial.CircuitsFull) }
{}

/// A host must hold Bind on its service: without it a terminator is not made, and one that was made is not admissible.
pub fn hosts()
    ensures granted { reply_to ann_to_web hosted_line ≡ reply.Circuit (record { 0 = 1 }) (codes "r1") (1 ∷ 2 ∷ []) (record { 0 = 1 }) 42 }
    ensures lost { reply_to ann_to_web (after (DeleteServicePolicy (codes "bind") ∷ []) hosted_line) ≡ reply.Refused (refusal.Denied denial.NoAdmissibleTerminator) }
    ensures again { reply_to ann_to_web (after (DeleteServicePolicy (codes "bind") ∷ service_policy (codes "bind") Bind everyone everyone ∷ []) hosted_line) ≡ reply.Circuit (record { 0 = 1 }) (codes "r1") (1 ∷ 2 ∷ []) (record { 0 = 1 }) 42 }
    ensures not_bindable { reply_to (CreateTerminator (codes "web") (codes "r3") [] (Some (codes "ann")) 0 Normal) hosted_line ≡ reply.Refused refusal.NotBindable }
    ensures no_host { reply_to (CreateTerminator (codes "web") (codes "r3") [] (Some (codes "eve")) 0 Normal) hosted_line ≡ reply.Refused (refusal.Unknown field.Host) }
{}

/// Limits, and the order of the rules on links.
pub fn limits_and_links()
    ensures no_numbers_left { reply_to (CreateIdentity (codes "ann") []) (record start { identities = record start.identities { next = 4294967295 } }) ≡ reply.Refused (refusal.Full kind.Identity) }
    ensures last_number { reply_to (CreateIdentity (codes "ann") []) (record start { identities = record start.identities { next = 4294967294 } }) ≡ reply.Made 4294967294 }
    ensures same_router { reply_to (CreateLink (codes "l9") (codes "r1") (codes "r1") 1 0 0) line ≡ reply.Refused refusal.SameRouter }
    ensures name_before_routers { reply_to (CreateLink (codes "l1") (codes "r8") (codes "r9") 1 0 0) line ≡ reply.Refused refusal.Exists }
    ensures first_end { reply_to (CreateLink (codes "l9") (codes "r8") (codes "r9") 1 0 0) line ≡ reply.Refused (refusal.Unknown field.A) }
    ensures no_end { reply_to (ReportLatency (codes "l1") (codes "r3") 9) line ≡ reply.Refused (refusal.Unknown field.Router) }
    ensures own_end { reply_to ann_to_web (after (ReportLatency (codes "l1") (codes "r2") 9 ∷ []) line) ≡ reply.Circuit (record { 0 = 1 }) (codes "r1") (1 ∷ 2 ∷ []) (record { 0 = 1 }) 46 }
    ensures down { reply_to ann_to_web (after (ReportState (codes "l1") (codes "r2") false ∷ []) line) ≡ reply.Refused (refusal.Denied denial.NoPath) }
    ensures links_go_with_a_router { reply_to ShowCounts (after (DeleteRouter (codes "r3") ∷ []) (after (ann_to_web ∷ []) line)) ≡ reply.Counts 0 4 1 1 3 2 1 0 }
{}

/// Sessions of routers and identities may send what concerns them alone.
pub fn permissions()
    ensures own_circuit { is_permitted (Identity (codes "ann")) ann_to_web ≡ true }
    ensures other_circuit { is_permitted (Identity (codes "bob")) ann_to_web ≡ false }
    ensures no_service { (answer (Identity (codes "ann")) (CreateService (codes "tea") []) line).0 ≡ reply.Refused refusal.NotPermitted }
    ensures nothing_changes { (answer (Identity (codes "ann")) (CreateService (codes "tea") []) line).1 ≡ line }
    ensures own_link_end { is_permitted (Router (codes "r1")) (ReportLatency (codes "l1") (codes "r1") 3) ≡ true }
    ensures unhosted { is_permitted (Router (codes "r3")) (offered (codes "web") (codes "r3") 0 Normal) ≡ true }
    ensures hosted { is_permitted (Router (codes "r3")) (CreateTerminator (codes "web") (codes "r3") [] (Some (codes "bob")) 0 Normal) ≡ false }
    ensures its_host { is_permitted (Identity (codes "bob")) (CreateTerminator (codes "web") (codes "r3") [] (Some (codes "bob")) 0 Normal) ≡ true }
    ensures every_command { is_permitted Admin (DeleteRouter (codes "r1")) ≡ true }
{}

/// Which commands some body spells: the ends of the ranges of numbers, and of the lengths of lists.
pub fn ranges()
    ensures least_link_cost { is_spelled (SetLinkCost (codes "l1") 1) ≡ true }
    ensures no_link_cost { is_spelled (SetLinkCost (codes "l1") 0) ≡ false }
    ensures most_link_cost { is_spelled (SetLinkCost (codes "l1") 65535) ≡ true }
    ensures above_link_cost { is_spelled (SetLinkCost (codes "l1") 65536) ≡ false }
    ensures least_setting { is_spelled (SetLeastRouterCost 1) ≡ true }
    ensures no_setting { is_spelled (SetLeastRouterCost 0) ≡ false }
    ensures above_setting { is_spelled (SetLeastRouterCost 65536) ≡ false }
    ensures least_latency { is_spelled (ReportLatency (codes "l1") (codes "r1") 0) ≡ true }
    ensures most_latency { is_spelled (ReportLatency (codes "l1") (codes "r1") 60000) ≡ true }
    ensures above_latency { is_spelled (ReportLatency (codes "l1") (codes "r1") 60001) ≡ false }
    ensures most_of_a_link { is_spelled (CreateLink (codes "l1") (codes "r1") (codes "r2") 65535 60000 60000) ≡ true }
    ensures above_one_end { is_spelled (CreateLink (codes "l1") (codes "r1") (codes "r2") 1 60001 0) ≡ false }
    ensures above_other_end { is_spelled (CreateLink (codes "l1") (codes "r1") (codes "r2") 1 0 60001) ≡ false }
    ensures least_router_cost { is_spelled (CreateRouter (codes "r1") [] 0 true) ≡ true }
    ensures most_router_cost { is_spelled (UpdateRouter (codes "r1") [] 65535 true) ≡ true }
    ensures above_router_cost { is_spelled (CreateRouter (codes "r1") [] 65536 true) ≡ false }
    ensures above_router_cost_again { is_spelled (UpdateRouter (codes "r1") [] 65536 true) ≡ false }
    ensures most_terminator_cost { is_spelled (UpdateTerminator 4294967295 65535 Normal) ≡ true }
    ensures above_terminator_cost { is_spelled (UpdateTerminator 1 65536 Normal) ≡ false }
    ensures above_offered_cost { is_spelled (offered (codes "web") (codes "r1") 65536 Normal) ≡ false }
    ensures least_number { is_spelled (DeleteTerminator 1) ≡ true }
    ensures no_number { is_spelled (DeleteTerminator 0) ≡ false }
    ensures above_numbers { is_spelled (DeleteCircuit 4294967296) ≡ false }
    ensures as_many_attributes { is_spelled (CreateIdentity (codes "ann") names_of_one_byte_but_one) ≡ true }
    ensures too_many_attributes { is_spelled (UpdateIdentity (codes "ann") names_of_one_byte) ≡ false }
    ensures attribute_twice { is_spelled (CreateService (codes "web") (codes "a" ∷ codes "b" ∷ codes "a" ∷ [])) ≡ false }
    ensures attribute_all { is_spelled (CreateService (codes "web") (codes "all" ∷ [])) ≡ true }
    ensures bad_attribute { is_spelled (UpdateService (codes "web") (codes "a b" ∷ [])) ≡ false }
    ensures bad_name { is_spelled (CreateIdentity [] []) ≡ false }
    ensures bad_instance { is_spelled (CreateCircuit (codes "ann") (codes "web") None (codes "#")) ≡ false }
    ensures bad_ingress { is_spelled (CreateCircuit (codes "ann") (codes "web") (Some []) []) ≡ false }
    ensures bad_host { is_spelled (CreateTerminator (codes "web") (codes "r1") [] (Some []) 0 Normal) ≡ false }
    ensures no_service_relation { is_spelled (service_policy (codes "p") ServiceRouter everyone everyone) ≡ false }
{}

/// Which commands some body spells, of those that say names, sides or numbers alone.
pub fn spelled_commands()
    ensures hello { is_spelled Hello ≡ true }
    ensures delete_identity { is_spelled (DeleteIdentity (codes "ann")) ≡ true }
    ensures delete_no_identity { is_spelled (DeleteIdentity []) ≡ false }
    ensures delete_service { is_spelled (DeleteService (codes "web")) ≡ true }
    ensures delete_no_service { is_spelled (DeleteService (codes "a b")) ≡ false }
    ensures delete_router { is_spelled (DeleteRouter (codes "r1")) ≡ true }
    ensures delete_no_router { is_spelled (DeleteRouter []) ≡ false }
    ensures connect { is_spelled (ConnectRouter (codes "r1")) ≡ true }
    ensures connect_none { is_spelled (ConnectRouter []) ≡ false }
    ensures disconnect { is_spelled (DisconnectRouter (codes "r1")) ≡ true }
    ensures disconnect_none { is_spelled (DisconnectRouter (replicate 65 97)) ≡ false }
    ensures service_policy { is_spelled (UpdateServicePolicy (codes "p") Bind AllOf everyone (only (codes "web"))) ≡ true }
    ensures another_relation { is_spelled (UpdateServicePolicy (codes "p") IdentityRouter AllOf everyone everyone) ≡ false }
    ensures bad_left { is_spelled (service_policy (codes "p") Dial (carrying (codes "all" ∷ [])) everyone) ≡ false }
    ensures bad_right { is_spelled (UpdateServicePolicy (codes "p") Dial AnyOf everyone (carrying ([] ∷ []))) ≡ false }
    ensures delete_service_policy { is_spelled (DeleteServicePolicy (codes "p")) ≡ true }
    ensures delete_no_service_policy { is_spelled (DeleteServicePolicy []) ≡ false }
    ensures edge_router_policy { is_spelled (CreateEdgeRouterPolicy (codes "p") AnyOf everyone everyone) ≡ true }
    ensures bad_edge_left { is_spelled (CreateEdgeRouterPolicy (codes "p") AnyOf (only []) everyone) ≡ false }
    ensures bad_edge_right { is_spelled (UpdateEdgeRouterPolicy (codes "p") AnyOf everyone (only [])) ≡ false }
    ensures delete_edge_router_policy { is_spelled (DeleteEdgeRouterPolicy []) ≡ false }
    ensures service_edge_router_policy { is_spelled (UpdateServiceEdgeRouterPolicy (codes "p") AllOf everyone everyone) ≡ true }
    ensures bad_service_edge_left { is_spelled (CreateServiceEdgeRouterPolicy (codes "p") AnyOf (only []) everyone) ≡ false }
    ensures bad_service_edge_right { is_spelled (UpdateServiceEdgeRouterPolicy (codes "p") AnyOf everyone (only [])) ≡ false }
    ensures delete_service_edge_router_policy { is_spelled (DeleteServiceEdgeRouterPolicy []) ≡ false }
    ensures state { is_spelled (ReportState (codes "l1") (codes "r1") true) ≡ true }
    ensures state_of_no_link { is_spelled (ReportState [] (codes "r1") true) ≡ false }
    ensures state_of_no_router { is_spelled (ReportState (codes "l1") [] true) ≡ false }
    ensures delete_link { is_spelled (DeleteLink (codes "l1")) ≡ true }
    ensures delete_no_link { is_spelled (DeleteLink []) ≡ false }
    ensures circuit { is_spelled (CreateCircuit (codes "ann") (codes "web") (Some (codes "r1")) (codes "blue")) ≡ true }
    ensures circuit_of_none { is_spelled (CreateCircuit [] (codes "web") None []) ≡ false }
    ensures explain { is_spelled explain_ann_to_web ≡ true }
    ensures explain_nothing { is_spelled (Explain (codes "ann") [] None []) ≡ false }
    ensures grants { is_spelled (ShowGrants (codes "ann")) ≡ true }
    ensures grants_of_none { is_spelled (ShowGrants []) ≡ false }
    ensures services { is_spelled (ListServices (codes "ann")) ≡ true }
    ensures services_of_none { is_spelled (ListServices []) ≡ false }
    ensures counts { is_spelled ShowCounts ≡ true }
    ensures show_circuit { is_spelled (ShowCircuit 1) ≡ true }
    ensures show_no_circuit { is_spelled (ShowCircuit 0) ≡ false }
    ensures compact { is_spelled Compact ≡ true }
{}

/// Which sides a role list says: `#all` stands alone, no entry stands twice or refers to an attribute named `all`, and there
/// are at most 64 entries.
pub fn sides()
    ensures everyone { is_side everyone ≡ true }
    ensures nothing { is_side (carrying []) ≡ true }
    ensures all_and_a_name { is_side (record { all = true; ids = codes "ann" ∷ []; attributes = [] }) ≡ false }
    ensures all_and_an_attribute { is_side (record { all = true; ids = []; attributes = codes "a" ∷ [] }) ≡ false }
    ensures attribute_all { is_side (carrying (codes "all" ∷ [])) ≡ false }
    ensures named_all { is_side (only (codes "all")) ≡ true }
    ensures name_and_attribute { is_side (record { all = false; ids = codes "a" ∷ []; attributes = codes "a" ∷ [] }) ≡ true }
    ensures name_twice { is_side (record { all = false; ids = codes "a" ∷ codes "a" ∷ []; attributes = [] }) ≡ false }
    ensures attribute_twice { is_side (carrying (codes "a" ∷ codes "b" ∷ codes "a" ∷ [])) ≡ false }
    ensures bad_name { is_side (only (codes "a b")) ≡ false }
    ensures bad_attribute { is_side (carrying ([] ∷ [])) ≡ false }
    ensures as_many { is_side (carrying names_of_one_byte_but_one) ≡ true }
    ensures too_many { is_side (carrying names_of_one_byte) ≡ false }
    ensures too_many_in_all { is_side (record { all = false; ids = codes "a" ∷ []; attributes = names_of_one_byte_but_one }) ≡ false }
{}

/// Which claims some body spells: at most 255 links, 256 routers, entries and values, and numbers in their ranges.
pub fn ranges_of_claims()
    ensures least { is_spelled (claim_from_r1 [] [] [] 1 0) ≡ true }
    ensures most_links { is_spelled (claim_from_r1 (replicate 255 4294967295) [] [] 1 0) ≡ true }
    ensures too_many_links { is_spelled (claim_from_r1 (replicate 256 1) [] [] 1 0) ≡ false }
    ensures no_link { is_spelled (claim_from_r1 (0 ∷ []) [] [] 1 0) ≡ false }
    ensures most_routers { is_spelled (claim_from_r1 [] [] (replicate 256 1) 1 0) ≡ true }
    ensures too_many_routers { is_spelled (claim_from_r1 [] [] (replicate 257 1) 1 0) ≡ false }
    ensures most_entries { is_spelled (claim_from_r1 [] (replicate 256 (towards 1 [])) [] 1 0) ≡ true }
    ensures too_many_entries { is_spelled (claim_from_r1 [] (replicate 257 (towards 1 [])) [] 1 0) ≡ false }
    ensures most_values { is_spelled (claim_from_r1 [] (towards 1 (replicate 256 no_path) ∷ []) [] 1 0) ≡ true }
    ensures too_many_values { is_spelled (claim_from_r1 [] (towards 1 (replicate 257 0) ∷ []) [] 1 0) ≡ false }
    ensures greatest_value { is_spelled (claim_from_r1 [] (towards 1 (4294967295 ∷ []) ∷ []) [] 1 0) ≡ true }
    ensures above_values { is_spelled (claim_from_r1 [] (towards 1 (4294967296 ∷ []) ∷ []) [] 1 0) ≡ false }
    ensures entry_for_none { is_spelled (claim_from_r1 [] (towards 0 [] ∷ []) [] 1 0) ≡ false }
    ensures no_terminator { is_spelled (claim_from_r1 [] [] [] 0 0) ≡ false }
    ensures greatest_total { is_spelled (claim_from_r1 [] [] [] 1 4294967295) ≡ true }
    ensures above_totals { is_spelled (claim_from_r1 [] [] [] 1 4294967296) ≡ false }
{}

/// The claim of the line's route judged: it holds as it is, and with no part of it changed.
pub fn claims_of_a_line()
    ensures holds { reply_to (claim_from_r1 (1 ∷ 2 ∷ []) (towards 3 (42 ∷ 21 ∷ 0 ∷ []) ∷ []) (1 ∷ 2 ∷ 3 ∷ []) 1 42) line ≡ reply.Verified true }
    ensures higher_total { reply_to (claim_from_r1 (1 ∷ 2 ∷ []) (towards 3 (42 ∷ 21 ∷ 0 ∷ []) ∷ []) (1 ∷ 2 ∷ 3 ∷ []) 1 43) line ≡ reply.Verified false }
    ensures lower_total { reply_to (claim_from_r1 (1 ∷ 2 ∷ []) (towards 3 (42 ∷ 21 ∷ 0 ∷ []) ∷ []) (1 ∷ 2 ∷ 3 ∷ []) 1 41) line ≡ reply.Verified false }
    ensures router_missing { reply_to (claim_from_r1 (1 ∷ 2 ∷ []) (towards 3 (42 ∷ 21 ∷ 0 ∷ []) ∷ []) (1 ∷ 3 ∷ []) 1 42) line ≡ reply.Verified false }
    ensures value_missing { reply_to (claim_from_r1 (1 ∷ 2 ∷ []) (towards 3 (42 ∷ 21 ∷ []) ∷ []) (1 ∷ 2 ∷ 3 ∷ []) 1 42) line ≡ reply.Verified false }
    ensures value_too_many { reply_to (claim_from_r1 (1 ∷ 2 ∷ []) (towards 3 (42 ∷ 21 ∷ 0 ∷ 7 ∷ []) ∷ []) (1 ∷ 2 ∷ 3 ∷ []) 1 42) line ≡ reply.Verified false }
    ensures not_0_at_its_own { reply_to (claim_from_r1 (1 ∷ 2 ∷ []) (towards 3 (43 ∷ 22 ∷ 1 ∷ []) ∷ []) (1 ∷ 2 ∷ 3 ∷ []) 1 43) line ≡ reply.Verified false }
    ensures entry_missing { reply_to (claim_from_r1 (1 ∷ 2 ∷ []) [] (1 ∷ 2 ∷ 3 ∷ []) 1 42) line ≡ reply.Verified false }
    ensures entry_too_many { reply_to (claim_from_r1 (1 ∷ 2 ∷ []) (towards 1 (0 ∷ 21 ∷ 42 ∷ []) ∷ towards 3 (42 ∷ 21 ∷ 0 ∷ []) ∷ []) (1 ∷ 2 ∷ 3 ∷ []) 1 42) line ≡ reply.Verified false }
    ensures link_missing { reply_to (claim_from_r1 (1 ∷ []) (towards 3 (42 ∷ 21 ∷ 0 ∷ []) ∷ []) (1 ∷ 2 ∷ 3 ∷ []) 1 42) line ≡ reply.Verified false }
    ensures other_terminator { reply_to (claim_from_r1 (1 ∷ 2 ∷ []) (towards 3 (42 ∷ 21 ∷ 0 ∷ []) ∷ []) (1 ∷ 2 ∷ 3 ∷ []) 2 42) line ≡ reply.Verified false }
    ensures no_dial { reply_to (claim_on_line (42 ∷ 21 ∷ 0 ∷ [])) (after (DeleteServicePolicy (codes "dial") ∷ []) line) ≡ reply.Verified false }
    ensures ingress_named { reply_to (claim_by_ingress (codes "r1") (codes "r1")) line ≡ reply.Verified true }
    ensures ingress_absent { reply_to (claim_by_ingress (codes "r9") (codes "r1")) line ≡ reply.Verified false }
    ensures chosen_absent { reply_to (claim_by_ingress (codes "r1") (codes "r9")) line ≡ reply.Verified false }
    ensures chosen_is_not_shared { reply_to (VerifyRoute (codes "ann") (codes "web") None [] (codes "r2") (2 ∷ []) (towards 3 (42 ∷ 21 ∷ 0 ∷ []) ∷ []) (1 ∷ 2 ∷ 3 ∷ []) 1 21) line ≡ reply.Verified false }
    ensures loose_link { reply_to (claim_from_r1 (3 ∷ []) (towards 3 (42 ∷ 21 ∷ 0 ∷ []) ∷ []) (1 ∷ 2 ∷ 3 ∷ []) 1 42) (after (CreateLink (codes "l3") (codes "r1") (codes "r3") 60 0 0 ∷ []) line) ≡ reply.Verified false }
    ensures cheaper_link { reply_to (claim_on_line (42 ∷ 21 ∷ 0 ∷ [])) (after (CreateLink (codes "l3") (codes "r1") (codes "r3") 10 0 0 ∷ []) line) ≡ reply.Verified false }
{}

/// Claims beside other terminators and other ingress routers, each with exactly the entries that its explanation would have.
pub fn claims_beside_others()
    ensures nearer_terminator { reply_to (claim_from_r1 (1 ∷ 2 ∷ []) (towards 1 (0 ∷ 21 ∷ 42 ∷ []) ∷ towards 3 (42 ∷ 21 ∷ 0 ∷ []) ∷ []) (1 ∷ 2 ∷ 3 ∷ []) 1 42) (after (offered (codes "web") (codes "r1") 7 Normal ∷ []) line) ≡ reply.Verified false }
    ensures nearest_terminator { reply_to (claim_from_r1 [] (towards 1 (0 ∷ 21 ∷ 42 ∷ []) ∷ towards 3 (42 ∷ 21 ∷ 0 ∷ []) ∷ []) (1 ∷ 2 ∷ 3 ∷ []) 2 7) (after (offered (codes "web") (codes "r1") 7 Normal ∷ []) line) ≡ reply.Verified true }
    ensures same_total { reply_to (claim_on_line (42 ∷ 21 ∷ 0 ∷ [])) (after (offered (codes "web") (codes "r3") 0 Normal ∷ []) line) ≡ reply.Verified true }
    ensures better_precedence { reply_to (claim_from_r1 (1 ∷ 2 ∷ []) (towards 2 (21 ∷ 0 ∷ 21 ∷ []) ∷ towards 3 (42 ∷ 21 ∷ 0 ∷ []) ∷ []) (1 ∷ 2 ∷ 3 ∷ []) 1 42) (after (offered (codes "web") (codes "r2") 50000 Required ∷ []) line) ≡ reply.Verified false }
    ensures worse_precedence { reply_to (claim_on_line (42 ∷ 21 ∷ 0 ∷ [])) (after (offered (codes "web") (codes "r1") 0 Failed ∷ []) line) ≡ reply.Verified true }
    ensures other_instance { reply_to (claim_from_r1 (1 ∷ 2 ∷ []) (towards 3 (42 ∷ 21 ∷ 0 ∷ []) ∷ []) (1 ∷ 2 ∷ 3 ∷ []) 2 42) (after (CreateTerminator (codes "web") (codes "r3") (codes "blue") None 0 Normal ∷ []) line) ≡ reply.Verified false }
    ensures other_ingress { reply_to (claim_on_line (42 ∷ 21 ∷ 0 ∷ [])) line_from_two ≡ reply.Verified false }
    ensures from_the_named_ingress { reply_to (claim_by_ingress (codes "r1") (codes "r1")) line_from_two ≡ reply.Verified true }
    ensures unreached { reply_to (claim_from_r1 (1 ∷ 2 ∷ []) (towards 3 (42 ∷ 21 ∷ 0 ∷ no_path ∷ []) ∷ towards 4 (no_path ∷ no_path ∷ no_path ∷ 0 ∷ []) ∷ []) (1 ∷ 2 ∷ 3 ∷ 4 ∷ []) 3 542) (after (ConnectRouter (codes "r4") ∷ []) line_of_precedences) ≡ reply.Verified true }
    ensures unreached_left_out { reply_to (claim_from_r1 (1 ∷ 2 ∷ []) (towards 3 (42 ∷ 21 ∷ 0 ∷ no_path ∷ []) ∷ []) (1 ∷ 2 ∷ 3 ∷ 4 ∷ []) 3 542) (after (ConnectRouter (codes "r4") ∷ []) line_of_precedences) ≡ reply.Verified false }
    ensures explained { reply_to explain_ann_to_web (after (ConnectRouter (codes "r4") ∷ []) line_of_precedences) ≡ reply.Explained (codes "r1") (record { ingress = record { 0 = 1 }; links = 1 ∷ 2 ∷ []; potentials = towards 3 (42 ∷ 21 ∷ 0 ∷ no_path ∷ []) ∷ towards 4 (no_path ∷ no_path ∷ no_path ∷ 0 ∷ []) ∷ []; routers = 1 ∷ 2 ∷ 3 ∷ 4 ∷ []; terminator = record { 0 = 3 }; total = 542 }) }
    ensures explained_before_it_is_connected { reply_to explain_ann_to_web line_of_precedences ≡ reply.Explained (codes "r1") (record { ingress = record { 0 = 1 }; links = 1 ∷ 2 ∷ []; potentials = towards 3 (42 ∷ 21 ∷ 0 ∷ no_path ∷ []) ∷ []; routers = 1 ∷ 2 ∷ 3 ∷ 4 ∷ []; terminator = record { 0 = 3 }; total = 542 }) }
{}

/// What is shown as granted: Bind and Dial apart, routers by edge-router policies alone, and all four relations in the counts.
pub fn shown_grants()
    ensures host { reply_to (ShowGrants (codes "bob")) hosted_line ≡ reply.Grants (record { name = codes "web"; count = 1 } ∷ []) [] (record { name = codes "r1"; count = 1 } ∷ record { name = codes "r2"; count = 1 } ∷ record { name = codes "r3"; count = 1 } ∷ []) }
    ensures caller { reply_to (ShowGrants (codes "ann")) hosted_line ≡ reply.Grants [] (record { name = codes "web"; count = 1 } ∷ []) (record { name = codes "r1"; count = 1 } ∷ []) }
    ensures bind { count Bind hosted_line 2 1 ≡ 1 }
    ensures no_dial { count Dial hosted_line 2 1 ≡ 0 }
    ensures router { count IdentityRouter line 1 1 ≡ 1 }
    ensures other_router { count IdentityRouter line 1 2 ≡ 0 }
    ensures service_router { count ServiceRouter line 1 2 ≡ 1 }
    ensures listed { reply_to (ListServices (codes "bob")) hosted_line ≡ reply.Services [] }
    ensures counts { reply_to ShowCounts hosted_line ≡ reply.Counts 0 9 2 2 5 3 1 1 }
{}

/// A service or a router that is deleted and made again has another number, and no policy names it any more.
pub fn forgotten_names()
    ensures service_number { reply_to (CreateService (codes "web") []) (after (DeleteService (codes "web") ∷ []) line) ≡ reply.Made 2 }
    ensures service { reply_to (ShowGrants (codes "ann")) (after (DeleteService (codes "web") ∷ CreateService (codes "web") [] ∷ []) line) ≡ reply.Grants [] [] (record { name = codes "r1"; count = 1 } ∷ []) }
    ensures narrow { count ServiceRouter narrow_line 1 2 ≡ 1 }
    ensures narrow_service { count ServiceRouter (after (DeleteService (codes "web") ∷ CreateService (codes "web") [] ∷ []) narrow_line) 2 2 ≡ 0 }
    ensures router_number { reply_to (CreateRouter (codes "r1") [] 0 false) (after (DeleteRouter (codes "r1") ∷ []) line) ≡ reply.Made 4 }
    ensures router { reply_to (ShowGrants (codes "ann")) (after (DeleteRouter (codes "r1") ∷ CreateRouter (codes "r1") [] 0 false ∷ []) line) ≡ reply.Grants [] (record { name = codes "web"; count = 1 } ∷ []) [] }
    ensures narrow_router { count ServiceRouter (after (DeleteRouter (codes "r2") ∷ CreateRouter (codes "r2") [] 0 false ∷ []) narrow_line) 1 4 ≡ 0 }
    ensures policy_number { reply_to (service_policy (codes "dial") Dial everyone everyone) (after (DeleteServicePolicy (codes "dial") ∷ []) line) ≡ reply.Made 2 }
    ensures link_number { reply_to (link_of_eleven (codes "l2") (codes "r1") (codes "r3")) (after (DeleteLink (codes "l2") ∷ []) line) ≡ reply.Made 3 }
    ensures edge_router_policy_number { reply_to (CreateEdgeRouterPolicy (codes "edge") AnyOf everyone everyone) (after (DeleteEdgeRouterPolicy (codes "edge") ∷ []) line) ≡ reply.Made 2 }
    ensures service_edge_router_policy_number { reply_to (CreateServiceEdgeRouterPolicy (codes "all") AnyOf everyone everyone) (after (DeleteServiceEdgeRouterPolicy (codes "all") ∷ []) line) ≡ reply.Made 2 }
    ensures terminator_number { reply_to (offered (codes "web") (codes "r3") 0 Normal) (after (DeleteTerminator 1 ∷ []) line) ≡ reply.Made 2 }
    ensures circuit_number { reply_to ann_to_web (after (ann_to_web ∷ DeleteCircuit 1 ∷ []) line) ≡ reply.Circuit (record { 0 = 2 }) (codes "r1") (1 ∷ 2 ∷ []) (record { 0 = 1 }) 42 }
{}

/// Updates: each replaces what its fields say, and answers that it is done.
pub fn updates()
    ensures done { reply_to (UpdateIdentity (codes "ann") []) two_policies ≡ reply.Done }
    ensures identity { count Dial (after (UpdateIdentity (codes "ann") [] ∷ []) two_policies) 1 1 ≡ 1 }
    ensures service { count Dial (after (UpdateService (codes "web") [] ∷ []) two_policies) 1 1 ≡ 1 }
    ensures type_of_a_policy { reply_to (ShowGrants (codes "ann")) (after (UpdateServicePolicy (codes "dial") Bind AnyOf everyone (only (codes "web")) ∷ []) line) ≡ reply.Grants (record { name = codes "web"; count = 1 } ∷ []) [] (record { name = codes "r1"; count = 1 } ∷ []) }
    ensures semantic { count Dial (after (UpdateServicePolicy (codes "p2") Dial AllOf (carrying (codes "staff" ∷ codes "night" ∷ [])) everyone ∷ []) two_policies) 1 1 ≡ 1 }
    ensures edge_router_policy { reply_to (ShowGrants (codes "ann")) (after (UpdateEdgeRouterPolicy (codes "edge") AnyOf everyone (only (codes "r2")) ∷ []) line) ≡ reply.Grants [] (record { name = codes "web"; count = 1 } ∷ []) (record { name = codes "r2"; count = 1 } ∷ []) }
    ensures service_edge_router_policy { reply_to ann_to_web (after (UpdateServiceEdgeRouterPolicy (codes "all") AnyOf everyone (only (codes "r2")) ∷ []) line) ≡ reply.Refused (refusal.Denied denial.NoSharedRouter) }
    ensures terminator { reply_to ann_to_web (after (UpdateTerminator 1 7 Failed ∷ []) line) ≡ reply.Circuit (record { 0 = 1 }) (codes "r1") (1 ∷ 2 ∷ []) (record { 0 = 1 }) 49 }
    ensures precedence { reply_to ann_to_web (after (offered (codes "web") (codes "r1") 0 Normal ∷ UpdateTerminator 1 7 Required ∷ []) line) ≡ reply.Circuit (record { 0 = 1 }) (codes "r1") (1 ∷ 2 ∷ []) (record { 0 = 1 }) 49 }
    ensures link { reply_to ann_to_web (after (SetLinkCost (codes "l1") 100 ∷ []) line) ≡ reply.Circuit (record { 0 = 1 }) (codes "r1") (1 ∷ 2 ∷ []) (record { 0 = 1 }) 141 }
    ensures router { reply_to ann_to_web (after (UpdateRouter (codes "r2") [] 15 false ∷ []) line) ≡ reply.Circuit (record { 0 = 1 }) (codes "r1") (1 ∷ 2 ∷ []) (record { 0 = 1 }) 47 }
    ensures up_again { reply_to ann_to_web (after (ReportState (codes "l1") (codes "r2") false ∷ ReportState (codes "l1") (codes "r1") true ∷ []) line) ≡ reply.Circuit (record { 0 = 1 }) (codes "r1") (1 ∷ 2 ∷ []) (record { 0 = 1 }) 42 }
    ensures other_end { reply_to ann_to_web (after (ReportLatency (codes "l2") (codes "r2") 9 ∷ ReportLatency (codes "l2") (codes "r3") 1 ∷ []) line) ≡ reply.Circuit (record { 0 = 1 }) (codes "r1") (1 ∷ 2 ∷ []) (record { 0 = 1 }) 42 }
    ensures one_end { at (after (ReportLatency (codes "l1") (codes "r2") 9 ∷ []) line).links.rows 1 ≡ Some (record { name = codes "l1"; a = 1; b = 2; cost = 1; latency_a = 5; latency_b = 9; up = true }) }
    ensures link_gone { reply_to ann_to_web (after (DeleteLink (codes "l1") ∷ []) line) ≡ reply.Refused (refusal.Denied denial.NoPath) }
    ensures circuit_gone { reply_to (ShowCircuit 1) (after (ann_to_web ∷ DeleteCircuit 1 ∷ []) line) ≡ reply.Refused (refusal.Unknown field.No) }
    ensures compact { reply_to Compact line ≡ reply.Done }
    ensures hello { reply_to Hello line ≡ reply.Empty }
{}

/// New records, as they stand: a router is not connected, a link is up, and a terminator keeps its host.
pub fn new_records()
    ensures router { at (after (CreateRouter (codes "r1") (codes "east" ∷ []) 5 true ∷ []) start).routers.rows 1 ≡ Some (record { name = codes "r1"; attributes = codes "east" ∷ []; cost = 5; through = false; connected = false }) }
    ensures link { at (after (CreateLink (codes "l3") (codes "r3") (codes "r1") 7 8 9 ∷ []) line).links.rows 3 ≡ Some (record { name = codes "l3"; a = 3; b = 1; cost = 7; latency_a = 8; latency_b = 9; up = true }) }
    ensures terminator { at hosted_line.terminators.rows 1 ≡ Some (record { service = 1; router = 3; instance = []; host = Some 2; cost = 0; precedence = Normal }) }
    ensures circuit { at (after (ann_to_web ∷ []) line).circuits.rows 1 ≡ Some (record { identity = 1; service = 1; terminator = 1; ingress = 1; links = 1 ∷ 2 ∷ [] }) }
    ensures setting { start.least_router_cost ≡ 10 }
{}

/// Names and numbers that nothing has, each told by the field that gives it, and the first of two.
pub fn unknown_names()
    ensures update_identity { reply_to (UpdateIdentity (codes "bob") []) line ≡ reply.Refused (refusal.Unknown field.Name) }
    ensures update_service { reply_to (UpdateService (codes "tea") []) line ≡ reply.Refused (refusal.Unknown field.Name) }
    ensures delete_service { reply_to (DeleteService (codes "tea")) line ≡ reply.Refused (refusal.Unknown field.Name) }
    ensures update_router { reply_to (UpdateRouter (codes "r9") [] 0 false) line ≡ reply.Refused (refusal.Unknown field.Name) }
    ensures delete_router { reply_to (DeleteRouter (codes "r9")) line ≡ reply.Refused (refusal.Unknown field.Name) }
    ensures connect { reply_to (ConnectRouter (codes "r9")) line ≡ reply.Refused (refusal.Unknown field.Name) }
    ensures disconnect { reply_to (DisconnectRouter (codes "r9")) line ≡ reply.Refused (refusal.Unknown field.Name) }
    ensures update_policy { reply_to (UpdateServicePolicy (codes "edge") Dial AnyOf (only (codes "q")) everyone) line ≡ reply.Refused (refusal.Unknown field.Name) }
    ensures delete_policy { reply_to (DeleteServicePolicy (codes "edge")) line ≡ reply.Refused (refusal.Unknown field.Name) }
    ensures update_edge_router_policy { reply_to (UpdateEdgeRouterPolicy (codes "dial") AnyOf (only (codes "q")) everyone) line ≡ reply.Refused (refusal.Unknown field.Name) }
    ensures delete_edge_router_policy { reply_to (DeleteEdgeRouterPolicy (codes "dial")) line ≡ reply.Refused (refusal.Unknown field.Name) }
    ensures update_service_edge_router_policy { reply_to (UpdateServiceEdgeRouterPolicy (codes "dial") AnyOf (only (codes "q")) everyone) line ≡ reply.Refused (refusal.Unknown field.Name) }
    ensures delete_service_edge_router_policy { reply_to (DeleteServiceEdgeRouterPolicy (codes "dial")) line ≡ reply.Refused (refusal.Unknown field.Name) }
    ensures second_end { reply_to (CreateLink (codes "l9") (codes "r1") (codes "r9") 1 0 0) line ≡ reply.Refused (refusal.Unknown field.B) }
    ensures link_cost { reply_to (SetLinkCost (codes "l9") 1) line ≡ reply.Refused (refusal.Unknown field.Link) }
    ensures link_before_router { reply_to (ReportLatency (codes "l9") (codes "r9") 1) line ≡ reply.Refused (refusal.Unknown field.Link) }
    ensures router_absent { reply_to (ReportState (codes "l1") (codes "r9") false) line ≡ reply.Refused (refusal.Unknown field.Router) }
    ensures no_end { reply_to (ReportState (codes "l1") (codes "r3") false) line ≡ reply.Refused (refusal.Unknown field.Router) }
    ensures delete_link { reply_to (DeleteLink (codes "l9")) line ≡ reply.Refused (refusal.Unknown field.Link) }
    ensures service_before_router { reply_to (CreateTerminator (codes "tea") (codes "r9") [] (Some (codes "eve")) 0 Normal) line ≡ reply.Refused (refusal.Unknown field.Service) }
    ensures router_before_host { reply_to (CreateTerminator (codes "web") (codes "r9") [] (Some (codes "eve")) 0 Normal) line ≡ reply.Refused (refusal.Unknown field.Router) }
    ensures update_terminator { reply_to (UpdateTerminator 2 0 Normal) line ≡ reply.Refused (refusal.Unknown field.No) }
    ensures delete_terminator { reply_to (DeleteTerminator 2) line ≡ reply.Refused (refusal.Unknown field.No) }
    ensures delete_circuit { reply_to (DeleteCircuit 1) line ≡ reply.Refused (refusal.Unknown field.No) }
    ensures show_grants { reply_to (ShowGrants (codes "bob")) line ≡ reply.Refused (refusal.Unknown field.Identity) }
    ensures list_services { reply_to (ListServices (codes "bob")) line ≡ reply.Refused (refusal.Unknown field.Identity) }
{}

/// Names in role lists that are absent: the lists in the order of the fields, the entries in the order sent, after a name that
/// is taken and before a kind that is full.
pub fn absent_in_role_lists()
    ensures left_first { reply_to (service_policy (codes "p") Dial (only (codes "q")) (only (codes "z"))) line ≡ reply.Refused (refusal.UnknownRef field.IdentityRoles (codes "q")) }
    ensures right { reply_to (service_policy (codes "p") Dial (only (codes "ann")) (only (codes "z"))) line ≡ reply.Refused (refusal.UnknownRef field.ServiceRoles (codes "z")) }
    ensures in_the_order_sent { reply_to (service_policy (codes "p") Dial (record { all = false; ids = codes "ann" ∷ codes "q" ∷ codes "b" ∷ []; attributes = [] }) everyone) line ≡ reply.Refused (refusal.UnknownRef field.IdentityRoles (codes "q")) }
    ensures update { reply_to (UpdateServicePolicy (codes "dial") Dial AnyOf everyone (only (codes "z"))) line ≡ reply.Refused (refusal.UnknownRef field.ServiceRoles (codes "z")) }
    ensures edge_left { reply_to (CreateEdgeRouterPolicy (codes "p") AnyOf (only (codes "q")) (only (codes "r9"))) line ≡ reply.Refused (refusal.UnknownRef field.IdentityRoles (codes "q")) }
    ensures edge_right { reply_to (UpdateEdgeRouterPolicy (codes "edge") AnyOf (only (codes "ann")) (only (codes "web"))) line ≡ reply.Refused (refusal.UnknownRef field.RouterRoles (codes "web")) }
    ensures service_edge_left { reply_to (CreateServiceEdgeRouterPolicy (codes "p") AnyOf (only (codes "ann")) (only (codes "r9"))) line ≡ reply.Refused (refusal.UnknownRef field.ServiceRoles (codes "ann")) }
    ensures service_edge_right { reply_to (UpdateServiceEdgeRouterPolicy (codes "all") AnyOf (only (codes "web")) (only (codes "r9"))) line ≡ reply.Refused (refusal.UnknownRef field.RouterRoles (codes "r9")) }
    ensures taken_first { reply_to (service_policy (codes "dial") Dial (only (codes "q")) everyone) line ≡ reply.Refused refusal.Exists }
    ensures before_full { reply_to (service_policy (codes "p") Dial (only (codes "q")) everyone) (record line { service_policies = record line.service_policies { next = 4294967295 } }) ≡ reply.Refused (refusal.UnknownRef field.IdentityRoles (codes "q")) }
{}

/// A kind whose numbers have run out is full, after a name that is taken or absent and before what is tested later.
pub fn full_kinds()
    ensures taken_first { reply_to (CreateIdentity (codes "ann") []) (record line { identities = record line.identities { next = 4294967295 } }) ≡ reply.Refused refusal.Exists }
    ensures service { reply_to (CreateService (codes "tea") []) (record start { services = record start.services { next = 4294967295 } }) ≡ reply.Refused (refusal.Full kind.Service) }
    ensures router { reply_to (CreateRouter (codes "r1") [] 0 false) (record start { routers = record start.routers { next = 4294967295 } }) ≡ reply.Refused (refusal.Full kind.Router) }
    ensures service_policy { reply_to (service_policy (codes "p") Dial everyone everyone) (record start { service_policies = record start.service_policies { next = 4294967295 } }) ≡ reply.Refused (refusal.Full kind.ServicePolicy) }
    ensures edge_router_policy { reply_to (CreateEdgeRouterPolicy (codes "p") AnyOf everyone everyone) (record start { edge_router_policies = record start.edge_router_policies { next = 4294967295 } }) ≡ reply.Refused (refusal.Full kind.EdgeRouterPolicy) }
    ensures service_edge_router_policy { reply_to (CreateServiceEdgeRouterPolicy (codes "p") AnyOf everyone everyone) (record start { service_edge_router_policies = record start.service_edge_router_policies { next = 4294967295 } }) ≡ reply.Refused (refusal.Full kind.ServiceEdgeRouterPolicy) }
    ensures link_before_same_router { reply_to (CreateLink (codes "l9") (codes "r1") (codes "r1") 1 0 0) (record line { links = record line.links { next = 4294967295 } }) ≡ reply.Refused (refusal.Full kind.Link) }
    ensures terminator_before_bind { reply_to (CreateTerminator (codes "web") (codes "r3") [] (Some (codes "ann")) 0 Normal) (record hosted_line { terminators = record hosted_line.terminators { next = 4294967295 } }) ≡ reply.Refused (refusal.Full kind.Terminator) }
    ensures host_before_terminator { reply_to (CreateTerminator (codes "web") (codes "r3") [] (Some (codes "eve")) 0 Normal) (record hosted_line { terminators = record hosted_line.terminators { next = 4294967295 } }) ≡ reply.Refused (refusal.Unknown field.Host) }
{}

/// Of equal totals the first terminator is taken, then the first ingress, and only then the first list of links.
pub fn equal_totals()
    ensures terminator_before_ingress { reply_to ann_to_web two_terminators ≡ reply.Circuit (record { 0 = 1 }) (codes "r2") [] (record { 0 = 1 }) 0 }
    ensures ingress_before_links { reply_to ann_to_web fork ≡ reply.Circuit (record { 0 = 1 }) (codes "r1") (2 ∷ []) (record { 0 = 1 }) 21 }
{}

/// What ends a circuit, and what does not.
pub fn settled_circuits()
    ensures host_gone { reply_to (ShowCircuit 1) (after (ann_to_web ∷ DeleteIdentity (codes "bob") ∷ []) hosted_line) ≡ reply.Refused (refusal.Unknown field.No) }
    ensures terminator_gone { reply_to (ShowCircuit 1) (after (ann_to_web ∷ DeleteTerminator 1 ∷ []) line) ≡ reply.Refused (refusal.Unknown field.No) }
    ensures service_gone { reply_to ShowCounts (after (ann_to_web ∷ DeleteService (codes "web") ∷ []) line) ≡ reply.Counts 0 1 1 2 3 3 0 0 }
    ensures identity_gone { reply_to ShowCounts (after (ann_to_web ∷ DeleteIdentity (codes "ann") ∷ []) line) ≡ reply.Counts 0 3 0 2 3 3 1 1 }
    ensures disconnected { reply_to (ShowCircuit 1) (after (ann_to_web ∷ DisconnectRouter (codes "r2") ∷ ConnectRouter (codes "r2") ∷ []) line) ≡ reply.Refused (refusal.Unknown field.No) }
    ensures link_down { reply_to (ShowCircuit 1) (after (ann_to_web ∷ ReportState (codes "l2") (codes "r3") false ∷ []) line) ≡ reply.Refused (refusal.Unknown field.No) }
    ensures links_of_a_router { reply_to ShowCounts (after (DeleteRouter (codes "r1") ∷ []) line) ≡ reply.Counts 0 3 1 1 3 2 1 1 }
    ensures dearer { reply_to (ShowCircuit 1) (after (ann_to_web ∷ CreateLink (codes "l3") (codes "r1") (codes "r3") 1 0 0 ∷ []) line) ≡ reply.Shown (codes "ann") (codes "r1") (1 ∷ 2 ∷ []) (codes "web") (record { 0 = 1 }) }
    ensures host_without_router { reply_to ann_to_web (after (DeleteEdgeRouterPolicy (codes "bobs") ∷ []) hosted_line) ≡ reply.Refused (refusal.Denied denial.NoAdmissibleTerminator) }
{}

/// A circuit whose links fail while its ends stand goes over the least path, and stays there when its old links serve again; where it
/// has no path it ends.
pub fn circuits_that_go_another_way()
    ensures past_a_closed_router { reply_to (ShowCircuit 1) (after (UpdateRouter (codes "r2") [] 0 true ∷ []) detoured) ≡ reply.Shown (codes "ann") (codes "r1") (3 ∷ []) (codes "web") (record { 0 = 1 }) }
    ensures stays_there { reply_to (ShowCircuit 1) (after (UpdateRouter (codes "r2") [] 0 true ∷ UpdateRouter (codes "r2") [] 0 false ∷ []) detoured) ≡ reply.Shown (codes "ann") (codes "r1") (3 ∷ []) (codes "web") (record { 0 = 1 }) }
    ensures and_back { reply_to (ShowCircuit 1) (after (UpdateRouter (codes "r2") [] 0 true ∷ UpdateRouter (codes "r2") [] 0 false ∷ DeleteLink (codes "l3") ∷ []) detoured)
        ≡ reply.Shown (codes "ann") (codes "r1") (1 ∷ 2 ∷ []) (codes "web") (record { 0 = 1 }) }
    ensures no_way_left { reply_to (ShowCircuit 1) (after (UpdateRouter (codes "r2") [] 0 true ∷ DeleteLink (codes "l3") ∷ []) detoured) ≡ reply.Refused (refusal.Unknown field.No) }
    ensures ingress_off { reply_to (ShowCircuit 1) (after (DisconnectRouter (codes "r1") ∷ ConnectRouter (codes "r1") ∷ []) detoured) ≡ reply.Refused (refusal.Unknown field.No) }
{}

/// Whether a circuit of the line stays, said of a network and the present identities and services: each of the two must be
/// present under its own number, and the terminator too, and the links must still be a path.
pub fn circuits_that_stay()
    ensures stays { circuit_stays (network_of line) (1 ∷ 3 ∷ []) (1 ∷ 2 ∷ []) (7, record { identity = 3; service = 2; terminator = 1; ingress = 1; links = 1 ∷ 2 ∷ [] }) ≡ true }
    ensures identity_gone { circuit_stays (network_of line) (1 ∷ 2 ∷ []) (2 ∷ 3 ∷ []) (7, record { identity = 3; service = 2; terminator = 1; ingress = 1; links = 1 ∷ 2 ∷ [] }) ≡ false }
    ensures service_gone { circuit_stays (network_of line) (2 ∷ 3 ∷ []) (1 ∷ 3 ∷ []) (7, record { identity = 3; service = 2; terminator = 1; ingress = 1; links = 1 ∷ 2 ∷ [] }) ≡ false }
    ensures terminator_gone { circuit_stays (network_of line) (3 ∷ []) (2 ∷ []) (7, record { identity = 3; service = 2; terminator = 2; ingress = 1; links = 1 ∷ 2 ∷ [] }) ≡ false }
    ensures no_path { circuit_stays (network_of line) (3 ∷ []) (2 ∷ []) (7, record { identity = 3; service = 2; terminator = 1; ingress = 1; links = 2 ∷ 1 ∷ [] }) ≡ false }
{}

/// Who may send what: each command that a router or an identity may send at all, for itself and for another.
pub fn own_and_others()
    ensures hello { is_permitted (Router (codes "r1")) Hello ≡ true }
    ensures hello_too { is_permitted (Identity (codes "ann")) Hello ≡ true }
    ensures connect { is_permitted (Router (codes "r1")) (ConnectRouter (codes "r1")) ≡ true }
    ensures connect_other { is_permitted (Router (codes "r1")) (ConnectRouter (codes "r2")) ≡ false }
    ensures disconnect { is_permitted (Router (codes "r1")) (DisconnectRouter (codes "r1")) ≡ true }
    ensures disconnect_other { is_permitted (Router (codes "r1")) (DisconnectRouter (codes "r2")) ≡ false }
    ensures latency_of_another { is_permitted (Router (codes "r1")) (ReportLatency (codes "r1") (codes "r2") 3) ≡ false }
    ensures state { is_permitted (Router (codes "r1")) (ReportState (codes "l1") (codes "r1") true) ≡ true }
    ensures state_of_another { is_permitted (Router (codes "r1")) (ReportState (codes "r1") (codes "r2") true) ≡ false }
    ensures offered_elsewhere { is_permitted (Router (codes "r3")) (offered (codes "r3") (codes "r2") 0 Normal) ≡ false }
    ensures identity_of_a_routers_name { is_permitted (Identity (codes "r3")) (offered (codes "web") (codes "r3") 0 Normal) ≡ false }
    ensures hosted_by_another { is_permitted (Identity (codes "ann")) (CreateTerminator (codes "web") (codes "r3") [] (Some (codes "bob")) 0 Normal) ≡ false }
    ensures explain { is_permitted (Identity (codes "ann")) explain_ann_to_web ≡ true }
    ensures explain_other { is_permitted (Identity (codes "bob")) explain_ann_to_web ≡ false }
    ensures router_asks { is_permitted (Router (codes "ann")) ann_to_web ≡ false }
    ensures grants { is_permitted (Identity (codes "ann")) (ShowGrants (codes "ann")) ≡ true }
    ensures grants_of_another { is_permitted (Identity (codes "ann")) (ShowGrants (codes "bob")) ≡ false }
    ensures services { is_permitted (Identity (codes "ann")) (ListServices (codes "ann")) ≡ true }
    ensures services_of_another { is_permitted (Identity (codes "ann")) (ListServices (codes "bob")) ≡ false }
    ensures verify { is_permitted (Identity (codes "ann")) (claim_on_line []) ≡ false }
    ensures counts { is_permitted (Identity (codes "ann")) ShowCounts ≡ false }
    ensures circuit { is_permitted (Identity (codes "ann")) (ShowCircuit 1) ≡ false }
    ensures delete_circuit { is_permitted (Identity (codes "ann")) (DeleteCircuit 1) ≡ false }
    ensures compact { is_permitted (Router (codes "r1")) Compact ≡ false }
    ensures link_cost { is_permitted (Router (codes "r1")) (SetLinkCost (codes "r1") 1) ≡ false }
    ensures update_itself { is_permitted (Router (codes "r1")) (UpdateRouter (codes "r1") [] 0 false) ≡ false }
    ensures identity_itself { is_permitted (Identity (codes "ann")) (UpdateIdentity (codes "ann") []) ≡ false }
{}

/// The limits of kinds: with one record fewer there is room, at the limit there is none.
pub fn limits_of_kinds()
    ensures no_more_identities { refusal_of_create kind.Identity (entity (codes "b") []) (record start { identities = record start.identities { rows = replicate 2048 (1, record { name = codes "a"; attributes = [] }) } }) ≡ Some (refusal.Full kind.Identity) }
    ensures one_more_identity { refusal_of_create kind.Identity (entity (codes "b") []) (record start { identities = record start.identities { rows = replicate 2047 (1, record { name = codes "a"; attributes = [] }) } }) ≡ None }
    ensures no_more_services { refusal_of_create kind.Service (entity (codes "b") []) (record start { services = record start.services { rows = replicate 512 (1, record { name = codes "a"; attributes = [] }) } }) ≡ Some (refusal.Full kind.Service) }
    ensures one_more_service { refusal_of_create kind.Service (entity (codes "b") []) (record start { services = record start.services { rows = replicate 511 (1, record { name = codes "a"; attributes = [] }) } }) ≡ None }
    ensures no_more_routers { refusal_of_create kind.Router (new_router (codes "b") [] 0 false) (record start { routers = record start.routers { rows = replicate 256 (1, record { name = codes "a"; attributes = []; cost = 0; through = true; connected = false }) } }) ≡ Some (refusal.Full kind.Router) }
    ensures one_more_router { refusal_of_create kind.Router (new_router (codes "b") [] 0 false) (record start { routers = record start.routers { rows = replicate 255 (1, record { name = codes "a"; attributes = []; cost = 0; through = true; connected = false }) } }) ≡ None }
    ensures no_more_service_policies { refusal_of_create kind.ServicePolicy (record { name = codes "b"; relation = Dial; semantic = AnyOf; left = everyone; right = everyone }) (record start { service_policies = record start.service_policies { rows = replicate 512 (1, record { name = codes "a"; relation = Dial; semantic = AnyOf; left = carrying []; right = carrying [] }) } }) ≡ Some (refusal.Full kind.ServicePolicy) }
    ensures one_more_service_policy { refusal_of_create kind.ServicePolicy (record { name = codes "b"; relation = Dial; semantic = AnyOf; left = everyone; right = everyone }) (record start { service_policies = record start.service_policies { rows = replicate 511 (1, record { name = codes "a"; relation = Dial; semantic = AnyOf; left = carrying []; right = carrying [] }) } }) ≡ None }
    ensures no_more_edge_router_policies { refusal_of_create kind.EdgeRouterPolicy (record { name = codes "b"; relation = Dial; semantic = AnyOf; left = everyone; right = everyone }) (record start { edge_router_policies = record start.edge_router_policies { rows = replicate 256 (1, record { name = codes "a"; relation = Dial; semantic = AnyOf; left = carrying []; right = carrying [] }) } }) ≡ Some (refusal.Full kind.EdgeRouterPolicy) }
    ensures one_more_edge_router_policy { refusal_of_create kind.EdgeRouterPolicy (record { name = codes "b"; relation = Dial; semantic = AnyOf; left = everyone; right = everyone }) (record start { edge_router_policies = record start.edge_router_policies { rows = replicate 255 (1, record { name = codes "a"; relation = Dial; semantic = AnyOf; left = carrying []; right = carrying [] }) } }) ≡ None }
    ensures no_more_service_edge_router_policies { refusal_of_create kind.ServiceEdgeRouterPolicy (record { name = codes "b"; relation = Dial; semantic = AnyOf; left = everyone; right = everyone }) (record start { service_edge_router_policies = record start.service_edge_router_policies { rows = replicate 256 (1, record { name = codes "a"; relation = Dial; semantic = AnyOf; left = carrying []; right = carrying [] }) } }) ≡ Some (refusal.Full kind.ServiceEdgeRouterPolicy) }
    ensures one_more_service_edge_router_policy { refusal_of_create kind.ServiceEdgeRouterPolicy (record { name = codes "b"; relation = Dial; semantic = AnyOf; left = everyone; right = everyone }) (record start { service_edge_router_policies = record start.service_edge_router_policies { rows = replicate 255 (1, record { name = codes "a"; relation = Dial; semantic = AnyOf; left = carrying []; right = carrying [] }) } }) ≡ None }
    ensures no_more_links { refusal_of_create_link (codes "b") (codes "r1") (codes "r2") (record line { links = record line.links { rows = replicate 4096 (1, record { name = codes "a"; a = 1; b = 2; cost = 1; latency_a = 0; latency_b = 0; up = true }) } }) ≡ Some (refusal.Full kind.Link) }
    ensures one_more_link { refusal_of_create_link (codes "b") (codes "r1") (codes "r2") (record line { links = record line.links { rows = replicate 4095 (1, record { name = codes "a"; a = 1; b = 2; cost = 1; latency_a = 0; latency_b = 0; up = true }) } }) ≡ None }
    ensures no_more_terminators { refusal_of_create_terminator (codes "web") (codes "r1") None (record line { terminators = record line.terminators { rows = replicate 4096 (1, record { service = 1; router = 1; instance = []; host = None; cost = 0; precedence = Normal }) } }) ≡ Some (refusal.Full kind.Terminator) }
    ensures one_more_terminator { refusal_of_create_terminator (codes "web") (codes "r1") None (record line { terminators = record line.terminators { rows = replicate 4095 (1, record { service = 1; router = 1; instance = []; host = None; cost = 0; precedence = Normal }) } }) ≡ None }
    ensures circuits { circuits_full (record start { circuits = record start.circuits { rows = replicate 16383 (1, record { identity = 1; service = 1; terminator = 1; ingress = 1; links = [] }) } }) ≡ false }
    ensures no_more_circuits { circuits_full (record start { circuits = record start.circuits { rows = replicate 16384 (1, record { identity = 1; service = 1; terminator = 1; ingress = 1; links = [] }) } }) ≡ true }
{}

/// At most 4,096 attributes are in use, each counted once however often it is used: one more is refused, after a kind that is full;
/// one that is in use already may be used again; and an update may put another in the place of one.
pub fn limit_of_attributes()
    ensures one_more { reply_to (CreateService (codes "web") (codes "a" ∷ [])) (record start { identities = record { rows = (1, record { name = codes "a"; attributes = names_of_two_bytes }) ∷ []; next = 2 } }) ≡ reply.Refused (refusal.Full kind.Attribute) }
    ensures used_twice { reply_to (CreateService (codes "web") (codes "AA" ∷ [])) (record start { identities = record { rows = (1, record { name = codes "a"; attributes = names_of_two_bytes }) ∷ []; next = 2 } }) ≡ reply.Made 1 }
    ensures another { reply_to (UpdateIdentity (codes "a") (codes "a" ∷ drop 1 names_of_two_bytes)) (record start { identities = record { rows = (1, record { name = codes "a"; attributes = names_of_two_bytes }) ∷ []; next = 2 } }) ≡ reply.Done }
    ensures kind_first { reply_to (CreateService (codes "web") (codes "a" ∷ [])) (record start { identities = record { rows = (1, record { name = codes "a"; attributes = names_of_two_bytes }) ∷ []; next = 2 }; services = record start.services { next = 4294967295 } }) ≡ reply.Refused (refusal.Full kind.Service) }
{}
