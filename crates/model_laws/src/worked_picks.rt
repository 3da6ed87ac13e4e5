ghost use Rattle.std.specs.Prelude.{◌≡◌, ◌∷◌, None, Some, [], true, false, codes};
ghost use Rattle.ctrl_model.specs.declared.addresses.Address.TheVariants.{Host, Under, Range};
ghost use Rattle.ctrl_model.specs.declared.commands.Command.TheVariants.{SetIntercept, ClearIntercept, Pick, ListClashes, DeleteService, DeleteServicePolicy, ShowCounts};
ghost use Rattle.ctrl_model.specs.declared.kinds.Who.TheVariants.{Admin, Identity, Router};
ghost use Rattle.ctrl_model.specs.declared.refusals.Field.TheVariants as field;
ghost use Rattle.ctrl_model.specs.declared.refusals.Refusal.TheVariants as refusal;
ghost use Rattle.ctrl_model.specs.declared.replies.Reply.TheVariants as reply;
ghost use Rattle.ctrl_model.specs.SpelledCommands.{is_spelled};
ghost use Rattle.ctrl_model.specs.InterceptCommands.{is_intercept_command};
ghost use Rattle.ctrl_model.specs.Numbered.{numbers};
ghost use Rattle.ctrl_model.specs.Permitted.{is_permitted};
ghost use Rattle.ctrl_model.specs.WorkedStates.{after, reply_to, ungranted};
ghost use Rattle.model_laws.specs.WorkedIntercepts.{ports, over_tcp, over_udp, web_and_api, both_under, with_hosts, with_networks};

/// An intercept is set under the number of its service, in the place of the one that it has; it is taken away, and goes with the
/// service.
pub fn set_intercepts()
    ensures by_number { with_hosts.intercepts ≡ web_and_api }
    ensures replaced { (after (SetIntercept (codes "api") (over_tcp (Under (codes "example.org") ∷ []) (ports 443 443 ∷ [])) ∷ []) with_hosts).intercepts ≡ both_under }
    ensures done { reply_to (SetIntercept (codes "api") (over_udp (Host (codes "a") ∷ []) (ports 1 1 ∷ []))) with_hosts ≡ reply.Done }
    ensures of_no_service { reply_to (SetIntercept (codes "tea") (over_udp (Host (codes "a") ∷ []) (ports 1 1 ∷ []))) with_hosts ≡ reply.Refused (refusal.Unknown field.Service) }
    ensures cleared { (after (ClearIntercept (codes "web") ∷ []) with_hosts).intercepts ≡ (2, over_tcp (Host (codes "api.example.org") ∷ []) (ports 1 65535 ∷ [])) ∷ [] }
    ensures cleared_again { reply_to (ClearIntercept (codes "web")) (after (ClearIntercept (codes "web") ∷ []) with_hosts) ≡ reply.Done }
    ensures cleared_of_none { reply_to (ClearIntercept (codes "tea")) with_hosts ≡ reply.Refused (refusal.Unknown field.Service) }
    ensures deleted { numbers (after (DeleteService (codes "web") ∷ []) with_hosts).intercepts ≡ 2 ∷ [] }
    ensures revokes { (after (SetIntercept (codes "web") (over_tcp (Host (codes "a") ∷ []) (ports 1 1 ∷ [])) ∷ []) ungranted).circuits.rows ≡ [] }
{}

/// Which service a destination belongs to: the nearest address, of the services that the identity may dial.
pub fn picked_services()
    ensures nearest { reply_to (Pick (codes "ann") false (Host (codes "api.example.org")) 443) with_hosts ≡ reply.Picked (codes "api.example.org") 1 65535 (codes "api") }
    ensures under { reply_to (Pick (codes "ann") false (Host (codes "www.example.org")) 443) with_hosts ≡ reply.Picked (codes "*.example.org") 443 443 (codes "web") }
    ensures not_itself { reply_to (Pick (codes "ann") false (Host (codes "example.org")) 443) with_hosts ≡ reply.Refused refusal.NoIntercept }
    ensures other_protocol { reply_to (Pick (codes "ann") true (Host (codes "api.example.org")) 443) with_hosts ≡ reply.Refused refusal.NoIntercept }
    ensures of_no_identity { reply_to (Pick (codes "bob") false (Host (codes "api.example.org")) 443) with_hosts ≡ reply.Refused (refusal.Unknown field.Identity) }
    ensures more_bits { reply_to (Pick (codes "ann") false (Range 167838211 32) 22) with_networks ≡ reply.Picked (codes "10.1.0.0/16") 22 22 (codes "api") }
    ensures outside { reply_to (Pick (codes "ann") false (Range 167903233 32) 22) with_networks ≡ reply.Picked (codes "10.0.0.0/8") 22 22 (codes "web") }
    ensures not_dialled { reply_to (Pick (codes "ann") false (Range 167838211 32) 22) (after (DeleteServicePolicy (codes "d2") ∷ []) with_networks) ≡ reply.Picked (codes "10.0.0.0/8") 22 22 (codes "web") }
    ensures deleted { reply_to (Pick (codes "ann") false (Range 167903233 32) 22) (after (DeleteService (codes "web") ∷ []) with_networks) ≡ reply.Refused refusal.NoIntercept }
    ensures stays { (after (Pick (codes "ann") false (Host (codes "api.example.org")) 443 ∷ []) with_hosts).intercepts ≡ web_and_api }
{}

/// Which services clash with one, by their names.
pub fn listed_clashes()
    ensures apart { reply_to (ListClashes (codes "ann") (codes "web")) with_hosts ≡ reply.Clashes [] }
    ensures same { reply_to (ListClashes (codes "ann") (codes "web")) (after (SetIntercept (codes "api") (over_tcp (Under (codes "example.org") ∷ []) (ports 443 443 ∷ [])) ∷ []) with_hosts) ≡ reply.Clashes (codes "api" ∷ []) }
    ensures back { reply_to (ListClashes (codes "ann") (codes "api")) (after (SetIntercept (codes "api") (over_tcp (Under (codes "example.org") ∷ []) (ports 443 443 ∷ [])) ∷ []) with_hosts) ≡ reply.Clashes (codes "web" ∷ []) }
    ensures not_dialled { reply_to (ListClashes (codes "ann") (codes "web")) (after (SetIntercept (codes "api") (over_tcp (Under (codes "example.org") ∷ []) (ports 443 443 ∷ [])) ∷ DeleteServicePolicy (codes "d1") ∷ []) with_hosts) ≡ reply.Clashes [] }
    ensures of_no_identity { reply_to (ListClashes (codes "bob") (codes "tea")) with_hosts ≡ reply.Refused (refusal.Unknown field.Identity) }
    ensures of_no_service { reply_to (ListClashes (codes "ann") (codes "tea")) with_hosts ≡ reply.Refused (refusal.Unknown field.Service) }
{}

/// Which of the commands on intercepts some body spells. A destination is one place: a host, or one address of four numbers.
pub fn spelled_intercept_commands()
    ensures set { is_spelled (SetIntercept (codes "web") (over_tcp (Under (codes "example.org") ∷ []) (ports 443 443 ∷ []))) ≡ true }
    ensures set_of_none { is_spelled (SetIntercept [] (over_tcp (Under (codes "example.org") ∷ []) (ports 443 443 ∷ []))) ≡ false }
    ensures set_nothing { is_spelled (SetIntercept (codes "web") (over_tcp [] (ports 443 443 ∷ []))) ≡ false }
    ensures clear { is_spelled (ClearIntercept (codes "web")) ≡ true }
    ensures clear_of_none { is_spelled (ClearIntercept []) ≡ false }
    ensures host { is_spelled (Pick (codes "ann") false (Host (codes "api.example.org")) 65535) ≡ true }
    ensures one_address { is_spelled (Pick (codes "ann") true (Range 167838211 32) 1) ≡ true }
    ensures network { is_spelled (Pick (codes "ann") true (Range 167837696 16) 1) ≡ false }
    ensures many_hosts { is_spelled (Pick (codes "ann") true (Under (codes "example.org")) 1) ≡ false }
    ensures capital { is_spelled (Pick (codes "ann") true (Host (codes "Web")) 1) ≡ false }
    ensures port_0 { is_spelled (Pick (codes "ann") false (Host (codes "a")) 0) ≡ false }
    ensures port_past { is_spelled (Pick (codes "ann") false (Host (codes "a")) 65536) ≡ false }
    ensures pick_of_none { is_spelled (Pick [] false (Host (codes "a")) 1) ≡ false }
    ensures list { is_spelled (ListClashes (codes "ann") (codes "web")) ≡ true }
    ensures list_of_none { is_spelled (ListClashes [] (codes "web")) ≡ false }
    ensures list_nothing { is_spelled (ListClashes (codes "ann") []) ≡ false }
{}

/// Which commands are on intercepts, and who may send them: an admin each, and an identity those that tell of its own services.
pub fn commands_on_intercepts()
    ensures set { is_intercept_command (SetIntercept (codes "web") (over_tcp [] [])) ≡ true }
    ensures clear { is_intercept_command (ClearIntercept (codes "web")) ≡ true }
    ensures pick { is_intercept_command (Pick (codes "ann") false (Host (codes "a")) 1) ≡ true }
    ensures list { is_intercept_command (ListClashes (codes "ann") (codes "web")) ≡ true }
    ensures another { is_intercept_command ShowCounts ≡ false }
    ensures own_pick { is_permitted (Identity (codes "ann")) (Pick (codes "ann") false (Host (codes "a")) 1) ≡ true }
    ensures other_pick { is_permitted (Identity (codes "bob")) (Pick (codes "ann") false (Host (codes "a")) 1) ≡ false }
    ensures own_list { is_permitted (Identity (codes "ann")) (ListClashes (codes "ann") (codes "web")) ≡ true }
    ensures other_list { is_permitted (Identity (codes "bob")) (ListClashes (codes "ann") (codes "web")) ≡ false }
    ensures router_picks { is_permitted (Router (codes "ann")) (Pick (codes "ann") false (Host (codes "a")) 1) ≡ false }
    ensures identity_sets { is_permitted (Identity (codes "web")) (SetIntercept (codes "web") (over_tcp [] [])) ≡ false }
    ensures identity_clears { is_permitted (Identity (codes "web")) (ClearIntercept (codes "web")) ≡ false }
    ensures admin_sets { is_permitted Admin (SetIntercept (codes "web") (over_tcp [] [])) ≡ true }
{}
