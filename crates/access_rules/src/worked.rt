ghost use Rattle.std.specs.Prelude.{◌≡◌, [], ◌∷◌, codes, true, false, None, Some};
ghost use Rattle.ctrl_model.specs.declared.addresses.Address.TheVariants.{Host};
ghost use Rattle.ctrl_model.specs.declared.commands.Command.TheVariants as command;
ghost use Rattle.ctrl_model.specs.declared.kinds.Precedence.TheVariants.{Normal};
ghost use Rattle.ctrl_model.specs.declared.kinds.Who.TheVariants as who;
ghost use Rattle.ctrl_model.specs.Permitted.{is_permitted};

/// Every session may say Hello, and an admin session may send what no other may.
pub fn worked_everyone()
    ensures router_hello { is_permitted (who.Router (codes "r1")) command.Hello ≡ true }
    ensures identity_hello { is_permitted (who.Identity (codes "ann")) command.Hello ≡ true }
    ensures admin_hello { is_permitted who.Admin command.Hello ≡ true }
    ensures admin_makes { is_permitted who.Admin (command.CreateIdentity (codes "ann") []) ≡ true }
    ensures admin_connects { is_permitted who.Admin (command.ConnectRouter (codes "r1")) ≡ true }
    ensures admin_asks { is_permitted who.Admin (command.CreateCircuit (codes "ann") (codes "web") None []) ≡ true }
    ensures admin_hosts { is_permitted who.Admin (command.CreateTerminator (codes "web") (codes "r1") [] (Some (codes "bob")) 0 Normal) ≡ true }
    ensures admin_shows { is_permitted who.Admin (command.ShowGrants (codes "ann")) ≡ true }
    ensures admin_compacts { is_permitted who.Admin command.Compact ≡ true }
{}

/// A router session sends what concerns the router of its name alone, and names of identities are nothing to it.
pub fn worked_routers()
    ensures itself { is_permitted (who.Router (codes "r1")) (command.ConnectRouter (codes "r1")) ≡ true }
    ensures another { is_permitted (who.Router (codes "r1")) (command.ConnectRouter (codes "r2")) ≡ false }
    ensures longer { is_permitted (who.Router (codes "r1")) (command.ConnectRouter (codes "r10")) ≡ false }
    ensures disconnects { is_permitted (who.Router (codes "r1")) (command.DisconnectRouter (codes "r1")) ≡ true }
    ensures disconnects_another { is_permitted (who.Router (codes "r1")) (command.DisconnectRouter (codes "r2")) ≡ false }
    ensures reports { is_permitted (who.Router (codes "r1")) (command.ReportLatency (codes "l1") (codes "r1") 7) ≡ true }
    ensures reports_for_another { is_permitted (who.Router (codes "r1")) (command.ReportLatency (codes "r1") (codes "r2") 7) ≡ false }
    ensures marks { is_permitted (who.Router (codes "r1")) (command.ReportState (codes "l1") (codes "r1") false) ≡ true }
    ensures marks_for_another { is_permitted (who.Router (codes "r1")) (command.ReportState (codes "r1") (codes "r2") false) ≡ false }
    ensures asks { is_permitted (who.Router (codes "r1")) (command.CreateCircuit (codes "r1") (codes "web") None []) ≡ false }
    ensures shows { is_permitted (who.Router (codes "r1")) (command.ShowGrants (codes "r1")) ≡ false }
    ensures changes { is_permitted (who.Router (codes "r1")) (command.UpdateRouter (codes "r1") [] 0 false) ≡ false }
{}

/// An identity session sends what concerns the identity of its name alone.
pub fn worked_identities()
    ensures itself { is_permitted (who.Identity (codes "ann")) (command.CreateCircuit (codes "ann") (codes "web") None []) ≡ true }
    ensures another { is_permitted (who.Identity (codes "ann")) (command.CreateCircuit (codes "bob") (codes "web") None []) ≡ false }
    ensures explained { is_permitted (who.Identity (codes "ann")) (command.Explain (codes "ann") (codes "web") (Some (codes "r1")) []) ≡ true }
    ensures another_explained { is_permitted (who.Identity (codes "ann")) (command.Explain (codes "bob") (codes "ann") None []) ≡ false }
    ensures grants { is_permitted (who.Identity (codes "ann")) (command.ShowGrants (codes "ann")) ≡ true }
    ensures grants_of_another { is_permitted (who.Identity (codes "ann")) (command.ShowGrants (codes "bob")) ≡ false }
    ensures services { is_permitted (who.Identity (codes "ann")) (command.ListServices (codes "ann")) ≡ true }
    ensures services_of_another { is_permitted (who.Identity (codes "ann")) (command.ListServices (codes "bob")) ≡ false }
    ensures picks { is_permitted (who.Identity (codes "ann")) (command.Pick (codes "ann") false (Host (codes "web")) 443) ≡ true }
    ensures picks_of_another { is_permitted (who.Identity (codes "ann")) (command.Pick (codes "bob") true (Host (codes "ann")) 443) ≡ false }
    ensures clashes { is_permitted (who.Identity (codes "ann")) (command.ListClashes (codes "ann") (codes "web")) ≡ true }
    ensures clashes_of_another { is_permitted (who.Identity (codes "ann")) (command.ListClashes (codes "bob") (codes "ann")) ≡ false }
    ensures connects { is_permitted (who.Identity (codes "r1")) (command.ConnectRouter (codes "r1")) ≡ false }
    ensures changes { is_permitted (who.Identity (codes "ann")) (command.UpdateIdentity (codes "ann") []) ≡ false }
{}

/// A terminator without a host is the router's to make, and one with a host the host's.
pub fn worked_hosts()
    ensures router { is_permitted (who.Router (codes "r1")) (command.CreateTerminator (codes "web") (codes "r1") [] None 0 Normal) ≡ true }
    ensures another_router { is_permitted (who.Router (codes "r1")) (command.CreateTerminator (codes "web") (codes "r2") [] None 0 Normal) ≡ false }
    ensures hosted { is_permitted (who.Router (codes "r1")) (command.CreateTerminator (codes "web") (codes "r1") [] (Some (codes "bob")) 0 Normal) ≡ false }
    ensures host_of_its_name { is_permitted (who.Router (codes "r1")) (command.CreateTerminator (codes "web") (codes "r1") [] (Some (codes "r1")) 0 Normal) ≡ false }
    ensures host { is_permitted (who.Identity (codes "bob")) (command.CreateTerminator (codes "web") (codes "r1") [] (Some (codes "bob")) 0 Normal) ≡ true }
    ensures another_host { is_permitted (who.Identity (codes "ann")) (command.CreateTerminator (codes "web") (codes "r1") [] (Some (codes "bob")) 0 Normal) ≡ false }
    ensures no_host { is_permitted (who.Identity (codes "r1")) (command.CreateTerminator (codes "web") (codes "r1") [] None 0 Normal) ≡ false }
{}

/// What an admin session alone may send.
pub fn worked_others()
    ensures verifies { is_permitted (who.Identity (codes "ann")) (command.VerifyRoute (codes "ann") (codes "web") None [] (codes "r1") [] [] [] 1 0) ≡ false }
    ensures shows_a_circuit { is_permitted (who.Identity (codes "ann")) (command.ShowCircuit 1) ≡ false }
    ensures ends_a_circuit { is_permitted (who.Identity (codes "ann")) (command.DeleteCircuit 1) ≡ false }
    ensures counts { is_permitted (who.Identity (codes "ann")) command.ShowCounts ≡ false }
    ensures router_counts { is_permitted (who.Router (codes "r1")) command.ShowCounts ≡ false }
    ensures compacts { is_permitted (who.Router (codes "r1")) command.Compact ≡ false }
    ensures link_cost { is_permitted (who.Router (codes "r1")) (command.SetLinkCost (codes "l1") 1) ≡ false }
    ensures clears_an_intercept { is_permitted (who.Identity (codes "web")) (command.ClearIntercept (codes "web")) ≡ false }
    ensures router_picks { is_permitted (who.Router (codes "ann")) (command.Pick (codes "ann") false (Host (codes "web")) 443) ≡ false }
    ensures takes_away { is_permitted (who.Router (codes "r1")) (command.DeleteTerminator 1) ≡ false }
{}
