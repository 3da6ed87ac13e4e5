ghost use Rattle.std.specs.Prelude.{◌≡◌, ◌∷◌, [], codes, true, false, Some, None, Ok, Err};
ghost use Rattle.ctrl_model.specs.Networks.{hops};
ghost use Rattle.ctrl_model.specs.Numbered.{at, numbers};
ghost use Rattle.path_certificate.specs.WorkedGraphs.{row_steps};
ghost use Rattle.fabric_graph.specs.declared.fabric.FabricFault.TheVariants.{Exists, Unknown, SameRouter, Full};
ghost use Rattle.fabric_graph.specs.declared.changes.LinkChange.TheVariants.{Add, Set, Remove, SetLeast};
ghost use Rattle.fabric_graph.specs.FabricChanges.{fabric_after};
ghost use Rattle.fabric_graph.specs.FabricTables.{no_links, with_link, with_set, without_link, with_least, with_next};
ghost use Rattle.fabric_graph.specs.FabricRules.{may_add, found, is_there};
ghost use Rattle.fabric_graph.specs.Routers.{AreRouters, network, number_at, costs_at_most};
ghost use Rattle.fabric_graph.specs.WorkedFabrics.{link_of_eleven, line, three_routers, second_away, two_routers, steps_over};

/// The links l1 and l2 are the links 1 and 2. Whether a link may be added is told in the order of the rules, and the number of a
/// removed link is not given again.
pub fn links_and_numbers()
    ensures first { no_links.links.next ≡ 1 }
    ensures third { line.links.next ≡ 3 }
    ensures found { found (codes "l2") line ≡ Ok (record { 0 = 2 }) }
    ensures unknown { found (codes "l3") line ≡ Err Unknown }
    ensures may { may_add (codes "l3") 1 3 line ≡ Ok tt }
    ensures taken { may_add (codes "l1") 1 1 (with_next 4294967295 line) ≡ Err Exists }
    ensures full { may_add (codes "l3") 1 1 (with_next 4294967295 line) ≡ Err Full }
    ensures last { may_add (codes "l3") 1 3 (with_next 4294967294 line) ≡ Ok tt }
    ensures same { may_add (codes "l3") 1 1 line ≡ Err SameRouter }
    ensures set { at (with_set 2 7 0 9 false line).links.rows 2 ≡ Some (record { name = codes "l2"; a = 2; b = 3; cost = 7; latency_a = 0; latency_b = 9; up = false }) }
    ensures other { at (with_set 2 7 0 9 false line).links.rows 1 ≡ Some (link_of_eleven (codes "l1") 1 2) }
    ensures removed { is_there 2 (without_link 2 line) ≡ false }
    ensures not_again { (with_link (link_of_eleven (codes "l2") 2 3) (without_link 2 line)).links.next ≡ 4 }
    ensures least { no_links.least ≡ 10 }
{}

/// The line of two links as it will be: link 3 comes, link 1 is set or removed, the setting changes, and link 2 may be gone.
pub fn links_as_they_will_be()
    ensures unchanged { fabric_after None [] line ≡ line }
    ensures added { numbers (fabric_after (Some (Add (link_of_eleven (codes "l3") 1 3))) [] line).links.rows ≡ 1 ∷ 2 ∷ 3 ∷ [] }
    ensures removed { numbers (fabric_after (Some (Remove (record { 0 = 1 }))) [] line).links.rows ≡ 2 ∷ [] }
    ensures gone { numbers (fabric_after (Some (Add (link_of_eleven (codes "l3") 1 3))) (2 ∷ []) line).links.rows ≡ 1 ∷ 3 ∷ [] }
    ensures set { at (fabric_after (Some (Set (record { 0 = 1 }) 7 0 9 false)) (2 ∷ []) line).links.rows 1 ≡ Some (record { name = codes "l1"; a = 1; b = 2; cost = 7; latency_a = 0; latency_b = 9; up = false }) }
    ensures absent { at (fabric_after None (2 ∷ []) line).links.rows 2 ≡ None }
    ensures next { (fabric_after (Some (Add (link_of_eleven (codes "l3") 1 3))) (3 ∷ []) line).links.next ≡ 4 }
    ensures least { (fabric_after (Some (SetLeast 25)) [] line).least ≡ 25 }
{}

/// The line of three routers: each step costs 21, which is a link of 11 and a router of 10. A link is no step while it is down, while
/// a router of it is not connected, or where one is absent; a router that costs more than the least costs its own.
pub fn graph_of_a_line()
    ensures routers { AreRouters three_routers }
    ensures numbers { number_at three_routers 2 ≡ 3 }
    ensures steps { steps_over three_routers 3 line ≡ row_steps }
    ensures hop { hops (network line three_routers) 3 1 1 ≡ Some (2, 21) }
    ensures costs { costs_at_most 21 (steps_over three_routers 3 line) ≡ true }
    ensures dear { costs_at_most 20 (steps_over three_routers 3 line) ≡ false }
    ensures down { steps_over three_routers 3 (with_set 1 1 4 6 false line) ≡ record { from = 1; to = 2; link = 2; cost = 21 } ∷ record { from = 2; to = 1; link = 2; cost = 21 } ∷ [] }
    ensures away { steps_over second_away 3 line ≡ [] }
    ensures no_hop { hops (network line second_away) 3 1 1 ≡ None }
    ensures absent { steps_over two_routers 2 line ≡ record { from = 0; to = 1; link = 2; cost = 61 } ∷ record { from = 1; to = 0; link = 2; cost = 21 } ∷ [] }
    ensures setting { steps_over two_routers 2 (with_least 100 line) ≡ record { from = 0; to = 1; link = 2; cost = 111 } ∷ record { from = 1; to = 0; link = 2; cost = 111 } ∷ [] }
{}
