ghost use Rattle.std.specs.Prelude.{◌≡◌, ◌+◌, [], ◌∷◌, None, Some, true, false};
ghost use Rattle.ctrl_model.specs.Claims.{no_path};
ghost use Rattle.path_certificate.specs.Graphs.{IsGraph, graph_hops, none_improves, is_ordered, IsPath, cost_of};
ghost use Rattle.path_certificate.specs.Certified.{Certified};
ghost use Rattle.path_certificate.specs.StepLists.{standing};
ghost use Rattle.path_certificate.specs.WorkedGraphs.{row, blocked_row, triangle, square, single};
ghost use Rattle.path_certificate.specs.declared.listing.StepEnd.TheVariants as step_end;
ghost use Rattle.ctrl_model.specs.Mirrors.{Mirrors};
ghost use Rattle.ctrl_model.specs.Networks.{network_of, hops};
ghost use Rattle.ctrl_model.specs.Walks.{goes};
ghost use Rattle.ctrl_model.specs.WorkedStates.{line};

/// Three places in a row, each of which may be passed through: what certifies the path from one end to the other.
pub fn line_of_three()
    ensures ordered { is_ordered row.steps ≡ true }
    ensures path { IsPath row 2 0 (1 ∷ 2 ∷ []) }
    ensures cost { cost_of row 2 0 (1 ∷ 2 ∷ []) ≡ 42 }
    ensures certified { Certified row 2 (42 ∷ 21 ∷ 0 ∷ []) 0 (1 ∷ 2 ∷ []) }
    ensures from_the_middle { Certified row 2 (42 ∷ 21 ∷ 0 ∷ []) 1 (2 ∷ []) }
    ensures from_the_target { Certified row 2 (42 ∷ 21 ∷ 0 ∷ []) 2 [] }
    ensures too_low { ¬ (Certified row 2 (41 ∷ 21 ∷ 0 ∷ []) 0 (1 ∷ 2 ∷ [])) }
    ensures too_high { ¬ (Certified row 2 (43 ∷ 21 ∷ 0 ∷ []) 0 (1 ∷ 2 ∷ [])) }
    ensures not_zero { ¬ (Certified row 2 (43 ∷ 22 ∷ 1 ∷ []) 0 (1 ∷ 2 ∷ [])) }
    ensures too_few { ¬ (Certified row 2 (42 ∷ 21 ∷ []) 0 (1 ∷ 2 ∷ [])) }
    ensures ends_elsewhere { ¬ (Certified row 2 (42 ∷ 21 ∷ 0 ∷ []) 0 (1 ∷ [])) }
    ensures jumps { ¬ (Certified row 2 (42 ∷ 21 ∷ 0 ∷ []) 0 (2 ∷ [])) }
    ensures too_long { ¬ (Certified row 2 (42 ∷ 21 ∷ 0 ∷ []) 0 (1 ∷ 2 ∷ 2 ∷ [])) }
    ensures goes_back { ¬ (IsPath row 2 0 (1 ∷ 1 ∷ 1 ∷ 2 ∷ [])) }
{}

/// The same places, of which the middle may not be passed through: no hop leads on from the start.
pub fn middle_not_through()
    ensures no_hop { graph_hops blocked_row 2 0 1 ≡ None }
    ensures no_path { goes (graph_hops blocked_row 2) 2 (0 ∷ []) 0 (1 ∷ 2 ∷ []) ≡ false }
    ensures from_the_middle { Certified blocked_row 2 (no_path ∷ 21 ∷ 0 ∷ []) 1 (2 ∷ []) }
    ensures settled { none_improves blocked_row 2 (no_path ∷ 21 ∷ 0 ∷ []) ≡ true }
    ensures absent_start { ¬ (Certified blocked_row 2 (no_path ∷ 21 ∷ 0 ∷ []) 0 (1 ∷ 2 ∷ [])) }
{}

/// A target counts though it may not be passed through.
pub fn target_not_through()
    ensures hop { graph_hops blocked_row 1 0 1 ≡ Some (1, 21) }
    ensures certified { Certified blocked_row 1 (21 ∷ 0 ∷ 21 ∷ []) 0 (1 ∷ []) }
{}

/// A path is certified only where no step elsewhere leads on at less cost.
pub fn shorter_way_beside()
    ensures long_way { ¬ (Certified triangle 2 (42 ∷ 21 ∷ 0 ∷ []) 0 (1 ∷ 2 ∷ [])) }
    ensures straight { Certified triangle 2 (21 ∷ 21 ∷ 0 ∷ []) 0 (3 ∷ []) }
{}

/// Two paths of equal cost are both certified, and a graph of one place has the path of no links.
pub fn two_ways_and_none()
    ensures one_way { Certified square 3 (42 ∷ 21 ∷ 21 ∷ 0 ∷ []) 0 (1 ∷ 4 ∷ []) }
    ensures other_way { Certified square 3 (42 ∷ 21 ∷ 21 ∷ 0 ∷ []) 0 (2 ∷ 3 ∷ []) }
    ensures single { Certified single 0 (0 ∷ []) 0 [] }
{}

/// The row of three places stands for a network of three routers in a line: each hop of the one is a hop of the other between
/// the routers numbered one higher, at the same cost of 21, which is a link of 11 and a router of 10.
pub fn row_for_a_line()
    ensures graph { IsGraph row.through row.steps }
    ensures same_hops { Mirrors 3 (λ v. v + 1) (graph_hops row 2) (hops (network_of line) 3) }
{}

/// The steps of the three places in a row that lead to a place, and those that leave it, in the order of the graph.
pub fn steps_at_a_place()
    ensures to_the_middle { standing step_end.To 1 row.steps ≡ record { from = 0; to = 1; link = 1; cost = 21 } ∷ record { from = 2; to = 1; link = 2; cost = 21 } ∷ [] }
    ensures from_the_middle { standing step_end.From 1 row.steps ≡ record { from = 1; to = 0; link = 1; cost = 21 } ∷ record { from = 1; to = 2; link = 2; cost = 21 } ∷ [] }
    ensures to_the_start { standing step_end.To 0 row.steps ≡ record { from = 1; to = 0; link = 1; cost = 21 } ∷ [] }
    ensures elsewhere { standing step_end.From 3 row.steps ≡ [] }
{}
