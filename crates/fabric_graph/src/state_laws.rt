ghost use Rattle.std.specs.Prelude.{◌≡◌, ℕ, map};
ghost use Rattle.ctrl_model.specs.Networks.{seen, network_of, hops};
ghost use Rattle.ctrl_model.specs.State.{State};
ghost use Rattle.ctrl_model.specs.ValidState.{ValidState};
ghost use Rattle.fabric_graph.specs.FabricRules.{KeepsLinks};
ghost use Rattle.fabric_graph.specs.Routers.{AreRouters, HaveGraph, network, fabric_of};

/// The links of a valid state are as a fabric keeps them and have a graph, and its routers are as `graph_of` wants them; and the hops that the graph
/// mirrors are those of the state's network (docs/RULES.md, "Paths").
pub fn fabric_of_a_state()
    ensures links { (s : State) → ValidState s → KeepsLinks (fabric_of s) }
    ensures graph { (s : State) → ValidState s → HaveGraph (fabric_of s) }
    ensures routers { (s : State) → ValidState s → AreRouters (map seen s.routers.rows) }
    ensures hops { (s : State) (t v l : ℕ) → hops (network (fabric_of s) (map seen s.routers.rows)) t v l ≡ hops (network_of s) t v l }
{}
