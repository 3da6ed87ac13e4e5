ghost use Rattle.std.specs.Prelude.{◌≡◌, ◌<◌, ℕ, List, length, true, None, Some};
ghost use Rattle.ctrl_model.specs.Claims.{no_path};
ghost use Rattle.ctrl_model.specs.Networks.{Network, is_on, least_path, IsLeastPath};
ghost use Rattle.path_certificate.specs.Graphs.{GraphSeen, potential};
ghost use Rattle.path_search.specs.MirroredSearches.{IsSearched};
ghost use Rattle.path_search.specs.Searches.{IsFirst};

/// Where the hops of a network mirror those of a graph and least costs to a place are known, the first of the graph's least paths from
/// another place is the network's least path between the two routers, if both are connected; and where that place has no potential the
/// network has no path between them (docs/RULES.md, "Settling").
pub fn least_paths_of_a_network()
    ensures is_least { (w : Network) (g : GraphSeen) (rename : ℕ → ℕ) (t v : ℕ) (p : List ℕ) → IsSearched w g rename t p → v < length g.through
        → (links : List ℕ) → is_on w (rename v) ≡ true → is_on w (rename t) ≡ true → IsFirst g t p v links → IsLeastPath w (rename v) (rename t) links }
    ensures first { (w : Network) (g : GraphSeen) (rename : ℕ → ℕ) (t v : ℕ) (p : List ℕ) → IsSearched w g rename t p → v < length g.through
        → (links : List ℕ) → is_on w (rename v) ≡ true → is_on w (rename t) ≡ true → IsFirst g t p v links → least_path w (rename v) (rename t) ≡ Some links }
    ensures none { (w : Network) (g : GraphSeen) (rename : ℕ → ℕ) (t v : ℕ) (p : List ℕ) → IsSearched w g rename t p → v < length g.through
        → potential p v ≡ no_path → least_path w (rename v) (rename t) ≡ None }
{}
