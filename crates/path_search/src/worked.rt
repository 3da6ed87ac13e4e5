ghost use Rattle.std.specs.Prelude.{◌≡◌, ◌-◌, ◌*◌, ℕ, List, length, [], ◌∷◌, true, false};
ghost use Rattle.std.specs.Ordering.{nat_cmp, is_lt};
ghost use Rattle.std.specs.Cmp.Lexicographic.{slice_cmp};
ghost use Rattle.ctrl_model.specs.Claims.{no_path};
ghost use Rattle.path_certificate.specs.Graphs.{IsPath, cost_of};
ghost use Rattle.path_certificate.specs.WorkedGraphs.{row, blocked_row, square};
ghost use Rattle.path_search.specs.Searches.{IsLeast, IsFirst, greatest_cost};

/// The least costs along a row of three places, and where the middle may not be passed through.
pub fn least_costs_of_a_row()
    ensures all_through { IsLeast row 2 (42 ∷ 21 ∷ 0 ∷ []) }
    ensures middle_blocked { IsLeast blocked_row 2 (no_path ∷ 21 ∷ 0 ∷ []) }
    ensures no_path { (links : List ℕ) → IsPath blocked_row 2 0 links → ⊥ }
{}

/// The bound on what a least path costs, which the path along a row of three places reaches.
pub fn bound_of_three()
    ensures bound { (length row.through - 1) * greatest_cost row.steps ≡ 42 }
    ensures reached { cost_of row 2 0 (1 ∷ 2 ∷ []) ≡ 42 }
{}

/// Of two paths of equal cost the one with the lesser list of links comes first, and not the other.
pub fn lesser_links_first()
    ensures one_way { IsPath square 3 0 (1 ∷ 4 ∷ []) }
    ensures other_way { IsPath square 3 0 (2 ∷ 3 ∷ []) }
    ensures equal_costs { cost_of square 3 0 (1 ∷ 4 ∷ []) ≡ cost_of square 3 0 (2 ∷ 3 ∷ []) }
    ensures first { is_lt (slice_cmp nat_cmp (1 ∷ 4 ∷ []) (2 ∷ 3 ∷ [])) ≡ true }
    ensures second { is_lt (slice_cmp nat_cmp (2 ∷ 3 ∷ []) (1 ∷ 4 ∷ [])) ≡ false }
    ensures walk { IsFirst square 3 (42 ∷ 21 ∷ 21 ∷ 0 ∷ []) 0 (1 ∷ 4 ∷ []) }
{}
