ghost use Rattle.std.specs.Prelude.{◌≡◌, [], ◌∷◌, codes, true, false};
ghost use Rattle.ctrl_model.specs.declared.kinds.Role.TheVariants.{All, Id, Attribute};
ghost use Rattle.ctrl_model.specs.declared.kinds.Semantic.TheVariants.{AnyOf, AllOf};
ghost use Rattle.ctrl_model.specs.Matches.{matches};
ghost use Rattle.role_expr.specs.RoleSpelling.{is_role, role_spelling};
ghost use Rattle.role_expr.specs.RoleSides.{is_all_beside, side_from};

/// Role entries as they are written, and what is none.
pub fn worked_roles()
    ensures all { role_spelling All ≡ codes "#all" }
    ensures id { role_spelling (Id (codes "ann")) ≡ codes "@ann" }
    ensures attribute { role_spelling (Attribute (codes "a")) ≡ codes "#a" }
    ensures no_attribute_all { is_role (Attribute (codes "all")) ≡ false }
    ensures id_all { is_role (Id (codes "all")) ≡ true }
    ensures no_name { is_role (Id []) ≡ false }
{}

/// Sides of role lists: `#all` alone and twice, beside another entry, and entries that stand twice.
pub fn worked_sides()
    ensures all { side_from (All ∷ []) ≡ record { all = true; ids = []; attributes = [] } }
    ensures all_twice { is_all_beside (All ∷ All ∷ []) ≡ false }
    ensures all_beside { is_all_beside (All ∷ Attribute (codes "a") ∷ []) ≡ true }
    ensures twice { side_from (Id (codes "x") ∷ Attribute (codes "b") ∷ Id (codes "x") ∷ Attribute (codes "a") ∷ Attribute (codes "b") ∷ [])
        ≡ record { all = false; ids = codes "x" ∷ []; attributes = codes "b" ∷ codes "a" ∷ [] } }
    ensures nothing { side_from [] ≡ record { all = false; ids = []; attributes = [] } }
{}

/// Which of the entities ab with the attributes a and b, a with the attribute a, and x without attributes match.
pub fn worked_matches()
    ensures all_of { matches (side_from (Attribute (codes "a") ∷ Attribute (codes "b") ∷ [])) AllOf (record { name = codes "ab"; attributes = codes "a" ∷ codes "b" ∷ [] }) ≡ true }
    ensures all_of_not { matches (side_from (Attribute (codes "a") ∷ Attribute (codes "b") ∷ [])) AllOf (record { name = codes "a"; attributes = codes "a" ∷ [] }) ≡ false }
    ensures any_of { matches (side_from (Attribute (codes "a") ∷ Attribute (codes "b") ∷ [])) AnyOf (record { name = codes "a"; attributes = codes "a" ∷ [] }) ≡ true }
    ensures any_of_not { matches (side_from (Attribute (codes "a") ∷ Attribute (codes "b") ∷ [])) AnyOf (record { name = codes "x"; attributes = [] }) ≡ false }
    ensures named { matches (side_from (Id (codes "x") ∷ [])) AllOf (record { name = codes "x"; attributes = [] }) ≡ true }
    ensures not_named { matches (side_from (Id (codes "x") ∷ [])) AllOf (record { name = codes "a"; attributes = codes "a" ∷ [] }) ≡ false }
    ensures empty { matches (side_from []) AllOf (record { name = codes "x"; attributes = [] }) ≡ false }
    ensures all_named { matches (side_from (All ∷ [])) AnyOf (record { name = codes "x"; attributes = codes "all" ∷ [] }) ≡ true }
{}
