ghost use Rattle.std.specs.Prelude.{◌≡◌, ◌↔◌, ℕ, true, List, Some};
ghost use Rattle.ctrl_model.specs.declared.kinds.Role.{Role};
ghost use Rattle.role_expr.specs.ReadRoles.{role_in};
ghost use Rattle.role_expr.specs.RoleSpelling.{is_role, role_spelling};

/// No two role entries are written alike.
pub fn one_spelling_a_role()
    ensures { (r s : Role) → is_role r ≡ true → is_role s ≡ true → role_spelling r ≡ role_spelling s → r ≡ s }
{}

/// The reading of role lists in bodies, which is a function of the bytes, reads exactly the spellings: bytes are read as a role entry
/// exactly where it is one and they are how it is written.
pub fn roles_are_read_by_their_spelling()
    ensures { (bytes : List ℕ) (r : Role) → ((role_in bytes ≡ Some r) ↔ ((is_role r ≡ true) × (role_spelling r ≡ bytes))) }
{}
