ghost use Rattle.std.specs.Prelude.{◌≡◌, ℕ, List};
ghost use Rattle.ctrl_model.specs.declared.formats.Format.{Format};
ghost use Rattle.row_codec.specs.declared.rows.Row.{Row};
ghost use Rattle.row_codec.specs.RowForm.{SpellsRow};

/// A key and a value spell at most one row of a format.
pub fn one_row()
    ensures { (f : Format) (key value : List ℕ) (a b : Row) → SpellsRow f key value a → SpellsRow f key value b → a ≡ b }
{}
