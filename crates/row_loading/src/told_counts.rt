ghost use Rattle.std.specs.Prelude.{◌≡◌, ◌<◌, ℕ, List};
ghost use Rattle.ctrl_model.specs.declared.formats.Format.{Format};
ghost use Rattle.ctrl_model.specs.declared.kinds.Kind.{Kind};
ghost use Rattle.ctrl_model.specs.declared.kinds.Relation.{Relation};
ghost use Rattle.ctrl_model.specs.State.{start};
ghost use Rattle.ctrl_model.specs.Grants.{count};
ghost use Rattle.row_codec.specs.declared.rows.Row.{Row};
ghost use Rattle.row_codec.specs.declared.changes.Op.{Op};
ghost use Rattle.state_building.specs.BuiltStates.{built, AreFlawless, count_in};
ghost use Rattle.row_loading.specs.LoadedRows.{Loads};

/// The counts that rows without flaws have, in the order of their keys, are those of the state that the rows build: once counts come, no
/// record comes any more, and intercepts and the serial change no count.
pub fn told_counts_are_those_of_the_state()
    ensures { (f : Format) (nexts : Kind → ℕ) (ops : List Op) (rows : List Row) (r : Relation) (a b : ℕ) → Loads f ops rows → AreFlawless nexts rows start
        → 0 < count_in rows r a b → count_in rows r a b ≡ count r (built rows start) a b }
{}
