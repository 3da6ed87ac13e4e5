ghost use Rattle.std.specs.Prelude.{◌≡◌, ◌≤◌, ℕ, true, List};
ghost use Rattle.std.specs.List.{list_all};
ghost use Rattle.ctrl_model.specs.declared.formats.Format.{Format};
ghost use Rattle.ctrl_model.specs.declared.kinds.Kind.{Kind};
ghost use Rattle.ctrl_model.specs.Limits.{last_next};
ghost use Rattle.ctrl_model.specs.State.{State, start};
ghost use Rattle.ctrl_model.specs.ValidState.{ValidState};
ghost use Rattle.row_codec.specs.declared.rows.Row.{Row};
ghost use Rattle.row_codec.specs.declared.changes.Op.{Op};
ghost use Rattle.row_codec.specs.RowForm.{is_row};
ghost use Rattle.row_codec.specs.Batches.{batch_between};
ghost use Rattle.row_codec.specs.StateRows.{HasRows};
ghost use Rattle.state_building.specs.declared.flaws.Flaw.{Flaw};
ghost use Rattle.state_building.specs.BuiltStates.{built, AreFlawless, next_in, state_in, HaveCounts};
ghost use Rattle.row_loading.specs.LoadedRows.{Loads, AreOfNoState};
ghost use Rattle.row_loading.specs.RefusedRows.{RefusesRows};

/// The next numbers that rows have are numbers that a kind can have next.
pub fn next_numbers_in_rows()
    ensures first { (f : Format) (rows : List Row) (k : Kind) → list_all (is_row f) rows ≡ true → 1 ≤ next_in rows k }
    ensures last { (f : Format) (rows : List Row) (k : Kind) → list_all (is_row f) rows ≡ true → next_in rows k ≤ last_next }
{}

/// Changes that put rows without flaws, with every count among them, are those that lead from the start to the state of these rows, which
/// is valid.
pub fn loaded_rows_are_those_of_their_state()
    ensures rows { (f : Format) (ops : List Op) (rows : List Row) → Loads f ops rows → AreFlawless (next_in rows) rows start
        → HaveCounts rows (built rows start) → ops ≡ batch_between f start (state_in rows) }
    ensures valid { (f : Format) (ops : List Op) (rows : List Row) → Loads f ops rows → AreFlawless (next_in rows) rows start → ValidState (state_in rows) }
    ensures has_rows { (f : Format) (ops : List Op) (rows : List Row) → Loads f ops rows → HasRows f (state_in rows) }
{}

/// Changes that lead from the start to a valid state put rows without flaws, with every count among them, and the state is that of these
/// rows.
pub fn rows_of_valid_states_load()
    ensures loads { (f : Format) (ops : List Op) (s : State) → ValidState s → HasRows f s → ops ≡ batch_between f start s → (rows : List Row) × Loads f ops rows }
    ensures flawless { (f : Format) (ops : List Op) (rows : List Row) (s : State) → ValidState s → HasRows f s → ops ≡ batch_between f start s → Loads f ops rows
        → AreFlawless (next_in rows) rows start }
    ensures counts { (f : Format) (ops : List Op) (rows : List Row) (s : State) → ValidState s → HasRows f s → ops ≡ batch_between f start s → Loads f ops rows
        → HaveCounts rows (built rows start) }
    ensures state { (f : Format) (ops : List Op) (rows : List Row) (s : State) → ValidState s → HasRows f s → ops ≡ batch_between f start s → Loads f ops rows → state_in rows ≡ s }
{}

/// Changes that are refused lead to no valid state.
pub fn refused_rows_are_of_no_state()
    ensures { (f : Format) (ops : List Op) (place : ℕ) (flaw : Flaw) → RefusesRows f ops place flaw → AreOfNoState f ops }
{}
