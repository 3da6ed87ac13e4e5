ghost use Rattle.std.specs.Prelude.{◌≤◌, ◌^◌, length};
ghost use Rattle.ctrl_model.specs.declared.formats.Format.TheVariants.{Two};
ghost use Rattle.ctrl_model.specs.State.{State};
ghost use Rattle.ctrl_model.specs.ValidState.{ValidState};
ghost use Rattle.row_codec.specs.Batches.{batch_between, batch_bytes};
ghost use Rattle.row_judging.specs.JudgedRows.{JudgesExactly};

/// What is judged is exact: a state that is found is valid and has exactly these rows, and the rows of each valid state are found to be its own.
pub fn rows_are_judged_exactly()
    ensures { JudgesExactly }
{}

/// The batch between two valid states in the second format has at most 2^30 bytes, as many as a slot may have.
pub fn batches_of_states_are_bounded()
    ensures { (s t : State) → ValidState s → ValidState t → length (batch_bytes (batch_between Two s t)) ≤ 2 ^ 30 }
{}
