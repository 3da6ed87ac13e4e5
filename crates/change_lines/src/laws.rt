ghost use Rattle.std.specs.Prelude.{◌≡◌, []};
ghost use Rattle.ctrl_model.specs.State.{State};
ghost use Rattle.ctrl_model.specs.ValidState.{ValidState};
ghost use Rattle.change_lines.specs.ChangeLines.{change_lines};

/// Nothing is said exactly where two valid states are one.
pub fn nothing_is_said_of_equal_states()
    ensures same { (s : State) → change_lines s s ≡ [] }
    ensures back { (s t : State) → ValidState s → ValidState t → change_lines s t ≡ [] → s ≡ t }
{}
