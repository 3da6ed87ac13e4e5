ghost use Rattle.std.specs.Prelude.{◌≡◌, [], ◌∷◌, true, false, Some};
ghost use Rattle.ziti_outside.specs.declared.desk.Part.TheVariants.{Zero, Mark};
ghost use Rattle.ziti_outside.specs.Images.{Image};
ghost use Rattle.ctrl_model.specs.State.{State, start};
ghost use Rattle.ctrl_keep.specs.KeptMachine.{Machine};
ghost use Rattle.row_store.specs.OpenedStates.{OpensToState};
ghost use Rattle.session_mux.specs.declared.sessions.Form.TheVariants.{Plain};
ghost use Rattle.run_notes.specs.declared.status.Status.TheVariants.{Done, Truncated, Damaged};
ghost use Rattle.run_notes.specs.Notes.{damaged_note};
ghost use Rattle.ctrl_serve.specs.OpenedFolders.{OpensTo};
ghost use Rattle.memory_runs.specs.WholeReplays.{bounds, is_longer, new_machine, used, IsNew, IsNoted, IsRefused, IsSafe, IsWhole};
ghost use Rattle.memory_runs.specs.WorkedReplays.{no_parts, seen_with, stopped_with};

/// A folder that opens to a state opens to one machine, which has that state; and one whose mark is empty, to the machine at the start.
pub fn a_folder_opens_to_one_machine()
    ensures some { (image : Image) (s : State) → OpensToState image s → (machine : Machine) × OpensTo image machine × (machine.state ≡ s) }
    ensures state { (image : Image) (machine : Machine) → OpensTo image machine → OpensToState image machine.state }
    ensures one { (image : Image) (machine other : Machine) → OpensTo image machine → OpensTo image other → machine ≡ other }
    ensures empty { (image : Image) → image Mark ≡ [] → OpensTo image new_machine }
{}

/// Words of replays in memory, worked by hand: two bytes of input, the machine of a folder without a byte, notes and a stop.
pub fn worked_replays()
    ensures all_used { used (1 ∷ 2 ∷ []) ≡ 1 ∷ 2 ∷ [] }
    ensures no_longer { is_longer (1 ∷ 2 ∷ []) ≡ false }
    ensures bounds { bounds ≡ record { slot = 1_073_741_824; mark = 1_048_576 } }
    ensures at_the_start { new_machine.state ≡ start }
    ensures at_the_first_gate { new_machine.place ≡ Some (record { end = 8; mark = 1 }) }
    ensures noted { IsNoted (1 ∷ 2 ∷ []) (seen_with [] (1 ∷ 2 ∷ []) 0) }
    ensures noted_in_part { IsNoted (1 ∷ 2 ∷ []) (seen_with [] (1 ∷ []) 1) }
    ensures noted_too_little { IsNoted (1 ∷ 2 ∷ []) (seen_with [] (1 ∷ []) 0) → ⊥ }
    ensures noted_else { IsNoted (1 ∷ 2 ∷ []) (seen_with [] (2 ∷ []) 1) → ⊥ }
    ensures new { IsNew true (seen_with [] [] 0) (stopped_with []) }
    ensures no_longer_new { IsNew true (seen_with (1 ∷ []) [] 0) (stopped_with []) → ⊥ }
    ensures untold { IsNew false (seen_with [] [] 0) (stopped_with []) → ⊥ }
    ensures refused { IsRefused Zero 0 no_parts (seen_with [] (damaged_note Zero 0) 0) Damaged }
    ensures refused_with_a_reply { IsRefused Zero 0 no_parts (seen_with (1 ∷ []) (damaged_note Zero 0) 0) Damaged → ⊥ }
    ensures nothing_is_answered { IsWhole Plain new_machine [] no_parts (seen_with (1 ∷ []) [] 0) Done → ⊥ }
    ensures nothing_is_left { IsWhole Plain new_machine [] no_parts (seen_with [] [] 0) Truncated → ⊥ }
    ensures no_reply_is_found { IsSafe Plain new_machine [] (stopped_with (1 ∷ [])) → ⊥ }
{}
