ghost use Rattle.std.specs.Prelude.{◌≡◌, codes, true, false, None, Some, [], ◌∷◌};
ghost use Rattle.ctrl_model.specs.declared.kinds.Kind.TheVariants as kind;
ghost use Rattle.ctrl_model.specs.State.{start};
ghost use Rattle.state_building.specs.declared.flaws.Flaw.TheVariants.{OutOfOrder, NoRecord, NameTaken, Hanging};
ghost use Rattle.state_building.specs.JoinedRecords.{joined, flaw_of};
ghost use Rattle.record_flaws.specs.SoundRows.{is_sound_row};
ghost use Rattle.record_flaws.specs.WorkedFlaws.{ann, row_of_ann, link_between};

/// Flaws of records beside the state at the start, and beside one identity: which record cannot come next, and why.
pub fn worked_flaws()
    ensures sound { is_sound_row (row_of_ann (codes "a" ∷ codes "b" ∷ [])) ≡ true }
    ensures repeated { is_sound_row (row_of_ann (codes "a" ∷ codes "a" ∷ [])) ≡ false }
    ensures first { flaw_of (λ k. 2) kind.Identity 1 (ann []) start ≡ None }
    ensures passed { (joined kind.Identity 3 (ann []) start).identities ≡ record { rows = (3, ann []) ∷ []; next = 4 } }
    ensures end { flaw_of (λ k. 1) kind.Identity 1 (ann []) start ≡ Some OutOfOrder }
    ensures before { flaw_of (λ k. 9) kind.Identity 3 (ann []) (joined kind.Identity 3 (ann []) start) ≡ Some OutOfOrder }
    ensures repeats { flaw_of (λ k. 2) kind.Identity 1 (ann (codes "a" ∷ codes "a" ∷ [])) start ≡ Some NoRecord }
    ensures taken { flaw_of (λ k. 9) kind.Identity 4 (ann []) (joined kind.Identity 3 (ann []) start) ≡ Some NameTaken }
    ensures hanging { flaw_of (λ k. 2) kind.Link 1 (link_between 1 2) start ≡ Some Hanging }
    ensures same_router { flaw_of (λ k. 2) kind.Link 1 (link_between 1 1) start ≡ Some NoRecord }
{}
