ghost use Rattle.std.specs.Prelude.{◌≡◌, []};
ghost use Rattle.ctrl_model.specs.declared.formats.Format.TheVariants as format;
ghost use Rattle.journal_core.specs.WorkedSlots.{batch_of_ann};
ghost use Rattle.ship_frames.specs.declared.shipments.Sort.TheVariants.{Whole, Next};
ghost use Rattle.follow_laws.specs.Histories.{history_of};
ghost use Rattle.follow_laws.specs.WorkedHistories.{of_both, batch_of_bob};

/// The batches of a history of three states, worked by hand: where the rows before are none a Whole and a Next are the same, the second change is
/// told by a Next alone, and what the history has not has no bytes.
pub fn worked_histories()
    ensures whole { history_of of_both Whole 1 ≡ batch_of_ann format.Two }
    ensures next { history_of of_both Next 1 ≡ batch_of_ann format.Two }
    ensures second { history_of of_both Next 2 ≡ batch_of_bob }
    ensures no_rows { history_of of_both Whole 0 ≡ [] }
    ensures none_before { history_of of_both Next 0 ≡ [] }
    ensures none_behind { history_of of_both Next 3 ≡ [] }
{}
