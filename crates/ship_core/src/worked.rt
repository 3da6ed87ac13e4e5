ghost use Rattle.std.specs.Prelude.{◌≡◌, [], ◌∷◌, ◌++◌, length, map};
ghost use Rattle.ctrl_model.specs.declared.formats.Format.{Format};
ghost use Rattle.ctrl_model.specs.declared.formats.Format.TheVariants as format;
ghost use Rattle.journal_core.specs.WorkedSlots.{batch_of_ann};
ghost use Rattle.ship_frames.specs.Pieces.{written};
ghost use Rattle.ship_core.specs.Shipping.{shipments, shipped};
ghost use Rattle.ship_core.specs.WorkedShipments.{batch_of_bob, both_batches, compacted_batch, whole_one, next_two, whole_two, whole_none, wide_count, narrow_count};

/// What is shipped of folders of the second format, worked by hand: a Whole of 103 bytes; a Next behind it, with the next sequence, or alone
/// with the first one; nothing past the last serial; and once the folder is compacted the one Whole wherever the shipping begins.
pub fn worked_shipments()
    ensures whole { written (shipped 0 format.Two (batch_of_ann format.Two ∷ [])) ≡ whole_one }
    ensures whole_len { length whole_one ≡ 103 }
    ensures past_it { shipped 2 format.Two (batch_of_ann format.Two ∷ []) ≡ [] }
    ensures both { written (shipped 0 format.Two both_batches) ≡ whole_one ++ next_two 1 }
    ensures from_the_first { written (shipped 1 format.Two both_batches) ≡ whole_one ++ next_two 1 }
    ensures from_the_second { written (shipped 2 format.Two both_batches) ≡ next_two 0 }
    ensures past_both { shipped 3 format.Two both_batches ≡ [] }
    ensures past_all { shipped 18446744073709551615 format.Two both_batches ≡ [] }
    ensures compacted { written (shipped 0 format.Two (compacted_batch ∷ [])) ≡ whole_two }
    ensures compacted_from_before { written (shipped 1 format.Two (compacted_batch ∷ [])) ≡ whole_two }
    ensures compacted_from_its_own { written (shipped 2 format.Two (compacted_batch ∷ [])) ≡ whole_two }
    ensures compacted_len { length whole_two ≡ 119 }
    ensures past_the_compacted { shipped 3 format.Two (compacted_batch ∷ []) ≡ [] }
    ensures none { (f : Format) → shipped 0 f [] ≡ [] }
{}

/// What is shipped of folders of the first format, worked by hand: from 0 on one Whole of 88 bytes with the serial 0, of which each count has
/// two bytes; from 1 on nothing.
pub fn worked_old_shipments()
    ensures whole { written (shipped 0 format.One (batch_of_ann format.One ∷ [])) ≡ whole_none }
    ensures len { length whole_none ≡ 88 }
    ensures from_one { shipped 1 format.One (batch_of_ann format.One ∷ []) ≡ [] }
    ensures narrowed { map (λ s. s.bytes) (shipments format.One (wide_count ∷ [])) ≡ narrow_count ∷ [] }
{}
