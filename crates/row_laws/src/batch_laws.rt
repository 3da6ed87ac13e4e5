ghost use Rattle.std.specs.Prelude.{◌≡◌, ℕ, List, [], map};
ghost use Rattle.ctrl_model.specs.declared.formats.Format.{Format};
ghost use Rattle.ctrl_model.specs.State.{State, start};
ghost use Rattle.ctrl_model.specs.ValidState.{ValidState};
ghost use Rattle.row_codec.specs.declared.changes.Op.TheVariants.{Put, Delete};
ghost use Rattle.row_codec.specs.RowKeys.{Key, key_bytes};
ghost use Rattle.row_codec.specs.RowDifference.{difference, with_batch, IsTrueDifference};
ghost use Rattle.row_codec.specs.StateRows.{rows_of, HasRows};
ghost use Rattle.row_codec.specs.Batches.{bytes_cmp, entries_of, spelled_rows, batch_between, IsBatch};

/// The batch between two valid states is a batch: its keys rise, and its lengths fit.
pub fn batches_between_states()
    ensures { (f : Format) (s t : State) → ValidState s → ValidState t → IsBatch (batch_between f s t) }
{}

/// As bytes, the batch between two valid states is the difference of their spelled rows, and leads from the ones to the others.
pub fn batches_of_spelled_rows()
    ensures difference { (f : Format) (s t : State) → ValidState s → ValidState t
        → entries_of (batch_between f s t) ≡ difference bytes_cmp (spelled_rows (rows_of f s)) (spelled_rows (rows_of f t)) }
    ensures leads { (f : Format) (s t : State) → ValidState s → ValidState t
        → with_batch bytes_cmp (spelled_rows (rows_of f s)) (entries_of (batch_between f s t)) ≡ spelled_rows (rows_of f t) }
{}

/// The batch is empty exactly between equal states. Between others it is a true difference.
pub fn empty_batches()
    ensures same { (f : Format) (s : State) → ValidState s → batch_between f s s ≡ [] }
    ensures back { (f : Format) (s t : State) → ValidState s → ValidState t → HasRows f s → HasRows f t → batch_between f s t ≡ [] → s ≡ t }
    ensures others { (f : Format) (s t : State) → ValidState s → ValidState t → HasRows f s → HasRows f t → (s ≡ t → ⊥)
        → IsTrueDifference bytes_cmp (spelled_rows (rows_of f s)) (entries_of (batch_between f s t)) }
{}

/// From the state at the start a batch puts every row, and back to it one deletes every row.
pub fn batches_of_all_rows()
    ensures puts { (f : Format) (s : State) → batch_between f start s ≡ map (λ (x : Key × List ℕ). Put (key_bytes x.0) x.1) (rows_of f s) }
    ensures deletes { (f : Format) (s : State) → batch_between f s start ≡ map (λ (x : Key × List ℕ). Delete (key_bytes x.0)) (rows_of f s) }
{}
