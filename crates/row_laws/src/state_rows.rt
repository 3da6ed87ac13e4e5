ghost use Rattle.std.specs.Prelude.{◌≡◌, ℕ, true, List, length, map, ◌<◌, ◌≤◌, ◌^◌, Some};
ghost use Rattle.std.specs.List.{AllByRecursion};
ghost use Rattle.ctrl_model.specs.declared.kinds.Kind.{Kind};
ghost use Rattle.ctrl_model.specs.Numbered.{at, Between};
ghost use Rattle.ctrl_model.specs.declared.formats.Format.{Format};
ghost use Rattle.ctrl_model.specs.declared.formats.Format.TheVariants.{One, Two};
ghost use Rattle.ctrl_model.specs.declared.kinds.Relation.{Relation};
ghost use Rattle.ctrl_model.specs.State.{State};
ghost use Rattle.ctrl_model.specs.Tables.{Record, table};
ghost use Rattle.ctrl_model.specs.ValidState.{ValidState};
ghost use Rattle.row_codec.specs.declared.rows.Row.{Row};
ghost use Rattle.row_codec.specs.RowKeys.{Key, key_cmp, key_bytes, is_key, is_long};
ghost use Rattle.row_codec.specs.RowForm.{SpellsRow};
ghost use Rattle.row_codec.specs.RowDifference.{Rises, value_at};
ghost use Rattle.row_codec.specs.StateRows.{rows_of, row_at, HasRows};
ghost use Rattle.row_codec.specs.NarrowedRows.{narrowed};
ghost use Rattle.row_codec.specs.Batches.{bytes_cmp, spelled_rows};
ghost use Rattle.ctrl_model.specs.Grants.{count};
ghost use Rattle.row_laws.specs.FittingRecords.{fits};
ghost use Rattle.row_laws.specs.OrderedIntercepts.{AscendIn};

/// The rows of a state have at each key what the state has there.
pub fn rows_at_keys()
    ensures { (f : Format) (s : State) (q : Key) → value_at key_cmp (rows_of f s) q ≡ row_at f s q }
{}

/// The rows of a state whose tables are numbered rise; those of a valid state do so as bytes too.
pub fn rows_rise()
    ensures numbered { (f : Format) (s : State) → ((k : Kind) → Between 1 (table k s).next (table k s).rows) → AscendIn f s → Rises key_cmp (rows_of f s) }
    ensures spelled { (f : Format) (s : State) → ValidState s → Rises bytes_cmp (spelled_rows (rows_of f s)) }
{}

/// Each row of a valid state stands under a key, and spells a row that some state can have; its value is short enough for a batch.
pub fn rows_have_their_form()
    ensures keys { (f : Format) (s : State) → ValidState s → AllByRecursion (λ (x : Key × List ℕ). is_key x.0 ≡ true) (rows_of f s) }
    ensures rows { (f : Format) (s : State) → ValidState s → AllByRecursion (λ (x : Key × List ℕ). (r : Row) × SpellsRow f (key_bytes x.0) x.1 r) (rows_of f s) }
    ensures lengths { (f : Format) (s : State) → ValidState s → AllByRecursion (λ (x : Key × List ℕ). length x.1 < 2 ^ 32) (rows_of f s) }
{}

/// Each record of a valid state fits its row, under a number that fits a key.
pub fn records_fit()
    ensures { (k : Kind) (s : State) (n : ℕ) (r : Record k) → ValidState s → at (table k s).rows n ≡ Some r → (is_long n ≡ true) × (fits k r ≡ true) }
{}

/// A count of a valid state is at most 512, so that two bytes hold it.
pub fn counts_are_few()
    ensures { (r : Relation) (s : State) (a b : ℕ) → ValidState s → count r s a b ≤ 512 }
{}

/// A valid state that has rows in the first format has the same in the second, each count narrowed to two bytes.
pub fn narrowed_rows()
    ensures { (s : State) → ValidState s → HasRows One s → spelled_rows (rows_of Two s) ≡ map narrowed (spelled_rows (rows_of One s)) }
{}

/// Two valid states with equal rows are equal, if both have rows in the format.
pub fn equal_rows_equal_states()
    ensures rows { (f : Format) (s t : State) → ValidState s → ValidState t → HasRows f s → HasRows f t → rows_of f s ≡ rows_of f t → s ≡ t }
    ensures spelled { (f : Format) (s t : State) → ValidState s → ValidState t → HasRows f s → HasRows f t → spelled_rows (rows_of f s) ≡ spelled_rows (rows_of f t) → s ≡ t }
    ensures keys { (f : Format) (s t : State) → ValidState s → ValidState t → HasRows f s → HasRows f t → ((q : Key) → row_at f s q ≡ row_at f t q) → s ≡ t }
{}
