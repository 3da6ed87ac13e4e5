ghost use Rattle.std.specs.Prelude.{◌≡◌, ℕ, ◌+◌, ◌≤◌, List, [], ◌∷◌, ◌++◌, map};
ghost use Rattle.std.specs.Option.{option_map};
ghost use Rattle.ctrl_model.specs.declared.kinds.Kind.{Kind};
ghost use Rattle.ctrl_model.specs.declared.kinds.Relation.{Relation};
ghost use Rattle.ctrl_model.specs.Numbered.{at, Between};
ghost use Rattle.ctrl_model.specs.declared.formats.Format.{Format};
ghost use Rattle.ctrl_model.specs.State.{State};
ghost use Rattle.ctrl_model.specs.Tables.{table};
ghost use Rattle.ctrl_model.specs.Grants.{count};
ghost use Rattle.ctrl_model.specs.ValidState.{ValidState};
ghost use Rattle.row_codec.specs.declared.changes.Change.{Change};
ghost use Rattle.row_codec.specs.RowKeys.{Key, kind_number, key_in, number_in_key, table_number};
ghost use Rattle.row_codec.specs.RowKeys.RowTable.{Next, Setting, Records, Counts};
ghost use Rattle.row_codec.specs.RowValues.{record_value};
ghost use Rattle.row_codec.specs.RowDifference.{Rises};
ghost use Rattle.row_codec.specs.StateRows.{next_value, setting_value, count_value, row_at};
ghost use Rattle.row_codec.specs.Batches.{bytes_cmp, entries_of, batch_of, batch_between, IsBatch};
ghost use Rattle.row_laws.specs.OrderedIntercepts.{AscendIn};
ghost use Rattle.row_codec.specs.CoveredTables.{Covers, LiesIn, change_at};

/// Covers of neighbouring ranges of tables join.
pub fn covers_join()
    ensures { (f : Format) (a b c : ℕ) (s t : State) (xs ys : List Change) → a ≤ b → b ≤ c → Covers f a b s t xs → Covers f b c s t ys → Covers f a c s t (xs ++ ys) }
{}

/// Tables that are the same in both states are covered by no changes: those of a range, the next numbers, the setting, the records
/// of a kind, and the counts of a relation.
pub fn same_tables_need_no_change()
    ensures range { (f : Format) (low high : ℕ) (s t : State) → ((q : Key) → LiesIn low high q → row_at f s q ≡ row_at f t q) → Covers f low high s t [] }
    ensures next { (f : Format) (s t : State) → ((k : Kind) → (table k s).next ≡ (table k t).next) → Covers f 1 2 s t [] }
    ensures setting { (f : Format) (s t : State) → s.least_router_cost ≡ t.least_router_cost → Covers f 2 3 s t [] }
    ensures records { (f : Format) (k : Kind) (s t : State) → 1 ≤ kind_number k → ((n : ℕ) → at (table k s).rows n ≡ at (table k t).rows n)
        → Covers f (kind_number k + 2) (kind_number k + 3) s t [] }
    ensures counts { (f : Format) (r : Relation) (s t : State) → ((a b : ℕ) → count r s a b ≡ count r t a b)
        → Covers f (table_number (Counts r)) (table_number (Counts r) + 1) s t [] }
{}

/// A cover of all tables makes the batch between two states whose tables are numbered, as those of valid states are; between valid
/// states that is a batch, whose lengths fit.
pub fn covers_make_the_batch()
    ensures batch { (f : Format) (s t : State) (changes : List Change) → ((k : Kind) → Between 1 (table k s).next (table k s).rows)
        → ((k : Kind) → Between 1 (table k t).next (table k t).rows) → AscendIn f s → AscendIn f t → Covers f 1 18 s t changes → batch_of changes ≡ batch_between f s t }
    ensures form { (f : Format) (s t : State) (changes : List Change) → ValidState s → ValidState t → Covers f 1 18 s t changes → IsBatch (batch_of changes) }
{}

/// The keys of covers rise as bytes, and so do those of the batch that they make.
pub fn covered_keys_rise()
    ensures changes { (f : Format) (low high : ℕ) (s t : State) (changes : List Change) → Covers f low high s t changes
        → Rises bytes_cmp (map (λ (c : Change). (c.key, c)) changes) }
    ensures batch { (f : Format) (low high : ℕ) (s t : State) (changes : List Change) → Covers f low high s t changes → Rises bytes_cmp (entries_of (batch_of changes)) }
{}

/// The change at a key of each table, written out.
pub fn changes_at_keys()
    ensures next { (f : Format) (k : Kind) (s t : State) → 1 ≤ kind_number k → change_at f s t (key_in Next (kind_number k) 0)
        ≡ record { key = 1 ∷ kind_number k ∷ []; before = next_value (table k s).next; after = next_value (table k t).next } }
    ensures setting { (f : Format) (s t : State) → change_at f s t (key_in Setting 0 0)
        ≡ record { key = 2 ∷ []; before = setting_value s.least_router_cost; after = setting_value t.least_router_cost } }
    ensures records { (f : Format) (k : Kind) (s t : State) (n : ℕ) → 1 ≤ kind_number k → change_at f s t (key_in (Records k) n 0)
        ≡ record { key = (kind_number k + 2) ∷ number_in_key n; before = option_map (record_value k) (at (table k s).rows n); after = option_map (record_value k) (at (table k t).rows n) } }
    ensures counts { (f : Format) (r : Relation) (s t : State) (a b : ℕ) → change_at f s t (key_in (Counts r) a b)
        ≡ record { key = table_number (Counts r) ∷ (number_in_key a ++ number_in_key b); before = count_value f (count r s a b); after = count_value f (count r t a b) } }
{}
