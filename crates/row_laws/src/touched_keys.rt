ghost use Rattle.std.specs.Prelude.{◌≡◌, ℕ, ◌+◌, ◌≤◌, ◌&&◌, nat_le, Bool, true, List, [], ◌∷◌, map};
ghost use Rattle.std.specs.List.{list_all};
ghost use Rattle.ctrl_model.specs.declared.kinds.Kind.{Kind};
ghost use Rattle.ctrl_model.specs.declared.kinds.Relation.{Relation};
ghost use Rattle.ctrl_model.specs.Limits.{last_next};
ghost use Rattle.ctrl_model.specs.Membership.{Among};
ghost use Rattle.ctrl_model.specs.Numbered.{at, Between, numbers, with_new, with_edit, with_removed, with_each, with_kept};
ghost use Rattle.ctrl_model.specs.declared.formats.Format.{Format};
ghost use Rattle.ctrl_model.specs.declared.formats.Format.TheVariants.{Two};
ghost use Rattle.ctrl_model.specs.State.{State};
ghost use Rattle.ctrl_model.specs.Tables.{Record, table};
ghost use Rattle.ctrl_model.specs.Grants.{count};
ghost use Rattle.row_codec.specs.RowKeys.{kind_number, table_number, is_long};
ghost use Rattle.row_codec.specs.RowKeys.RowTable.{Counts};
ghost use Rattle.row_codec.specs.RowDifference.{Rises};
ghost use Rattle.row_codec.specs.CoveredTables.{Covers};
ghost use Rattle.row_laws.specs.ChangedKeys.{Climbs, pair_cmp, next_changes, setting_change, record_changes, count_changes, intercept_changes, serial_change, gone};

/// The next numbers are covered by the changes of those that differ.
pub fn next_numbers_are_covered()
    ensures { (f : Format) (s t : State) (ks : List Kind) → Climbs kind_number ks → list_all (λ k. nat_le 1 (kind_number k)) ks ≡ true
        → ((k : Kind) → (Among k ks → ⊥) → (table k s).next ≡ (table k t).next) → Covers f 1 2 s t (next_changes f s t ks) }
{}

/// The setting is covered by its change.
pub fn the_setting_is_covered()
    ensures { (f : Format) (s t : State) → Covers f 2 3 s t (setting_change f s t ∷ []) }
{}

/// The records of a kind are covered by the changes at climbing numbers, if at every other number they are the same.
pub fn records_are_covered()
    ensures { (f : Format) (k : Kind) (s t : State) (ns : List ℕ) → 1 ≤ kind_number k → Climbs (λ n. n) ns → list_all is_long ns ≡ true
        → ((n : ℕ) → (Among n ns → ⊥) → at (table k s).rows n ≡ at (table k t).rows n)
        → Covers f (kind_number k + 2) (kind_number k + 3) s t (record_changes f k s t ns) }
{}

/// The counts of a relation are covered by the changes at rising pairs, if at every other pair they are the same.
pub fn counts_are_covered()
    ensures { (f : Format) (r : Relation) (s t : State) (pairs : List (ℕ × ℕ)) → Rises pair_cmp (map (λ p. (p, p)) pairs)
        → list_all (λ (p : ℕ × ℕ). is_long p.0 && is_long p.1) pairs ≡ true
        → ((p : ℕ × ℕ) → (Among p pairs → ⊥) → count r s p.0 p.1 ≡ count r t p.0 p.1)
        → Covers f (table_number (Counts r)) (table_number (Counts r) + 1) s t (count_changes f r s t pairs) }
{}

/// In the second format the intercepts are covered by the changes at climbing numbers, if at every other number they are the same, and the
/// serial by its change.
pub fn intercepts_and_the_serial_are_covered()
    ensures intercepts { (s t : State) (ns : List ℕ) → Climbs (λ n. n) ns → list_all is_long ns ≡ true
        → ((n : ℕ) → (Among n ns → ⊥) → at s.intercepts n ≡ at t.intercepts n) → Covers Two 16 17 s t (intercept_changes Two s t ns) }
    ensures serial { (s t : State) → Covers Two 17 18 s t (serial_change Two s t ∷ []) }
{}

/// A change of one record touches its number alone: a record that is added, changed or removed.
pub fn one_record_is_touched()
    ensures added { (f : Format) (k : Kind) (s t : State) (r : Record k) → 1 ≤ kind_number k → (table k s).next ≤ last_next → table k t ≡ with_new r (table k s)
        → Covers f (kind_number k + 2) (kind_number k + 3) s t (record_changes f k s t ((table k s).next ∷ [])) }
    ensures changed { (format : Format) (k : Kind) (s t : State) (n : ℕ) (f : Record k → Record k) → 1 ≤ kind_number k → is_long n ≡ true → table k t ≡ with_edit n f (table k s)
        → Covers format (kind_number k + 2) (kind_number k + 3) s t (record_changes format k s t (n ∷ [])) }
    ensures removed { (f : Format) (k : Kind) (s t : State) (n : ℕ) → 1 ≤ kind_number k → is_long n ≡ true → table k t ≡ with_removed n (table k s)
        → Covers f (kind_number k + 2) (kind_number k + 3) s t (record_changes f k s t (n ∷ [])) }
{}

/// Where the records that pass a test are kept, those that do not are touched; where each record is changed, all are. Where some
/// numbers are touched first and then the records that pass a test are kept, as by settling, those numbers and those that go are.
pub fn many_records_are_touched()
    ensures kept { (f : Format) (k : Kind) (s t : State) (keeps : ℕ × Record k → Bool) (high : ℕ) → 1 ≤ kind_number k → Between 1 high (table k s).rows → high ≤ last_next
        → table k t ≡ with_kept keeps (table k s) → Covers f (kind_number k + 2) (kind_number k + 3) s t (record_changes f k s t (gone keeps (table k s).rows)) }
    ensures each { (format : Format) (k : Kind) (s t : State) (f : Record k → Record k) (high : ℕ) → 1 ≤ kind_number k → Between 1 high (table k s).rows → high ≤ last_next
        → table k t ≡ with_each f (table k s) → Covers format (kind_number k + 2) (kind_number k + 3) s t (record_changes format k s t (numbers (table k s).rows)) }
    ensures then_kept { (f : Format) (k : Kind) (s effect t : State) (keeps : ℕ × Record k → Bool) (ns : List ℕ) → 1 ≤ kind_number k → Climbs (λ n. n) ns → list_all is_long ns ≡ true
        → ((n : ℕ) → (Among n ns → ⊥) → at (table k s).rows n ≡ at (table k effect).rows n) → ((n : ℕ) → Among n (gone keeps (table k effect).rows) → Among n ns)
        → table k t ≡ with_kept keeps (table k effect) → Covers f (kind_number k + 2) (kind_number k + 3) s t (record_changes f k s t ns) }
{}
