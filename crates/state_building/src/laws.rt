ghost use Rattle.std.specs.Prelude.{◌≡◌, ℕ, ◌≤◌, List, None};
ghost use Rattle.ctrl_model.specs.declared.kinds.Kind.{Kind};
ghost use Rattle.ctrl_model.specs.declared.kinds.Relation.{Relation};
ghost use Rattle.ctrl_model.specs.Limits.{last_next};
ghost use Rattle.ctrl_model.specs.State.{State, start};
ghost use Rattle.ctrl_model.specs.Tables.{Record, table};
ghost use Rattle.ctrl_model.specs.Grants.{count};
ghost use Rattle.ctrl_model.specs.ValidState.{ValidState};
ghost use Rattle.row_codec.specs.declared.rows.Row.{Row};
ghost use Rattle.state_building.specs.JoinedRecords.{skipped, joined, flaw_of};
ghost use Rattle.state_building.specs.BuiltStates.{with_row, flaw_in, built, AreFlawless, with_nexts};

/// A valid state stays valid with a higher next number of a kind, up to the last, and no count changes.
pub fn skipping_keeps_validity()
    ensures valid { (k : Kind) (n : ℕ) (s : State) → ValidState s → (table k s).next ≤ n → n ≤ last_next → ValidState (skipped k n s) }
    ensures counts { (k : Kind) (n : ℕ) (s : State) (r : Relation) (a b : ℕ) → count r (skipped k n s) a b ≡ count r s a b }
{}

/// A valid state stays valid where a record joins it that has no flaw, and where a row comes that has none.
pub fn joining_keeps_validity()
    ensures one { (nexts : Kind → ℕ) (k : Kind) (n : ℕ) (r : Record k) (s : State) → ValidState s → nexts k ≤ last_next
        → flaw_of nexts k n r s ≡ None → ValidState (joined k n r s) }
    ensures row { (nexts : Kind → ℕ) (x : Row) (s : State) → ValidState s → ((k : Kind) → nexts k ≤ last_next)
        → flaw_in nexts x s ≡ None → ValidState (with_row x s) }
{}

/// Rows without flaws build a valid state from the one at the start, whose next numbers are at most those that were asked; with those it
/// is valid too, and has the same counts.
pub fn flawless_rows_build_valid_states()
    ensures built { (nexts : Kind → ℕ) (rows : List Row) → ((k : Kind) → nexts k ≤ last_next) → AreFlawless nexts rows start → ValidState (built rows start) }
    ensures below { (nexts : Kind → ℕ) (rows : List Row) (k : Kind) → 1 ≤ nexts k → AreFlawless nexts rows start → (table k (built rows start)).next ≤ nexts k }
    ensures nexts { (nexts : Kind → ℕ) (s : State) → ValidState s → ((k : Kind) → (table k s).next ≤ nexts k) → ((k : Kind) → nexts k ≤ last_next)
        → ValidState (with_nexts nexts s) }
    ensures counts { (nexts : Kind → ℕ) (s : State) (r : Relation) (a b : ℕ) → count r (with_nexts nexts s) a b ≡ count r s a b }
{}
