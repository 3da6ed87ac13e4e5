ghost use Rattle.std.specs.Prelude.{◌≡◌, ℕ, List, map};
ghost use Rattle.std.specs.List.{AllByRecursion};
ghost use Rattle.row_codec.specs.declared.changes.Change.{Change};
ghost use Rattle.row_codec.specs.declared.changes.Op.{Op};
ghost use Rattle.row_codec.specs.RowDifference.{Rises};
ghost use Rattle.row_codec.specs.Batches.{IsBatch, IsSpelledOp, Spells, bytes_cmp, batch_of};

/// Bytes spell at most one batch.
pub fn one_batch()
    ensures { (bytes : List ℕ) (a b : List Op) → Spells bytes a → Spells bytes b → a ≡ b }
{}

/// Changes whose keys rise make a batch, where its lengths fit.
pub fn batches_of_changes()
    ensures { (changes : List Change) → Rises bytes_cmp (map (λ c. (c.key, c)) changes) → AllByRecursion IsSpelledOp (batch_of changes)
        → IsBatch (batch_of changes) }
{}
