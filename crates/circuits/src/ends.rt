ghost use Rattle.std.specs.Prelude.{◌≡◌, ℕ, ◌≤◌, ◌==◌, length, count_by, IfOk};
ghost use Rattle.ctrl_model.specs.declared.kinds.Kind.TheVariants as kind;
ghost use Rattle.ctrl_model.specs.Limits.{limit};
ghost use Rattle.grant_denorm.specs.PairCounts.{count_of};

use crate::grants::Circuit;
use grant_denorm::Counted;
use record_tables::NumberedTable;
use std::alloc::{AllocError, Global};

/// How many circuits end at the terminator of each number: the count of the number and 0.
pub fn tally_in(alloc: Global, granted: &NumberedTable<Circuit>) -> Result<Counted, AllocError>
    requires { length granted.now.rows ≤ limit kind.Circuit }
    ensures { IfOk result (λ c. (n : ℕ) → count_of c n 0 ≡ count_by (λ row. row.1.terminator == n) granted.now.rows) }
{
    let mut ends = Counted::new(alloc);
    'circuits: for (_, circuit) in granted.rows() {
        ends.raise(circuit.terminator.0, 0)?;
    }
    Ok(ends)
}
