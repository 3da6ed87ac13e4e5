ghost use Rattle.std.specs.Prelude.{◌≡◌, ℕ, ◌+◌, ◌<◌, ◌&&◌, cond, not, true, false, OnOk};
ghost use Rattle.ctrl_model.specs.Limits.{most_number};
ghost use Rattle.grant_denorm.specs.PairCounts.{count_of};
ghost use Rattle.grant_denorm.specs.Deltas.{is_at};
ghost use Rattle.grant_denorm.specs.TakenSteps.{HaveRoom, Taken};

use crate::counts::Counted;
use crate::deltas::Delta;
use std::alloc::AllocError;

fn apply_change(counted: &mut Counted, change: &Delta) -> Result<(), AllocError>
    requires least { change.now.up ≡ false → 0 < count_of counted.old change.now.a change.now.b }
    requires most { change.now.up ≡ true → count_of counted.old change.now.a change.now.b < most_number }
    ensures { OnOk result ((p q : ℕ) → count_of counted.new p q + cond (not change.now.up && is_at p q change.now) 1 0
        ≡ count_of counted.old p q + cond (change.now.up && is_at p q change.now) 1 0) }
{
    if change.up {
        counted.raise(change.a, change.b)?;
        return Ok(());
    }
    counted.lower(change.a, change.b);
    Ok(())
}

/// Takes the steps in their order. No pair may have more steps down than its count, nor so many up that its count passes
/// 4,294,967,295; then the order does not matter. On an Err some of the steps are taken and the others are not, so the counts
/// are of no further use.
pub fn apply_changes(counted: &mut Counted, changes: &[Delta]) -> Result<(), AllocError>
    requires { HaveRoom counted.old changes.now }
    ensures { OnOk result (Taken counted.old (count_of counted.new) changes.now) }
{
    'changes: for change in changes {
        apply_change(counted, change)?;
    }
    Ok(())
}
