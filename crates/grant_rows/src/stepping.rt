ghost use Rattle.std.specs.Prelude.{◌≡◌, ℕ, ◌+◌, ◌<◌, ◌&&◌, cond, not, true, false, IfOk, OnOk};
ghost use Rattle.ctrl_model.specs.Limits.{most_number};
ghost use Rattle.grant_denorm.specs.Deltas.{is_at};
ghost use Rattle.grant_denorm.specs.TakenSteps.{HaveRoom, Taken};
ghost use Rattle.grant_rows.specs.MovedCounts.{count_so_far};

use grant_denorm::{Counted, Delta};
use std::alloc::{AllocError, Global};
use std::collections::BTreeMap;

fn step_count(count: u32, up: bool) -> u32
    requires least { up ≡ false → 0 < count }
    requires most { up ≡ true → count < most_number }
    ensures { result + cond (not up) 1 0 ≡ count + cond up 1 0 }
{
    if up { count + 1 } else { count - 1 }
}

// The count of a pair after the steps so far: the first step at a pair begins with the count before all of them.
fn count_so_far(moved: &BTreeMap<(u32, u32), u32>, counted: &Counted, a: u32, b: u32) -> u32
    ensures { result ≡ count_so_far moved.now.entries counted.now a b }
{
    match moved.get(&(a, b)) {
        Some(count) => *count,
        None => counted.count(a, b),
    }
}

fn take_step(
    moved: &mut BTreeMap<(u32, u32), u32>,
    counted: &Counted,
    step: &Delta,
) -> Result<(), AllocError>
    requires least { step.now.up ≡ false → 0 < count_so_far moved.old.entries counted.now step.now.a step.now.b }
    requires most { step.now.up ≡ true → count_so_far moved.old.entries counted.now step.now.a step.now.b < most_number }
    ensures { OnOk result ((p q : ℕ) → count_so_far moved.new.entries counted.now p q + cond (not step.now.up && is_at p q step.now) 1 0
        ≡ count_so_far moved.old.entries counted.now p q + cond (step.now.up && is_at p q step.now) 1 0) }
{
    let count = count_so_far(moved, counted, step.a, step.b);
    moved.insert((step.a, step.b), step_count(count, step.up))?;
    Ok(())
}

/// The count after the steps of each pair that has a step.
pub(crate) fn take_steps(
    alloc: Global,
    counted: &Counted,
    steps: &[Delta],
) -> Result<BTreeMap<(u32, u32), u32>, AllocError>
    requires { HaveRoom counted.now steps.now }
    ensures { IfOk result (λ moved. Taken counted.now (count_so_far moved.entries counted.now) steps.now) }
{
    let mut moved = BTreeMap::new(alloc);
    'steps: for step in steps {
        take_step(&mut moved, counted, step)?;
    }
    Ok(moved)
}
