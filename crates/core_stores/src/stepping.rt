ghost use Rattle.std.specs.Prelude.{OnOk};
ghost use Rattle.ctrl_model.specs.declared.kinds.Relation.{Relation};
ghost use Rattle.policy_store.specs.StepsOfRelations.{steps_of};
ghost use Rattle.core_stores.specs.StoredState.{counts_of};
ghost use Rattle.grant_denorm.specs.PairCounts.{count_of};
ghost use Rattle.grant_denorm.specs.TakenSteps.{HaveRoom, Taken};

use crate::stores::Grants;
use grant_denorm::{Counted, Delta, apply_changes};
use policy_store::GrantSteps;
use std::alloc::AllocError;

// Takes some steps, the last one first.
fn take_backwards(counted: &mut Counted, steps: &[Delta]) -> Result<(), AllocError>
    requires { HaveRoom counted.old steps.now }
    ensures { OnOk result (Taken counted.old (count_of counted.new) steps.now) }
{
    let mut left = steps.len();
    'steps: while left > 0 {
        left -= 1;
        apply_changes(counted, &[steps[left]])?;
    }
    Ok(())
}

// Takes some steps: the last one first where it goes down, so that pairs which ascend leave their row at its end.
fn take_steps(counted: &mut Counted, steps: &[Delta]) -> Result<(), AllocError>
    requires { HaveRoom counted.old steps.now }
    ensures { OnOk result (Taken counted.old (count_of counted.new) steps.now) }
{
    match steps.last() {
        Some(step) if !step.up => take_backwards(counted, steps),
        _ => apply_changes(counted, steps),
    }
}

/// Takes the steps of each relation's counts.
pub fn apply_steps(grants: &mut Grants, steps: &GrantSteps) -> Result<(), AllocError>
    requires { (r : Relation) → HaveRoom (counts_of r grants.old) (steps_of r steps.now) }
    ensures { OnOk result ((r : Relation) → Taken (counts_of r grants.old) (count_of (counts_of r grants.new)) (steps_of r steps.now)) }
{
    take_steps(&mut grants.dial, steps.dial.as_slice())?;
    take_steps(&mut grants.bind, steps.bind.as_slice())?;
    take_steps(
        &mut grants.identity_router,
        steps.identity_router.as_slice(),
    )?;
    take_steps(&mut grants.service_router, steps.service_router.as_slice())?;
    Ok(())
}
