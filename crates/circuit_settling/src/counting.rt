ghost use Rattle.std.specs.Prelude.{IfOk, OnOk};
ghost use Rattle.ctrl_model.specs.declared.kinds.Relation.{Relation};
ghost use Rattle.grant_denorm.specs.TakenSteps.{HaveRoom, Taken};
ghost use Rattle.policy_store.specs.StepsOfRelations.{steps_of};
ghost use Rattle.circuit_settling.specs.EmptiedPairs.{counts_after, pairs_before, pairs_of};

use crate::granting::GrantsAfter;
use grant_denorm::{Counted, CountedAfter};
use policy_store::GrantSteps;
use std::alloc::{AllocError, Global};

// Says which steps are taken of the counts of each relation.
fn set_steps(alloc: Global, grants: &mut GrantsAfter, steps: &GrantSteps) -> Result<(), AllocError>
    requires { (r : Relation) → HaveRoom (pairs_of r (pairs_before grants.old)) (steps_of r steps.now) }
    ensures { OnOk result ((r : Relation) → Taken (pairs_of r (pairs_before grants.old)) (counts_after r grants.new) (steps_of r steps.now)) }
{
    grants.dial.set_steps(alloc, steps.dial.as_slice())?;
    grants.bind.set_steps(alloc, steps.bind.as_slice())?;
    grants
        .identity_router
        .set_steps(alloc, steps.identity_router.as_slice())?;
    grants
        .service_router
        .set_steps(alloc, steps.service_router.as_slice())
}

/// The grant counts of the four relations once some steps are taken. No pair may have more steps down than its count, nor so many up that its
/// count passes 4,294,967,295. An Err is want of memory.
pub fn grants_after<'a>(
    alloc: Global,
    dial: &'a Counted,
    bind: &'a Counted,
    identity_router: &'a Counted,
    service_router: &'a Counted,
    steps: &GrantSteps,
) -> Result<GrantsAfter<'a>, AllocError>
    requires { (r : Relation) → HaveRoom (pairs_of r (record { dial = dial.now; bind = bind.now; identity_router = identity_router.now; service_router = service_router.now })) (steps_of r steps.now) }
    ensures { IfOk result (λ after. (r : Relation)
        → Taken (pairs_of r (record { dial = dial.now; bind = bind.now; identity_router = identity_router.now; service_router = service_router.now })) (counts_after r after) (steps_of r steps.now)) }
{
    let mut grants = GrantsAfter {
        dial: CountedAfter::unchanged(alloc, dial),
        bind: CountedAfter::unchanged(alloc, bind),
        identity_router: CountedAfter::unchanged(alloc, identity_router),
        service_router: CountedAfter::unchanged(alloc, service_router),
    };
    set_steps(alloc, &mut grants, steps)?;
    Ok(grants)
}
