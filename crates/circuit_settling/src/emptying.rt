ghost use Rattle.std.specs.Prelude.{◌≡◌, IfOk};
ghost use Rattle.ctrl_model.specs.declared.kinds.Relation.{Relation};
ghost use Rattle.grant_denorm.specs.CountsAfter.{count_after};
ghost use Rattle.policy_store.specs.StepsOfRelations.{steps_of};
ghost use Rattle.circuit_settling.specs.EmptiedPairs.{TellEmptied, counts_after, empties, has_no_pair, pairs_of};

use crate::granting::GrantsAfter;
use grant_denorm::{Counted, CountedAfter, Delta};
use policy_store::GrantSteps;
use std::alloc::{AllocError, Global};

/// Pairs of each relation, each of which is told by a count above 0.
#[derive(Drop)]
pub struct Pairs {
    pub dial: Counted,
    pub bind: Counted,
    pub identity_router: Counted,
    pub service_router: Counted,
}

// Whether a step goes down at a pair that has no count after all steps, and that some counts do not tell yet.
fn empties(after: &CountedAfter, pairs: &Counted, step: &Delta) -> bool
    ensures { result ≡ empties (count_after after.now) pairs.now step.now }
{
    !step.up && after.count(step.a, step.b) == 0 && pairs.count(step.a, step.b) == 0
}

// The pairs at which some steps go down and that have no count after all steps, each told by a count above 0.
fn emptied(alloc: Global, after: &CountedAfter, steps: &[Delta]) -> Result<Counted, AllocError>
    ensures { IfOk result (TellEmptied steps.now (count_after after.now)) }
{
    let mut pairs = Counted::new(alloc);
    'steps: for step in steps {
        if empties(after, &pairs, step) {
            pairs.raise(step.a, step.b)?;
        }
    }
    Ok(pairs)
}

/// The pairs of each relation at which some steps go down and that have no count by some counts: each has a count above 0, and no other pair
/// has. An Err is want of memory.
pub fn emptied_pairs(
    alloc: Global,
    after: &GrantsAfter,
    steps: &GrantSteps,
) -> Result<Pairs, AllocError>
    ensures { IfOk result (λ pairs. (r : Relation) → TellEmptied (steps_of r steps.now) (counts_after r after.now) (pairs_of r pairs)) }
{
    Ok(Pairs {
        dial: emptied(alloc, &after.dial, steps.dial.as_slice())?,
        bind: emptied(alloc, &after.bind, steps.bind.as_slice())?,
        identity_router: emptied(
            alloc,
            &after.identity_router,
            steps.identity_router.as_slice(),
        )?,
        service_router: emptied(
            alloc,
            &after.service_router,
            steps.service_router.as_slice(),
        )?,
    })
}

/// Whether no pair of any relation has a count.
pub fn has_no_pair(pairs: &Pairs) -> bool
    ensures { result ≡ has_no_pair pairs.now }
{
    pairs.dial.pairs() == 0
        && pairs.bind.pairs() == 0
        && pairs.identity_router.pairs() == 0
        && pairs.service_router.pairs() == 0
}
