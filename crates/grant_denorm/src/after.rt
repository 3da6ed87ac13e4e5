ghost use Rattle.std.specs.Prelude.{◌≡◌, ℕ, ◌≤◌, [], IfOk, OnOk, OnErr};
ghost use Rattle.ctrl_model.specs.Limits.{most_number};
ghost use Rattle.grant_denorm.specs.CountsAfter.{count_after, goes, steps_at};
ghost use Rattle.grant_denorm.specs.PairCounts.{count_of};
ghost use Rattle.grant_denorm.specs.TakenSteps.{HaveRoom, Taken};

use crate::counts::Counted;
use crate::deltas::Delta;
use std::alloc::{AllocError, Global};
use std::marker::Model;

/// Counts as they will be once some steps are taken, if there are any. Contracts see the counts and the
/// steps of each pair (`count_after`).
#[derive(Drop)]
pub struct CountedAfter<'a> {
    counted: &'a Counted,
    ups: Counted,
    downs: Counted,
}

impl<'a> Model for CountedAfter<'a> {
    ghost use Rattle.grant_denorm.specs.CountsAfter.{CountsMoved, Fits};

    ghost Value = { CountsMoved };

    ghost view = { λ c. record { before = c.counted.now; up = c.ups; down = c.downs } };

    ghost invariant = { λ c. Fits (record { before = c.counted.now; up = c.ups; down = c.downs }) };
}

// Whether a step goes a way: up, or else down.
fn goes(up: bool, step: &Delta) -> bool
    ensures { result ≡ goes up step.now.up }
{
    if up { step.up } else { !step.up }
}

// How many steps one way each pair has.
fn tally(alloc: Global, steps: &[Delta], up: bool) -> Result<Counted, AllocError>
    requires { (p q : ℕ) → steps_at up steps.now p q ≤ most_number }
    ensures { IfOk result (λ c. (p q : ℕ) → count_of c p q ≡ steps_at up steps.now p q) }
{
    let mut tally = Counted::new(alloc);
    'steps: for step in steps {
        if goes(up, step) {
            tally.raise(step.a, step.b)?;
        }
    }
    Ok(tally)
}

impl<'a> CountedAfter<'a> {
    /// The counts as they are.
    pub fn unchanged(alloc: Global, counted: &'a Counted) -> CountedAfter<'a>
        ensures { result ≡ record { before = counted.now; up = []; down = [] } }
    {
        CountedAfter {
            counted,
            ups: Counted::new(alloc),
            downs: Counted::new(alloc),
        }
    }

    /// The counts once some steps are taken, in any order, in place of those that were to be taken so far. No pair may have more steps
    /// down than its count, nor so many up that its count passes 4,294,967,295. It looks at the steps, and copies no count.
    pub fn set_steps(&mut self, alloc: Global, steps: &[Delta]) -> Result<(), AllocError>
        requires { HaveRoom self.old.before steps.now }
        ensures ok { OnOk result (Taken self.old.before (count_after self.new) steps.now) }
        ensures before { self.new.before ≡ self.old.before }
        ensures err { OnErr result (self.new ≡ self.old) }
    {
        let ups = tally(alloc, steps, true)?;
        let downs = tally(alloc, steps, false)?;
        self.ups = ups;
        self.downs = downs;
        Ok(())
    }

    /// The count that a pair will have, 0 where it will have none.
    pub fn count(&self, a: u32, b: u32) -> u64
        ensures { result ≡ count_after self.now a b }
    {
        let most = u64::from(self.counted.count(a, b)) + u64::from(self.ups.count(a, b));
        most - u64::from(self.downs.count(a, b))
    }
}
