ghost use Rattle.std.specs.Prelude.{◌≡◌};
ghost use Rattle.policy_store.specs.StepsOfRelations.{HasNoSteps, only_rise, takes_nothing};

use grant_denorm::Delta;
use std::alloc::Global;

/// The steps that the grant counts of each relation take.
#[derive(Drop)]
pub struct GrantSteps {
    pub dial: Vec<Delta>,
    pub bind: Vec<Delta>,
    pub identity_router: Vec<Delta>,
    pub service_router: Vec<Delta>,
}

impl GrantSteps {
    /// No steps.
    pub fn none(alloc: Global) -> GrantSteps
        ensures { HasNoSteps result }
    {
        GrantSteps {
            dial: Vec::new(alloc),
            bind: Vec::new(alloc),
            identity_router: Vec::new(alloc),
            service_router: Vec::new(alloc),
        }
    }

    /// Whether the steps take from no count.
    pub fn takes_nothing(&self) -> bool
        ensures { result ≡ takes_nothing self.now }
    {
        only_rise(self.dial.as_slice())
            && only_rise(self.bind.as_slice())
            && only_rise(self.identity_router.as_slice())
            && only_rise(self.service_router.as_slice())
    }
}

// Whether no step goes down.
fn only_rise(steps: &[Delta]) -> bool
    ensures { result ≡ only_rise steps.now }
{
    steps.iter().all(|step| step.up)
}
