ghost use Rattle.std.specs.Prelude.{◌≡◌, ◌+◌, ◌≤◌};
ghost use Rattle.ctrl_model.specs.declared.kinds.Kind.TheVariants as kind;
ghost use Rattle.ctrl_model.specs.Limits.{limit, most_cost};

use crate::offers::Term;
use std::alloc::AllocError;

/// A terminator as it is kept, with the number of circuits that are open at it.
#[derive(Drop)]
pub struct KeptTerm {
    pub term: Term,
    pub load: u32,
}

impl Clone for KeptTerm {
    ghost use Rattle.std.specs.Prelude.{◌≡◌};

    ghost is_clone = { λ kept copied. copied ≡ kept };

    fn clone(&self) -> Result<KeptTerm, AllocError> {
        let term = self.term.clone()?;
        Ok(KeptTerm {
            term,
            load: self.load,
        })
    }
}

/// What it costs with its load: its static cost, and 1 for each circuit that is open at it.
pub fn cost_of(kept: &KeptTerm) -> u32
    requires cost { kept.now.term.cost ≤ most_cost }
    requires load { kept.now.load ≤ limit kind.Circuit }
    ensures { result ≡ kept.now.term.cost + kept.now.load }
{
    kept.term.cost + kept.load
}
