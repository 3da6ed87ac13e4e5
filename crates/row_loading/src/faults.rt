use state_building::Flaw;
use std::alloc::AllocError;
use thiserror::Error;

/// Why rows give no core.
#[derive(Clone, Copy, Debug, PartialEq, Eq, Error)]
pub enum CoreFault {
    /// They are not all rows of a valid state: the place, counted from 0, of the first row that cannot be the next one, or that behind the
    /// last row where a count has none; and why.
    #[error("row {place} is none of a valid state: {flaw}")]
    NotAState { place: u64, flaw: Flaw },
    /// There is no memory.
    #[error("no memory")]
    NoMemory,
}

impl From<AllocError> for CoreFault {
    ghost use Rattle.std.specs.Prelude.{◌≡◌};
    ghost use Rattle.row_loading.specs.declared.faults.CoreFault.TheVariants.{NoMemory};

    ghost from_gives = { λ _ e. e ≡ NoMemory };

    fn from(_error: AllocError) -> CoreFault {
        CoreFault::NoMemory
    }
}
