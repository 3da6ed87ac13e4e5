use std::alloc::AllocError;
use thiserror::Error;

/// Why bytes are no row and no batch.
#[derive(Clone, Copy, Debug, PartialEq, Eq, Error)]
pub enum RowFault {
    /// The key and the value spell no row.
    #[error("the bytes are no row")]
    BadRow,
    /// The bytes spell no batch.
    #[error("the bytes are no batch")]
    BadBatch,
    /// There is no memory for what they spell.
    #[error("no memory")]
    NoMemory,
}

impl From<AllocError> for RowFault {
    ghost use Rattle.std.specs.Prelude.{◌≡◌};
    ghost use Rattle.row_codec.specs.declared.faults.RowFault.TheVariants.{NoMemory};

    ghost from_gives = { λ _ e. e ≡ NoMemory };

    fn from(_error: AllocError) -> RowFault {
        RowFault::NoMemory
    }
}
