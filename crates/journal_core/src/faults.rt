use std::alloc::AllocError;
use thiserror::Error;
use ziti_outside::Failed;

/// Why a call on a slot failed.
#[derive(Clone, Copy, Debug, PartialEq, Eq, Error)]
pub enum JournalFault {
    /// A call on the disk failed; the count of its faults has risen.
    #[error("a call on the disk failed")]
    Disk,
    /// The record would pass the bound of the slot.
    #[error("the slot is full")]
    Full,
    /// No gate stands at this place of the part, or the record behind it passes the part's end.
    #[error("the slot is damaged at {at}")]
    Damaged {
        /// The place of the gate.
        at: u64,
    },
    /// There is no memory for the record.
    #[error("no memory")]
    NoMemory,
}

impl From<Failed> for JournalFault {
    ghost use Rattle.std.specs.Prelude.{◌≡◌};
    ghost use Rattle.journal_core.specs.declared.faults.JournalFault.TheVariants.{Disk};

    ghost from_gives = { λ _ e. e ≡ Disk };

    fn from(_failed: Failed) -> JournalFault {
        JournalFault::Disk
    }
}

impl From<AllocError> for JournalFault {
    ghost use Rattle.std.specs.Prelude.{◌≡◌};
    ghost use Rattle.journal_core.specs.declared.faults.JournalFault.TheVariants.{NoMemory};

    ghost from_gives = { λ _ e. e ≡ NoMemory };

    fn from(_error: AllocError) -> JournalFault {
        JournalFault::NoMemory
    }
}
