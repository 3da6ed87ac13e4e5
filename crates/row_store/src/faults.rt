ghost use Rattle.std.specs.Prelude.{◌≡◌};
ghost use Rattle.row_store.specs.Faults.{in_part};

use journal_core::JournalFault;
use std::alloc::AllocError;
use thiserror::Error;
use ziti_outside::{Failed, Part};

/// Why a call on a store failed.
#[derive(Clone, Copy, Debug, PartialEq, Eq, Error)]
pub enum StoreFault {
    /// A call on the disk failed; the count of its faults has risen.
    #[error("a call on the disk failed")]
    Disk,
    /// The slot would pass its bound.
    #[error("the journal is full")]
    Full,
    /// The folder opens to no rows.
    #[error("the folder is damaged at {at} of a slot")]
    Damaged {
        /// The slot.
        part: Part,
        /// The place in it.
        at: u64,
    },
    /// The mark has as many bytes as it may have.
    #[error("the mark is full")]
    MarkFull,
    /// An earlier call failed on the disk, or there was no memory behind it.
    #[error("the store is spent")]
    Spent,
    /// There is no memory.
    #[error("no memory")]
    NoMemory,
}

impl From<AllocError> for StoreFault {
    ghost use Rattle.std.specs.Prelude.{◌≡◌};
    ghost use Rattle.row_store.specs.declared.faults.StoreFault.TheVariants.{NoMemory};

    ghost from_gives = { λ _ e. e ≡ NoMemory };

    fn from(_error: AllocError) -> StoreFault {
        StoreFault::NoMemory
    }
}

impl From<Failed> for StoreFault {
    ghost use Rattle.std.specs.Prelude.{◌≡◌};
    ghost use Rattle.row_store.specs.declared.faults.StoreFault.TheVariants.{Disk};

    ghost from_gives = { λ _ e. e ≡ Disk };

    fn from(_failed: Failed) -> StoreFault {
        StoreFault::Disk
    }
}

// A fault of a slot, told of the part in which it is.
pub(crate) fn in_part(part: Part, fault: JournalFault) -> StoreFault
    ensures { result ≡ in_part part fault }
{
    match fault {
        JournalFault::Disk => StoreFault::Disk,
        JournalFault::Full => StoreFault::Full,
        JournalFault::Damaged { at } => StoreFault::Damaged { part, at },
        JournalFault::NoMemory => StoreFault::NoMemory,
    }
}
