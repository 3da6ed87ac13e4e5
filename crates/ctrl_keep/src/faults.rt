ghost use Rattle.std.specs.Prelude.{◌≡◌};
ghost use Rattle.ctrl_keep.specs.Faults.{fault_of};

use row_store::StoreFault;
use std::alloc::AllocError;
use thiserror::Error;
use ziti_outside::Part;

/// Why a call on a kept controller failed.
#[derive(Clone, Copy, Debug, PartialEq, Eq, Error)]
pub enum KeepFault {
    /// A call on the disk failed; the count of its faults has risen.
    #[error("a call on the disk failed")]
    Disk,
    /// The folder is of the first format, and its other slot has no room for its rows.
    #[error("no room in the other slot")]
    Full,
    /// The folder is of the first format, and its mark has no room for a byte.
    #[error("no room in the mark")]
    MarkFull,
    /// The folder opens to no state.
    #[error("the folder is damaged at {at} of a slot")]
    Damaged {
        /// The slot.
        part: Part,
        /// The place in it.
        at: u64,
    },
    /// An earlier call failed on the disk, or there was no memory behind it.
    #[error("the controller is spent")]
    Spent,
    /// There is no memory.
    #[error("no memory")]
    NoMemory,
}

impl From<AllocError> for KeepFault {
    ghost use Rattle.std.specs.Prelude.{◌≡◌};
    ghost use Rattle.ctrl_keep.specs.declared.faults.KeepFault.TheVariants.{NoMemory};

    ghost from_gives = { λ _ e. e ≡ NoMemory };

    fn from(_error: AllocError) -> KeepFault {
        KeepFault::NoMemory
    }
}

/// The fault that a store's fault is, where it is not told of as a reply.
pub(crate) fn fault_of(fault: StoreFault) -> KeepFault
    ensures { result ≡ fault_of fault }
{
    match fault {
        StoreFault::Disk => KeepFault::Disk,
        StoreFault::Full => KeepFault::Full,
        StoreFault::Damaged { part, at } => KeepFault::Damaged { part, at },
        StoreFault::MarkFull => KeepFault::MarkFull,
        StoreFault::Spent => KeepFault::Spent,
        StoreFault::NoMemory => KeepFault::NoMemory,
    }
}
