ghost use Rattle.std.specs.Prelude.{◌≡◌};
ghost use Rattle.ship_core.specs.Faults.{of_store};

use row_store::StoreFault;
use std::alloc::AllocError;
use thiserror::Error;
use ziti_outside::Part;

/// Why a folder was not shipped, or not to its end.
#[derive(Clone, Copy, Debug, PartialEq, Eq, Error)]
pub enum ShipFault {
    /// A call on the disk failed; the count of its faults has risen.
    #[error("a call on the disk failed")]
    Disk,
    /// A say failed; the count of their faults has risen.
    #[error("a reply was not taken")]
    Write,
    /// The folder opens to no state.
    #[error("the folder is damaged at {at} of a slot")]
    Damaged {
        /// The slot.
        part: Part,
        /// The place in it.
        at: u64,
    },
    /// There is no memory.
    #[error("no memory")]
    NoMemory,
}

impl From<AllocError> for ShipFault {
    ghost use Rattle.std.specs.Prelude.{◌≡◌};
    ghost use Rattle.ship_core.specs.declared.faults.ShipFault.TheVariants.{NoMemory};

    ghost from_gives = { λ _ e. e ≡ NoMemory };

    fn from(_error: AllocError) -> ShipFault {
        ShipFault::NoMemory
    }
}

// The fault of a store as one of shipping.
pub(crate) fn of_store(fault: StoreFault) -> ShipFault
    ensures { result ≡ of_store fault }
{
    match fault {
        StoreFault::Disk => ShipFault::Disk,
        StoreFault::Damaged { part, at } => ShipFault::Damaged { part, at },
        StoreFault::Full => ShipFault::NoMemory,
        StoreFault::MarkFull => ShipFault::NoMemory,
        StoreFault::Spent => ShipFault::NoMemory,
        StoreFault::NoMemory => ShipFault::NoMemory,
    }
}
