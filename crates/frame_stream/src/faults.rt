ghost use Rattle.std.specs.Prelude.{◌≡◌};
ghost use Rattle.frame_stream.specs.StreamSteps.{fault_number as number_of};

use channel_frame::FrameFault;
use std::alloc::AllocError;
use thiserror::Error;

/// Why a session's bytes give no frame.
#[derive(Clone, Copy, Debug, PartialEq, Eq, Error)]
pub enum StreamFault {
    /// The bytes have a fault, 1, 2 or 3, and the faulty frame's first byte has this place among them, from 0.
    #[error("the session's bytes have the fault {fault} at {at}")]
    Bad { fault: u8, at: u64 },
    /// There is no memory for the frame.
    #[error("no memory")]
    NoMemory,
}

impl From<AllocError> for StreamFault {
    ghost use Rattle.std.specs.Prelude.{◌≡◌};
    ghost use Rattle.frame_stream.specs.declared.faults.StreamFault.TheVariants.{NoMemory};

    ghost from_gives = { λ _ e. e ≡ NoMemory };

    fn from(_error: AllocError) -> StreamFault {
        StreamFault::NoMemory
    }
}

/// The number by which a fault is told.
pub(crate) fn fault_number(fault: FrameFault) -> u8
    ensures { result ≡ number_of fault }
{
    match fault {
        FrameFault::BadMarker => 1,
        FrameFault::TooLong => 2,
        FrameFault::BadHeaders => 3,
        FrameFault::NoMemory => 0,
    }
}
