use channel_frame::Frame;
use ctrl_model::Who;
use std::alloc::AllocError;
use thiserror::Error;

/// What happens to sessions, in the order in which the bytes of the input decide it.
#[derive(Drop)]
pub enum Event {
    /// A trace opened a session.
    Opened { session: u8, who: Who },
    /// The last byte of a session's frame came.
    Arrived { session: u8, frame: Frame },
    /// A session's bytes have a fault, 1, 2 or 3, and the faulty frame's first byte has this place among them, from 0.
    Ended { session: u8, fault: u8, at: u64 },
    /// A trace closed a session, of which an unfinished frame of so many bytes is left.
    Closed { session: u8, rest: u32 },
}

/// Why there is no next event.
#[derive(Clone, Copy, Debug, PartialEq, Eq, Error)]
pub enum MuxFault {
    /// A bad record begins at this place of the input.
    #[error("a bad record begins at {at}")]
    BadRecord { at: u64 },
    /// There is no memory.
    #[error("no memory")]
    NoMemory,
}

impl From<AllocError> for MuxFault {
    ghost use Rattle.std.specs.Prelude.{◌≡◌};
    ghost use Rattle.session_mux.specs.declared.events.MuxFault.TheVariants.{NoMemory};

    ghost from_gives = { λ _ e. e ≡ NoMemory };

    fn from(_error: AllocError) -> MuxFault {
        MuxFault::NoMemory
    }
}
