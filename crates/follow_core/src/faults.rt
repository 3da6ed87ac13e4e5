use std::alloc::AllocError;
use thiserror::Error;
use ziti_outside::Part;

/// Why a folder was not opened, or a frame not taken.
#[derive(Clone, Copy, Debug, PartialEq, Eq, Error)]
pub enum FollowFault {
    /// A call on the disk failed; the count of its faults has risen.
    #[error("a call on the disk failed")]
    Disk,
    /// The folder is of the first format, and its other slot has no room for its rows.
    #[error("no room in the other slot")]
    Full,
    /// The folder is of the first format, and its mark has no room for a byte.
    #[error("no room in the mark")]
    MarkFull,
    /// The folder opens to no state.
    #[error("the folder is damaged at {at} of a slot")]
    Damaged {
        /// The slot.
        part: Part,
        /// The place in it.
        at: u64,
    },
    /// An earlier call failed on the disk, or there was no memory behind it.
    #[error("the follower is spent")]
    Spent,
    /// There is no memory.
    #[error("no memory")]
    NoMemory,
}

impl From<AllocError> for FollowFault {
    ghost use Rattle.std.specs.Prelude.{◌≡◌};
    ghost use Rattle.follow_core.specs.declared.faults.FollowFault.TheVariants.{NoMemory};

    ghost from_gives = { λ _ e. e ≡ NoMemory };

    fn from(_error: AllocError) -> FollowFault {
        FollowFault::NoMemory
    }
}
