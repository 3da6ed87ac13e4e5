use thiserror::Error;
use ziti_outside::{Failed, Part};

/// Why a call on the slots of the folder failed.
#[derive(Clone, Copy, Debug, PartialEq, Eq, Error)]
pub enum SlotFault {
    /// A call on the disk failed; the count of its faults has risen.
    #[error("a call on the disk failed")]
    Disk,
    /// The slot that the mark names does not begin as a slot does.
    #[error("the folder is damaged at {at} of a slot")]
    Damaged {
        /// The slot.
        part: Part,
        /// The place in it.
        at: u64,
    },
    /// The mark has as many bytes as it may have.
    #[error("the mark is full")]
    MarkFull,
}

impl From<Failed> for SlotFault {
    ghost use Rattle.std.specs.Prelude.{◌≡◌};
    ghost use Rattle.slot_files.specs.declared.faults.SlotFault.TheVariants.{Disk};

    ghost from_gives = { λ _ e. e ≡ Disk };

    fn from(_failed: Failed) -> SlotFault {
        SlotFault::Disk
    }
}
