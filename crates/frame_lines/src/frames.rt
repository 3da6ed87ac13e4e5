ghost use Rattle.std.specs.Prelude.{◌≡◌};
ghost use Rattle.frame_lines.specs.LineKinds.{turn_by};

use crate::kinds::{LineKind, Turn};
use crate::telling::put_line;
use crate::told::{DecodeCause, TellCause};
use channel_frame::{Front, front_of};
use std::alloc::{AllocError, Global};

/// Frames, one behind another.
pub struct Frames;

/// What became of a whole item of so many bytes, whose line was put down or does not exist.
pub fn turn_by(put: Result<(), TellCause>, len: u64) -> Turn
    ensures { result ≡ turn_by put len }
{
    match put {
        Ok(()) => Turn::Told(len),
        Err(cause) => Turn::Ended(DecodeCause::Untold(cause)),
    }
}

impl LineKind for Frames {
    ghost use Rattle.frame_lines.specs.TextTelling.{framed};

    ghost reading = { framed };

    fn put_first(
        alloc: Global,
        out: &mut Vec<u8>,
        at: u64,
        bytes: &[u8],
    ) -> Result<Turn, AllocError> {
        match front_of(alloc, bytes)? {
            Front::Short => Ok(Turn::Short),
            Front::Bad(fault) => Ok(Turn::Ended(DecodeCause::Bad(fault, at))),
            Front::Whole(frame, len) => {
                let put = put_line(alloc, out, &frame)?;
                Ok(turn_by(put, len))
            }
        }
    }

    fn in_order() {}
}
