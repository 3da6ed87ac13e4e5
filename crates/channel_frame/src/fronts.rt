ghost use Rattle.std.specs.Prelude.{◌≡◌, ◌≢◌, ◌≤◌, Ok, Some, IfOk, OnErr, length};
ghost use Rattle.channel_frame.specs.declared.frames.Front.TheVariants.{Bad};
ghost use Rattle.channel_frame.specs.StreamReading.{front, frame_len, head_of};
ghost use Rattle.channel_frame.specs.AnnouncedFrames.{first_head, IsWholeFront};

use crate::decoding::{read_frame_with, read_head};
use crate::frames::{FrameFault, Front, HEAD, Head};
use std::alloc::{AllocError, Global};

fn bad_front(fault: FrameFault) -> Result<Front, AllocError>
    ensures front { IfOk result (λ f. (fault ≢ FrameFault.NoMemory) × (f ≡ Bad fault)) }
    ensures memory { OnErr result (fault ≡ FrameFault.NoMemory) }
{
    match fault {
        FrameFault::NoMemory => Err(AllocError),
        _ => Ok(Front::Bad(fault)),
    }
}

/// The head of the frame at the front of some bytes.
///
/// None is known where fewer bytes than a head are there. `BadMarker` and `TooLong` come exactly where the head has them, as
/// `read_head` says.
pub fn head_at_front(bytes: &[u8]) -> Result<Option<Head>, FrameFault>
    ensures { result ≡ first_head bytes.now }
{
    let Some(first) = bytes.first_chunk::<HEAD>() else {
        return Ok(None);
    };
    match read_head(first) {
        Ok(head) => Ok(Some(head)),
        Err(fault) => Err(fault),
    }
}

/// What stands at the front of some bytes of which the head was read, so that it is not decoded again.
///
/// Memory is wanted only where a whole frame stands there.
pub fn front_with(alloc: Global, head: Head, bytes: &[u8]) -> Result<Front, AllocError>
    requires { first_head bytes.now ≡ Ok (Some head) }
    ensures front { IfOk result (λ f. f ≡ front bytes.now) }
    ensures memory { OnErr result (IsWholeFront bytes.now) }
{
    let len = HEAD + head.headers_len as usize + head.body_len as usize;
    if bytes.len() < len {
        return Ok(Front::Short);
    }
    let (whole, _) = bytes.split_at(len);
    match read_frame_with(alloc, head, whole) {
        Ok(frame) => Ok(Front::Whole(frame, len as u64)),
        Err(fault) => bad_front(fault),
    }
}

/// What stands at the front of some bytes: an unfinished frame, a fault, or a whole frame with how many bytes it takes.
///
/// Memory is wanted only where a whole frame stands there (docs/FORMATS.md, "Channel frame").
pub fn front_of(alloc: Global, bytes: &[u8]) -> Result<Front, AllocError>
    ensures front { IfOk result (λ f. f ≡ front bytes.now) }
    ensures memory { OnErr result (IsWholeFront bytes.now) }
{
    match head_at_front(bytes) {
        Ok(None) => Ok(Front::Short),
        Ok(Some(head)) => front_with(alloc, head, bytes),
        Err(fault) => Ok(Front::Bad(fault)),
    }
}
