ghost use Rattle.std.specs.Prelude.{IfSome};
ghost use Rattle.channel_frame.specs.FrameSpelling.{KeepsLimits};

use crate::checks::are_bytes;
use crate::samples::REPLY;
use channel_frame::{Frame, encode, read_frame, read_head};
use std::alloc::Global;
use std::test::Fail;

// The frame that the bytes are, where they have the length that their head announces.
fn frame_of(alloc: Global, bytes: &[u8]) -> Option<Frame>
    ensures { IfSome result (λ f. KeepsLimits f) }
{
    let first = bytes.first_chunk::<20>()?;
    let head = read_head(first).ok()?;
    if bytes.len() != 20 + head.headers_len as usize + head.body_len as usize {
        return None;
    }
    read_frame(alloc, bytes).ok()
}

#[test]
fn a_frame_is_read_and_spelled_again(rt: HostRuntime) -> Result<(), Fail> {
    let reply = frame_of(rt.alloc(), REPLY).ok_or("the bytes are a reply")?;
    let again = encode(rt.alloc(), &reply)?;
    are_bytes(&rt, again.as_slice(), REPLY);
    Ok(())
}
