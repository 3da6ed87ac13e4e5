ghost use Rattle.std.specs.Prelude.{◌≡◌, ◌∷◌, IfOk, OnErr};
ghost use Rattle.trace_lines.specs.TaggedReplies.{reply_front, IsWholeReply};

use channel_frame::{Frame, FrameFault, Front, front_of};
use std::alloc::{AllocError, Global};

/// What stands at the front of tagged replies.
#[derive(Drop)]
pub enum ReplyFront {
    /// Less than a reply.
    Unfinished,
    /// No byte 4.
    Untagged,
    /// No frame behind the tag.
    Faulty(FrameFault),
    /// A session, the frame of a reply to it, and how many bytes they take with their tag.
    Whole(u8, Frame, u64),
}

// What stands behind a byte 4 and a session.
fn behind_tag(alloc: Global, session: u8, bytes: &[u8]) -> Result<ReplyFront, AllocError>
    ensures front { IfOk result (λ f. f ≡ reply_front (4 ∷ session ∷ bytes.now)) }
    ensures memory { OnErr result (IsWholeReply (4 ∷ session ∷ bytes.now)) }
{
    match front_of(alloc, bytes)? {
        Front::Short => Ok(ReplyFront::Unfinished),
        Front::Bad(fault) => Ok(ReplyFront::Faulty(fault)),
        Front::Whole(frame, len) => Ok(ReplyFront::Whole(session, frame, len + 2)),
    }
}

/// What stands at the front of some bytes. Memory is wanted only where a whole reply stands there.
pub fn reply_front(alloc: Global, bytes: &[u8]) -> Result<ReplyFront, AllocError>
    ensures front { IfOk result (λ f. f ≡ reply_front bytes.now) }
    ensures memory { OnErr result (IsWholeReply bytes.now) }
{
    match bytes {
        [] => Ok(ReplyFront::Unfinished),
        [4] => Ok(ReplyFront::Unfinished),
        [4, session, frame @ ..] => behind_tag(alloc, *session, frame),
        _ => Ok(ReplyFront::Untagged),
    }
}
