ghost use Rattle.std.specs.Prelude.{◌≡◌, ◌++◌, IfOk, OnOk, codes, decimal};
ghost use Rattle.frame_lines.specs.FrameTurns.{PutsLine};
ghost use Rattle.trace_lines.specs.TaggedReplies.{reply_line, replies_told, replies_fault};

use crate::fronts::{ReplyFront, reply_front};
use channel_frame::Frame;
use frame_lines::{DecodeCause, Decoded, LineKind, TellCause, Turn, put_line, tell_all, turn_by};
use std::alloc::{AllocError, Global};

/// Tagged replies, one behind another.
pub struct Replies;

// Puts a line down with a session in front.
fn put_with_session(
    alloc: Global,
    out: &mut Vec<u8>,
    session: u8,
    line: &[u8],
) -> Result<(), AllocError>
    ensures { OnOk result (out.new.items ≡ out.old.items ++ (decimal session ++ (codes " " ++ line.now))) }
{
    let front = format!(in alloc; "{session} ")?;
    out.extend_from_slice(front.as_bytes())?;
    out.extend_from_slice(line)
}

// Puts the line of a reply down with its newline, or answers why no line tells it.
fn put_reply(
    alloc: Global,
    out: &mut Vec<u8>,
    session: u8,
    frame: &Frame,
) -> Result<Result<(), TellCause>, AllocError>
    ensures { IfOk result (λ put. PutsLine (reply_line (session, frame.now)) out.old.items out.new.items put) }
{
    let mut line = Vec::new(alloc);
    let put = put_line(alloc, &mut line, frame)?;
    match put {
        Ok(()) => {
            put_with_session(alloc, out, session, line.as_slice())?;
            Ok(Ok(()))
        }
        Err(cause) => Ok(Err(cause)),
    }
}

impl LineKind for Replies {
    ghost use Rattle.trace_lines.specs.TaggedReplies.{tagged};

    ghost reading = { tagged };

    fn put_first(
        alloc: Global,
        out: &mut Vec<u8>,
        at: u64,
        bytes: &[u8],
    ) -> Result<Turn, AllocError> {
        match reply_front(alloc, bytes)? {
            ReplyFront::Unfinished => Ok(Turn::Short),
            ReplyFront::Untagged => Ok(Turn::Ended(DecodeCause::NoTag(at))),
            ReplyFront::Faulty(fault) => Ok(Turn::Ended(DecodeCause::Bad(fault, at))),
            ReplyFront::Whole(session, frame, len) => {
                let put = put_reply(alloc, out, session, &frame)?;
                Ok(turn_by(put, len))
            }
        }
    }

    fn in_order() {}
}

/// The lines that tell tagged replies, a line for each, up to the first that no line tells or that is no whole reply.
pub fn tell_replies(alloc: Global, bytes: &[u8]) -> Result<Decoded, AllocError>
    ensures text { IfOk result (λ t. t.text ≡ replies_told bytes.now) }
    ensures fault { IfOk result (λ t. t.fault ≡ replies_fault bytes.now) }
{
    tell_all::<Replies>(alloc, bytes)
}
