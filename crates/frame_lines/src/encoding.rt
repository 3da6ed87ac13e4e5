ghost use Rattle.std.specs.Prelude.{◌≡◌, ◌++◌, ◌≤◌, OnOk, IfOk, length};
ghost use Rattle.channel_frame.specs.FrameSpelling.{spelling, longest_body};
ghost use Rattle.frame_lines.specs.TextReading.{frame_of, next_after, bytes_said, fault_said};
ghost use Rattle.frame_lines.specs.LineTurns.{TakesLine};

use crate::cutting::cut_line;
use crate::lines::{Line, LineCause, LineFault};
use crate::reading::{passes, read_line};
use channel_frame::{Frame, Headers};
use ctrl_model::Bytes;
use std::alloc::{AllocError, Global};

/// The frames of a text's lines, joined, and the first line that says none. Then the frames are those of the lines before it.
#[derive(Drop)]
pub struct Encoded {
    pub bytes: Bytes,
    pub fault: Option<LineFault>,
}

/// Puts the frame of a line down, where this sequence number comes next. Answers the one that comes then.
pub fn put_frame(alloc: Global, out: &mut Vec<u8>, next: u32, line: Line) -> Result<u32, AllocError>
    requires { length line.body ≤ longest_body }
    ensures bytes { OnOk result (out.new.items ≡ out.old.items ++ spelling (frame_of next line)) }
    ensures next { IfOk result (λ n. n ≡ next_after (frame_of next line).sequence) }
{
    let frame = Frame {
        content: line.content,
        sequence: line.sequence.unwrap_or(next),
        headers: Headers::of(Vec::new(alloc)),
        body: line.body,
    };
    channel_frame::encode_behind(out, &frame)?;
    Ok(frame.sequence.wrapping_add(1))
}

// Puts the frame of a line down, unless the line passes. Answers the sequence number that comes next.
fn take_line(
    alloc: Global,
    out: &mut Vec<u8>,
    next: u32,
    line: &[u8],
) -> Result<Result<u32, LineCause>, AllocError>
    ensures { IfOk result (λ turn. TakesLine next line.now out.old.items out.new.items turn) }
{
    if passes(line) {
        return Ok(Ok(next));
    }
    match read_line(alloc, line)? {
        Ok(said) => Ok(Ok(put_frame(alloc, out, next, said)?)),
        Err(cause) => Ok(Err(cause)),
    }
}

/// The frames that a text says, a frame for each line that does not pass, up to the first line that says none.
pub fn encode(alloc: Global, text: &[u8]) -> Result<Encoded, AllocError>
    ensures bytes { IfOk result (λ e. e.bytes ≡ bytes_said text.now) }
    ensures fault { IfOk result (λ e. e.fault ≡ fault_said text.now) }
{
    let mut out = Vec::new(alloc);
    let mut next = 1u32;
    let mut number = 1u64;
    let mut rest = text;
    'lines: while !rest.is_empty() {
        let (line, after) = cut_line(rest);
        match take_line(alloc, &mut out, next, line)? {
            Ok(then) => next = then,
            Err(cause) => return Ok(Encoded {
                bytes: Bytes::of(out),
                fault: Some(LineFault {
                    line: number,
                    cause,
                }),
            }),
        }
        number += 1;
        rest = after;
    }
    Ok(Encoded {
        bytes: Bytes::of(out),
        fault: None,
    })
}
