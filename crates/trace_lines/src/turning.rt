ghost use Rattle.std.specs.Prelude.{◌≡◌, ◌++◌, ◌≤◌, OnOk, IfOk, length};
ghost use Rattle.channel_frame.specs.FrameSpelling.{spelling, longest_body};
ghost use Rattle.trace_lines.specs.declared.said.Said.TheVariants.{Opens, Sends, Closes};
ghost use Rattle.trace_lines.specs.TraceTurns.{HasShortBody, TakesSaid, TakesLine};

use crate::cutting::put_pieces;
use crate::reading::read_trace_line;
use crate::records::{put_close, put_open};
use crate::said::{Said, TraceCause};
use crate::seats::{Seat, Seats};
use ctrl_model::Who;
use frame_lines::{Line, passes, put_frame};
use std::alloc::{AllocError, Global};

// A session is opened by someone, unless it was opened before.
fn take_open(
    out: &mut Vec<u8>,
    session: u8,
    who: Who,
    seat: Seat,
) -> Result<Result<Seat, TraceCause>, AllocError>
    ensures { IfOk result (λ turn. TakesSaid session (Opens who) seat out.old.items out.new.items turn) }
{
    match seat {
        Seat::Unopened => {
            put_open(out, session, &who)?;
            Ok(Ok(Seat::Opened(1)))
        }
        _ => Ok(Err(TraceCause::OpenedBefore)),
    }
}

// A session sends the frame of a line, where it is open.
fn take_frame(
    alloc: Global,
    out: &mut Vec<u8>,
    session: u8,
    line: Line,
    seat: Seat,
) -> Result<Result<Seat, TraceCause>, AllocError>
    requires { length line.body ≤ longest_body }
    ensures { IfOk result (λ turn. TakesSaid session (Sends line) seat out.old.items out.new.items turn) }
{
    match seat {
        Seat::Opened(next) => {
            let mut frame = Vec::new(alloc);
            let then = put_frame(alloc, &mut frame, next, line)?;
            put_pieces(out, session, frame.as_slice())?;
            Ok(Ok(Seat::Opened(then)))
        }
        _ => Ok(Err(TraceCause::NotOpen)),
    }
}

// A session is closed, where it is open.
fn take_close(
    out: &mut Vec<u8>,
    session: u8,
    seat: Seat,
) -> Result<Result<Seat, TraceCause>, AllocError>
    ensures { IfOk result (λ turn. TakesSaid session Closes seat out.old.items out.new.items turn) }
{
    match seat {
        Seat::Opened(_) => {
            put_close(out, session)?;
            Ok(Ok(Seat::Closed))
        }
        _ => Ok(Err(TraceCause::NotOpen)),
    }
}

// Puts down what is said of a session that stands there. Answers where it stands then.
fn take_said(
    alloc: Global,
    out: &mut Vec<u8>,
    session: u8,
    said: Said,
    seat: Seat,
) -> Result<Result<Seat, TraceCause>, AllocError>
    requires { HasShortBody said }
    ensures { IfOk result (λ turn. TakesSaid session said seat out.old.items out.new.items turn) }
{
    match said {
        Said::Opens(who) => take_open(out, session, who, seat),
        Said::Sends(line) => take_frame(alloc, out, session, line, seat),
        Said::Closes => take_close(out, session, seat),
    }
}

/// Puts the records of a line down, unless it passes, and moves its session on.
pub fn take_line(
    alloc: Global,
    out: &mut Vec<u8>,
    seats: &mut Seats,
    line: &[u8],
) -> Result<Result<(), TraceCause>, AllocError>
    ensures { IfOk result (λ turn. TakesLine seats.old seats.new line.now out.old.items out.new.items turn) }
{
    if passes(line) {
        return Ok(Ok(()));
    }
    let said = match read_trace_line(alloc, line)? {
        Ok(said) => said,
        Err(cause) => return Ok(Err(cause)),
    };
    let session = said.session;
    match take_said(alloc, out, session, said.said, seats.at(session))? {
        Ok(seat) => seats.put(session, seat),
        Err(cause) => return Ok(Err(cause)),
    }
    Ok(Ok(()))
}
