ghost use Rattle.std.specs.Prelude.{◌≡◌, IfOk};
ghost use Rattle.std.specs.String.{string_bytes};
ghost use Rattle.trace_lines.specs.TraceTexts.{trace_words, trace_text};

use ctrl_model::Who;
use frame_lines::{Line, LineCause, line_words};
use std::alloc::{AllocError, Global};

/// What a line of a trace says of its session.
#[derive(Drop)]
pub enum Said {
    /// It is opened by someone.
    Opens(Who),
    /// It sends a frame.
    Sends(Line),
    /// It is closed.
    Closes,
}

/// A line of a trace: the number of a session, and what is said of it.
#[derive(Drop)]
pub struct TraceLine {
    pub session: u8,
    pub said: Said,
}

/// Why a line of a trace is at fault.
#[derive(Clone, Copy, PartialEq, Eq)]
pub enum TraceCause {
    /// The first word is no number from 0 to 255 without zeros before it.
    BadSession,
    /// Behind `open` stands neither `admin` alone, nor `router` or `identity` and a name.
    BadRole,
    /// What stands behind the session number says no frame.
    NoFrame(LineCause),
    /// The session was opened before.
    OpenedBefore,
    /// The session is not open.
    NotOpen,
}

/// The first line of a text that is at fault: its number, from 1, and why.
#[derive(Clone, Copy, PartialEq, Eq)]
pub struct TraceFault {
    pub line: u64,
    pub cause: TraceCause,
}

fn trace_words(cause: TraceCause) -> &'static str
    ensures { result.now ≡ trace_words cause }
{
    match cause {
        TraceCause::BadSession => "bad session",
        TraceCause::BadRole => "bad role",
        TraceCause::NoFrame(cause) => line_words(cause),
        TraceCause::OpenedBefore => "session opened before",
        TraceCause::NotOpen => "session not open",
    }
}

impl TraceFault {
    /// The fault in words: the line, and why.
    pub fn text(&self, alloc: Global) -> Result<String, AllocError>
        ensures { IfOk result (λ text. string_bytes text ≡ trace_text self.now) }
    {
        let line = self.line;
        let words = trace_words(self.cause);
        format!(in alloc; "line {line}: {words}")
    }
}
