ghost use Rattle.std.specs.Prelude.{◌≡◌, map};
ghost use Rattle.std.specs.String.{string_bytes};
ghost use Rattle.zitiline.specs.Words.{asked_of};

use live_lines::Kind;

/// What the program is asked for.
#[derive(Clone, Copy, PartialEq, Eq)]
pub enum Asked {
    /// What is to be said of the input.
    Turn(Form),
    /// A page about the program itself. No input is read.
    Tell(Page),
}

/// What is to be said of an input, and when.
#[derive(Clone, Copy, PartialEq, Eq)]
pub enum Form {
    /// Once the input was read to its end.
    Whole(Whole),
    /// The lines of frames or of tagged replies, each as soon as its frame is whole.
    Live(Kind),
}

/// What is to be said of an input that is read whole.
#[derive(Clone, Copy, PartialEq, Eq)]
pub enum Whole {
    /// Lines to frames.
    Encode,
    /// Lines of sessions to a trace.
    Trace,
    /// All faults of lines.
    Check,
    /// Lines of requests and of their replies to each request with its answer.
    Answers,
}

/// A page about the program.
#[derive(Clone, Copy, PartialEq, Eq)]
pub enum Page {
    /// A line for each word.
    Help,
    /// The version of the lines.
    Version,
}

/// What the words ask for, if they are one of the eight alone.
pub fn asked_of(words: &[String]) -> Option<Asked>
    ensures { result ≡ asked_of (map string_bytes words.now) }
{
    match words {
        [word] if word.as_bytes() == b"encode".as_slice() => Some(Asked::Turn(Form::Whole(
            Whole::Encode,
        ))),
        [word] if word.as_bytes() == b"decode".as_slice() => Some(Asked::Turn(Form::Live(
            Kind::Frames,
        ))),
        [word] if word.as_bytes() == b"trace".as_slice() => Some(Asked::Turn(Form::Whole(
            Whole::Trace,
        ))),
        [word] if word.as_bytes() == b"replies".as_slice() => Some(Asked::Turn(Form::Live(
            Kind::Replies,
        ))),
        [word] if word.as_bytes() == b"check".as_slice() => Some(Asked::Turn(Form::Whole(
            Whole::Check,
        ))),
        [word] if word.as_bytes() == b"answers".as_slice() => Some(Asked::Turn(Form::Whole(
            Whole::Answers,
        ))),
        [word] if word.as_bytes() == b"help".as_slice() => Some(Asked::Tell(Page::Help)),
        [word] if word.as_bytes() == b"version".as_slice() => Some(Asked::Tell(Page::Version)),
        _ => None,
    }
}
