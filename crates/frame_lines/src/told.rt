ghost use Rattle.std.specs.Prelude.{◌≡◌, IfOk};
ghost use Rattle.std.specs.String.{string_bytes};
ghost use Rattle.frame_lines.specs.FaultTexts.{tell_words, fault_word, frame_text};

use channel_frame::FrameFault;
use std::alloc::{AllocError, Global};

/// Why no line tells a frame.
#[derive(Clone, Copy, PartialEq, Eq)]
pub enum TellCause {
    /// The frame has headers, and is no reply with exactly its two.
    Headers,
    /// The body has a newline.
    Newline,
    /// The body ends in a carriage return.
    Return,
    /// The body is no text in UTF-8.
    NotText,
}

/// Why the telling of frames ended early.
#[derive(Clone, Copy, PartialEq, Eq)]
pub enum DecodeCause {
    /// No line tells the frame.
    Untold(TellCause),
    /// The bytes are no frame; the place is that of the frame's first byte, or of its tag.
    Bad(FrameFault, u64),
    /// The bytes end within a frame, which begins at this place; that of a tagged reply is the place of its tag.
    Unfinished(u64),
    /// No tagged reply begins at this place. Frames alone have no tags.
    NoTag(u64),
}

/// What ended the telling of frames early: the number of the frame, from 1, and why.
#[derive(Clone, Copy, PartialEq, Eq)]
pub struct DecodeFault {
    pub frame: u64,
    pub cause: DecodeCause,
}

fn tell_words(cause: TellCause) -> &'static str
    ensures { result.now ≡ tell_words cause }
{
    match cause {
        TellCause::Headers => "headers that no line tells",
        TellCause::Newline => "newline in the body",
        TellCause::Return => "carriage return at the end of the body",
        TellCause::NotText => "body that is no text",
    }
}

fn fault_word(fault: FrameFault) -> &'static str
    ensures { result.now ≡ fault_word fault }
{
    match fault {
        FrameFault::BadMarker => "BadMarker",
        FrameFault::TooLong => "TooLong",
        FrameFault::BadHeaders => "BadHeaders",
        FrameFault::NoMemory => "",
    }
}

impl DecodeFault {
    /// The fault in words: the frame, and why the telling ended there.
    pub fn text(&self, alloc: Global) -> Result<String, AllocError>
        ensures { IfOk result (λ text. string_bytes text ≡ frame_text self.now) }
    {
        let frame = self.frame;
        match self.cause {
            DecodeCause::Untold(cause) => {
                let words = tell_words(cause);
                format!(in alloc; "frame {frame}: {words}")
            }
            DecodeCause::Bad(fault, at) => {
                let word = fault_word(fault);
                format!(in alloc; "frame {frame}: {word} at {at}")
            }
            DecodeCause::Unfinished(at) => format!(in alloc; "frame {frame}: unfinished at {at}"),
            DecodeCause::NoTag(at) => format!(in alloc; "frame {frame}: no tag at {at}"),
        }
    }
}
