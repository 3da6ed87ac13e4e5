ghost use Rattle.std.specs.Prelude.{◌≡◌, IfOk};
ghost use Rattle.std.specs.String.{string_bytes};
ghost use Rattle.frame_lines.specs.FaultTexts.{line_words, line_text};

use ctrl_model::Bytes;
use std::alloc::{AllocError, Global};

/// What a line says: a sequence number, if it has one of its own, a content type and a body.
#[derive(Drop)]
pub struct Line {
    pub sequence: Option<u32>,
    pub content: u32,
    /// At most 1,048,576 bytes.
    pub body: Bytes,
}

/// Why a line says no frame.
#[derive(Clone, Copy, Debug, PartialEq, Eq)]
pub enum LineCause {
    /// The first word is of digits and no number from 0 to 4,294,967,295 without zeros before it.
    BadSequence,
    /// The word that should tell the content type is no name of one, nor a number behind a sequence number.
    UnknownType,
    /// The body has more than 1,048,576 bytes.
    TooLong,
}

/// The first line of a text that says no frame: its number, from 1, and why.
#[derive(Clone, Copy, Debug, PartialEq, Eq)]
pub struct LineFault {
    pub line: u64,
    pub cause: LineCause,
}

/// Why a line says no frame, in words.
pub fn line_words(cause: LineCause) -> &'static str
    ensures { result.now ≡ line_words cause }
{
    match cause {
        LineCause::BadSequence => "bad sequence",
        LineCause::UnknownType => "unknown type",
        LineCause::TooLong => "body too long",
    }
}

impl LineFault {
    /// The fault in words: the line, and why it says no frame.
    pub fn text(&self, alloc: Global) -> Result<String, AllocError>
        ensures { IfOk result (λ text. string_bytes text ≡ line_text self.now) }
    {
        let line = self.line;
        let words = line_words(self.cause);
        format!(in alloc; "line {line}: {words}")
    }
}
