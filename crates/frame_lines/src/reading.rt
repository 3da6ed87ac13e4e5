ghost use Rattle.std.specs.Prelude.{◌≡◌, IfOk, OnErr, IsOk};
ghost use Rattle.frame_lines.specs.TextLines.{passes};
ghost use Rattle.frame_lines.specs.LineReading.{type_in, with_type, with_sequence, said_by};

use crate::cutting::cut_word;
use crate::lines::{Line, LineCause};
use crate::types::number_named;
use crate::words::{are_digits, number_in};
use channel_frame::LONGEST_BODY;
use ctrl_model::Bytes;
use std::alloc::{AllocError, Global};

/// Whether a line says nothing: it has no bytes but spaces, or its first other byte is '#'.
pub fn passes(line: &[u8]) -> bool
    ensures { result ≡ passes line.now }
{
    'bytes: for byte in line {
        if *byte != b' ' {
            return *byte == b'#';
        }
    }
    true
}

fn type_in(word: &[u8]) -> Option<u32>
    ensures { result ≡ type_in word.now }
{
    match number_named(word) {
        Some(content) => Some(content),
        None => number_in(word),
    }
}

fn with_type(
    alloc: Global,
    sequence: Option<u32>,
    content: Option<u32>,
    body: &[u8],
) -> Result<Result<Line, LineCause>, AllocError>
    ensures said { IfOk result (λ said. said ≡ with_type sequence content body.now) }
    ensures memory { OnErr result (IsOk (with_type sequence content body.now)) }
{
    let Some(content) = content else {
        return Ok(Err(LineCause::UnknownType));
    };
    if body.len() > LONGEST_BODY as usize {
        return Ok(Err(LineCause::TooLong));
    }
    let body = Bytes::from_slice(alloc, body)?;
    Ok(Ok(Line {
        sequence,
        content,
        body,
    }))
}

/// What a line says, or why it says no frame.
///
/// `BadSequence` is told before `UnknownType`, and `TooLong` last. Memory can be wanting for the body of a line alone.
pub fn read_line(alloc: Global, line: &[u8]) -> Result<Result<Line, LineCause>, AllocError>
    ensures said { IfOk result (λ said. said ≡ said_by line.now) }
    ensures memory { OnErr result (IsOk (said_by line.now)) }
{
    let (word, rest) = cut_word(line);
    if !are_digits(word) {
        return with_type(alloc, None, number_named(word), rest);
    }
    let Some(sequence) = number_in(word) else {
        return Ok(Err(LineCause::BadSequence));
    };
    let (word, body) = cut_word(rest);
    with_type(alloc, Some(sequence), type_in(word), body)
}
