ghost use Rattle.std.specs.Prelude.{◌≡◌, ◌++◌, ◌&&◌, ℕ, OnOk, IfOk, Ok};
ghost use Rattle.std.specs.List.{flat_map};
ghost use Rattle.frame_lines.specs.declared.lines.Line.{Line};
ghost use Rattle.frame_lines.specs.TextLines.{lines_of};
ghost use Rattle.frame_lines.specs.LineReading.{said_by};
ghost use Rattle.frame_lines.specs.TextFaults.{name_on};
ghost use Rattle.answer_lines.specs.AnswerParts.{before_mark};
ghost use Rattle.answer_lines.specs.AnswerLines.{request_of, answer_words, answer_line, reply_line, stray_line, has_success};
ghost use Rattle.answer_lines.specs.AnswerTurns.{TakesLine, TakesLines, PutsRequest};

use crate::finding::take_reply;
use crate::parting::is_mark;
use crate::replies::ReplyLine;
use frame_lines::{LineCause, LineFault, cut_line, cut_word, passes, read_line};
use std::alloc::{AllocError, Global};
use std::collections::VecDeque;

/// The turn of a line: the sequence number that comes next, and whether the line, if it has a request, was answered and not refused.
#[derive(Clone, Copy)]
pub(crate) struct Turn {
    pub(crate) next: u32,
    pub(crate) ok: bool,
}

fn answer_words(reply: &Option<ReplyLine>) -> &[u8]
    ensures { result.now ≡ answer_words reply.now }
{
    match reply {
        Some(reply) => reply.words.as_slice(),
        None => b"unanswered",
    }
}

fn has_success(reply: &Option<ReplyLine>) -> bool
    ensures { result ≡ has_success reply.now }
{
    match reply {
        Some(reply) => reply.success,
        None => false,
    }
}

// The line of a request and its answer, with its newline.
fn put_answer(
    alloc: Global,
    out: &mut Vec<u8>,
    number: u64,
    asked: &[u8],
    reply: &Option<ReplyLine>,
) -> Result<(), AllocError>
    ensures { OnOk result ((sequence : ℕ) → out.new.items ≡ out.old.items ++ answer_line (record { line = number; sequence = sequence; asked = asked.now }) reply.now) }
{
    let front = format!(in alloc; "{number} ")?;
    out.extend_from_slice(front.as_bytes())?;
    out.extend_from_slice(asked)?;
    out.extend_from_slice(b" -> ")?;
    out.extend_from_slice(answer_words(reply))?;
    out.push(b'\n')?;
    Ok(())
}

// A line from its NAME on, behind the sequence number that it has, if it has one.
fn name_on(sequence: Option<u32>, line: &[u8]) -> &[u8]
    ensures { (said : Line) → said_by line.now ≡ Ok said → said.sequence ≡ sequence → result.now ≡ name_on line.now }
{
    match sequence {
        Some(_) => {
            let (_, behind) = cut_word(line);
            behind
        }
        None => line,
    }
}

// Answers the request of a line with the first reply to it that is left, and takes that one away.
fn answer_request(
    alloc: Global,
    out: &mut Vec<u8>,
    replies: &mut VecDeque<ReplyLine>,
    number: u64,
    next: u32,
    sequence: Option<u32>,
    line: &[u8],
) -> Result<Turn, AllocError>
    ensures { IfOk result (λ turn. (said : Line) → said_by line.now ≡ Ok said → said.sequence ≡ sequence
        → PutsRequest (request_of number next line.now said) out.old.items out.new.items replies.old.items replies.new.items turn) }
{
    let own = sequence.unwrap_or(next);
    let reply = take_reply(replies, own);
    put_answer(alloc, out, number, name_on(sequence, line), &reply)?;
    Ok(Turn {
        next: own.wrapping_add(1),
        ok: has_success(&reply),
    })
}

// Answers the request of a line, unless the line passes.
fn take_line(
    alloc: Global,
    out: &mut Vec<u8>,
    replies: &mut VecDeque<ReplyLine>,
    number: u64,
    next: u32,
    line: &[u8],
) -> Result<Result<Turn, LineCause>, AllocError>
    ensures { IfOk result (λ turn. TakesLine number next line.now out.old.items out.new.items replies.old.items replies.new.items turn) }
{
    if passes(line) {
        return Ok(Ok(Turn { next, ok: true }));
    }
    match read_line(alloc, line)? {
        Ok(said) => {
            let sequence = said.sequence;
            drop(said);
            Ok(Ok(answer_request(alloc, out, replies, number, next, sequence, line)?))
        }
        Err(cause) => Ok(Err(cause)),
    }
}

fn both(a: bool, b: bool) -> bool
    ensures { result ≡ (a && b) }
{
    a && b
}

/// Answers the requests of a text, each with the first reply to it that is left, and takes that one away. Answers whether all were answered and
/// none refused, or the first line that says no request.
pub(crate) fn answer_lines(
    alloc: Global,
    out: &mut Vec<u8>,
    replies: &mut VecDeque<ReplyLine>,
    text: &[u8],
) -> Result<Result<bool, LineFault>, AllocError>
    ensures { IfOk result (λ ended. TakesLines (before_mark (lines_of text.now)) out.old.items out.new.items replies.old.items replies.new.items ended) }
{
    let mut ok = true;
    let mut next = 1u32;
    let mut number = 1u64;
    let mut rest = text;
    'lines: while !rest.is_empty() {
        let (line, after) = cut_line(rest);
        if is_mark(line) {
            return Ok(Ok(ok));
        }
        match take_line(alloc, out, replies, number, next, line)? {
            Ok(turn) => {
                next = turn.next;
                ok = both(ok, turn.ok);
            }
            Err(cause) => return Ok(Err(LineFault {
                line: number,
                cause,
            })),
        }
        number += 1;
        rest = after;
    }
    Ok(Ok(ok))
}

// A reply as it was told, with a newline.
fn put_reply(alloc: Global, out: &mut Vec<u8>, reply: &ReplyLine) -> Result<(), AllocError>
    ensures { OnOk result (out.new.items ≡ out.old.items ++ reply_line reply.now) }
{
    let sequence = reply.sequence;
    let front = format!(in alloc; "{sequence} ")?;
    out.extend_from_slice(front.as_bytes())?;
    out.extend_from_slice(reply.words.as_slice())?;
    out.push(b'\n')?;
    Ok(())
}

// The line of a reply to no request, with its newline.
fn put_stray(alloc: Global, out: &mut Vec<u8>, reply: &ReplyLine) -> Result<(), AllocError>
    ensures { OnOk result (out.new.items ≡ out.old.items ++ stray_line reply.now) }
{
    out.extend_from_slice(b"no request -> ")?;
    put_reply(alloc, out, reply)?;
    Ok(())
}

/// The lines of replies to no request.
pub(crate) fn put_strays(
    alloc: Global,
    out: &mut Vec<u8>,
    replies: &mut VecDeque<ReplyLine>,
) -> Result<(), AllocError>
    ensures { OnOk result (out.new.items ≡ out.old.items ++ flat_map stray_line replies.old.items) }
{
    'replies: while let Some(reply) = replies.pop_front() {
        put_stray(alloc, out, &reply)?;
    }
    Ok(())
}
