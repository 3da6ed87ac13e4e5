ghost use Rattle.std.specs.Prelude.{◌≡◌, ◌+◌, ◌<◌, ◌^◌, IfOk, length};
ghost use Rattle.frame_lines.specs.TextLines.{lines_of};
ghost use Rattle.answer_lines.specs.ReplyLines.{success_in, reply_by, replies_from, no_reply_from};
ghost use Rattle.answer_lines.specs.AnswerTurns.{TakesReply};

use ctrl_model::Bytes;
use frame_lines::{cut_line, cut_word, number_in, passes};
use std::alloc::{AllocError, Global};
use std::collections::VecDeque;

/// A reply as a line tells it: the sequence number of its request, whether it had success, and its words behind the number.
#[derive(Drop)]
pub struct ReplyLine {
    pub sequence: u32,
    pub success: bool,
    /// `ok` or `refused`, and the body, if there is one.
    pub words: Bytes,
}

/// A line tells no reply.
#[derive(Clone, Copy)]
pub(crate) struct NoReply;

/// The replies of some lines, up to the first that tells none, and the number of that one.
#[derive(Drop)]
pub(crate) struct Replies {
    pub(crate) told: VecDeque<ReplyLine>,
    pub(crate) no_reply: Option<u64>,
}

// Whether a word tells success or a refusal, if it tells one of the two.
fn success_in(word: &[u8]) -> Option<bool>
    ensures { result ≡ success_in word.now }
{
    if word == b"ok".as_slice() {
        return Some(true);
    }
    if word == b"refused".as_slice() {
        return Some(false);
    }
    None
}

// The reply that a line tells, if it tells one.
fn read_reply(alloc: Global, line: &[u8]) -> Result<Option<ReplyLine>, AllocError>
    ensures { IfOk result (λ reply. reply ≡ reply_by line.now) }
{
    let (number, words) = cut_word(line);
    let Some(sequence) = number_in(number) else {
        return Ok(None);
    };
    let (word, _) = cut_word(words);
    let Some(success) = success_in(word) else {
        return Ok(None);
    };
    let words = Bytes::from_slice(alloc, words)?;
    Ok(Some(ReplyLine {
        sequence,
        success,
        words,
    }))
}

// Puts the reply of a line down, unless the line passes.
fn take_reply_line(
    alloc: Global,
    told: &mut VecDeque<ReplyLine>,
    line: &[u8],
) -> Result<Result<(), NoReply>, AllocError>
    ensures { IfOk result (λ turn. TakesReply line.now told.old.items told.new.items turn) }
{
    if passes(line) {
        return Ok(Ok(()));
    }
    match read_reply(alloc, line)? {
        Some(reply) => {
            told.push_back(reply)?;
            Ok(Ok(()))
        }
        None => Ok(Err(NoReply)),
    }
}

/// The replies of the lines of a text, which are counted from this number.
pub(crate) fn read_replies(alloc: Global, text: &[u8], first: u64) -> Result<Replies, AllocError>
    requires { first + length text.now < 2 ^ 64 }
    ensures told { IfOk result (λ r. r.told.items ≡ replies_from (lines_of text.now)) }
    ensures no_reply { IfOk result (λ r. r.no_reply ≡ no_reply_from (lines_of text.now) first) }
{
    let mut told = VecDeque::new(alloc);
    let mut number = first;
    let mut rest = text;
    'lines: while !rest.is_empty() {
        let (line, after) = cut_line(rest);
        if let Err(NoReply) = take_reply_line(alloc, &mut told, line)? {
            return Ok(Replies {
                told,
                no_reply: Some(number),
            });
        }
        number += 1;
        rest = after;
    }
    Ok(Replies {
        told,
        no_reply: None,
    })
}
