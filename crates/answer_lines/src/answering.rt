ghost use Rattle.std.specs.Prelude.{◌≡◌, [], false, not, ◌||◌, IfOk, Some};
ghost use Rattle.std.specs.String.{string_bytes};
ghost use Rattle.answer_lines.specs.AnswerLines.{answers_fault, answers_told, are_none, is_refused, fault_words};
ghost use Rattle.answer_lines.specs.AnswerParts.{before_mark};
ghost use Rattle.answer_lines.specs.AnswerTurns.{IsAnswered, ended};
ghost use Rattle.frame_lines.specs.TextLines.{lines_of};

use crate::pairing::{answer_lines, put_strays};
use crate::parting::behind_mark;
use crate::replies::{Replies, ReplyLine, read_replies};
use ctrl_model::Bytes;
use frame_lines::LineFault;
use std::alloc::{AllocError, Global};
use std::collections::VecDeque;

/// Why a text is none of requests and replies.
#[derive(Clone, Copy, PartialEq, Eq)]
pub enum AnswerFault {
    /// A line before the replies says no request.
    NoRequest(LineFault),
    /// The line of this number, from 1, tells no reply.
    NoReply(u64),
}

impl AnswerFault {
    /// The fault in words: the line, and why it is at fault.
    pub fn text(&self, alloc: Global) -> Result<String, AllocError>
        ensures { IfOk result (λ text. string_bytes text ≡ fault_words self.now) }
    {
        match self {
            AnswerFault::NoRequest(fault) => fault.text(alloc),
            AnswerFault::NoReply(line) => format!(in alloc; "line {line}: no reply"),
        }
    }
}

/// The lines of the requests of a text with their answers and of its replies to no request, or its fault. Then there are no lines.
#[derive(Drop)]
pub struct Answered {
    pub told: Bytes,
    /// Whether a request is refused or unanswered, or a reply is to no request.
    pub refused: bool,
    pub fault: Option<AnswerFault>,
}

fn at_fault(alloc: Global, fault: AnswerFault) -> Answered
    ensures { result ≡ record { told = []; refused = false; fault = Some fault } }
{
    Answered {
        told: Bytes::of(Vec::new(alloc)),
        refused: false,
        fault: Some(fault),
    }
}

// Whether a request was not answered well, or a reply is left.
fn has_refusal(ok: bool, left: &VecDeque<ReplyLine>) -> bool
    ensures { result ≡ (not ok || not (are_none left.now.items)) }
{
    !ok || !left.is_empty()
}

// What is told where all requests were answered so, and these replies are left.
fn with_strays(
    alloc: Global,
    mut out: Vec<u8>,
    ok: bool,
    mut left: Replies,
) -> Result<Answered, AllocError>
    ensures { IfOk result (λ a. a ≡ ended out.items ok left.told.items left.no_reply) }
{
    if let Some(number) = left.no_reply {
        return Ok(at_fault(alloc, AnswerFault::NoReply(number)));
    }
    let refused = has_refusal(ok, &left.told);
    put_strays(alloc, &mut out, &mut left.told)?;
    Ok(Answered {
        told: Bytes::of(out),
        refused,
        fault: None,
    })
}

// What is told of the requests of a text with these replies.
fn answer_requests(alloc: Global, text: &[u8], mut replies: Replies) -> Result<Answered, AllocError>
    ensures { IfOk result (λ a. IsAnswered (before_mark (lines_of text.now)) replies.told.items replies.no_reply a) }
{
    let mut out = Vec::new(alloc);
    match answer_lines(alloc, &mut out, &mut replies.told, text)? {
        Ok(ok) => with_strays(alloc, out, ok, replies),
        Err(fault) => Ok(at_fault(alloc, AnswerFault::NoRequest(fault))),
    }
}

/// Each request of a text with the reply to it: the lines of requests, a line `---`, and the lines of the replies as `decode` tells them.
pub fn answers(alloc: Global, text: &[u8]) -> Result<Answered, AllocError>
    ensures told { IfOk result (λ a. a.told ≡ answers_told text.now) }
    ensures refused { IfOk result (λ a. a.refused ≡ is_refused text.now) }
    ensures fault { IfOk result (λ a. a.fault ≡ answers_fault text.now) }
{
    let (behind, first) = behind_mark(text);
    let replies = read_replies(alloc, behind, first)?;
    answer_requests(alloc, text, replies)
}
