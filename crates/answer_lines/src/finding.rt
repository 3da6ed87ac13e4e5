ghost use Rattle.std.specs.Prelude.{◌≡◌, MatchOption, length};
ghost use Rattle.answer_lines.specs.AnswerLines.{reply_to, without_reply};
ghost use Rattle.answer_lines.specs.ReplyPlaces.{AreOthers, StandsAt};

use crate::replies::ReplyLine;
use std::collections::VecDeque;

// The place of the first reply with this sequence number.
fn place_of(replies: &VecDeque<ReplyLine>, sequence: u32) -> Option<usize>
    ensures { MatchOption result (AreOthers sequence replies.now.items (length replies.now.items)) (λ place. StandsAt sequence replies.now.items place) }
{
    'places: for place in 0..replies.len() {
        if replies[place].sequence == sequence {
            return Some(place);
        }
    }
    None
}

/// Takes the first reply with this sequence number out of some, if one has it.
pub(crate) fn take_reply(replies: &mut VecDeque<ReplyLine>, sequence: u32) -> Option<ReplyLine>
    ensures reply { result ≡ reply_to sequence replies.old.items }
    ensures left { replies.new.items ≡ without_reply sequence replies.old.items }
{
    match place_of(replies, sequence) {
        Some(place) => replies.remove(place),
        None => None,
    }
}
