ghost use Rattle.std.specs.Prelude.{◌≡◌, true, false, [], ◌∷◌, ◌++◌, codes, None, Some};
ghost use Rattle.frame_lines.specs.declared.lines.LineCause.TheVariants.{UnknownType};
ghost use Rattle.answer_lines.specs.declared.answering.AnswerFault.TheVariants.{NoRequest, NoReply};
ghost use Rattle.answer_lines.specs.ReplyLines.{reply_by};
ghost use Rattle.answer_lines.specs.AnswerLines.{answers_told, answers_fault, is_refused, fault_words};
ghost use Rattle.answer_lines.specs.WorkedAnswers.{story_requests, story_replies, story_answers, mixed_text, mixed_answers};

/// The replies that lines tell, and lines that tell none.
pub fn worked_replies()
    ensures ok { reply_by (codes "7 ok {\"no\":1}") ≡ Some (record { sequence = 7; success = true; words = codes "ok {\"no\":1}" }) }
    ensures refusal { reply_by (codes "0 refused") ≡ Some (record { sequence = 0; success = false; words = codes "refused" }) }
    ensures command { reply_by (codes "7 Hello") ≡ None }
    ensures other_case { reply_by (codes "7 Ok {}") ≡ None }
    ensures no_number { reply_by (codes "ok {}") ≡ None }
    ensures zeros { reply_by (codes "07 ok {}") ≡ None }
    ensures tagged { reply_by (codes "3 7 ok {}") ≡ None }
{}

/// Replies beside their requests, of a story and of numbers that come twice, worked by hand.
pub fn worked_answers()
    ensures story { answers_told (story_requests ++ (codes "---\n" ++ story_replies)) ≡ story_answers }
    ensures story_refused { is_refused (story_requests ++ (codes "---\n" ++ story_replies)) ≡ true }
    ensures mixed { answers_told mixed_text ≡ mixed_answers }
    ensures mixed_refused { is_refused mixed_text ≡ true }
    ensures all_ok { is_refused (codes "7 Hello\n---\n7 ok\n") ≡ false }
    ensures unanswered { answers_told (codes "7 Hello\n") ≡ codes "1 Hello -> unanswered\n" }
    ensures unanswered_refused { is_refused (codes "7 Hello\n") ≡ true }
    ensures stray { answers_told (codes "---\n7 ok\n") ≡ codes "no request -> 7 ok\n" }
    ensures stray_refused { is_refused (codes "---\n7 ok\n") ≡ true }
    ensures none { answers_told [] ≡ [] }
    ensures none_refused { is_refused [] ≡ false }
{}

/// Texts with a fault: nothing is told of them.
pub fn worked_faults()
    ensures request { answers_fault (codes "Hello\nHelo\n---\n1 ok\nx\n") ≡ Some (NoRequest (record { line = 2; cause = UnknownType })) }
    ensures request_told { answers_told (codes "Hello\nHelo\n---\n1 ok\nx\n") ≡ [] }
    ensures request_refused { is_refused (codes "Hello\nHelo\n---\n1 ok\nx\n") ≡ false }
    ensures reply { answers_fault (codes "Hello\n---\n1 ok\n\nx\n") ≡ Some (NoReply 5) }
    ensures reply_told { answers_told (codes "Hello\n---\n1 ok\n\nx\n") ≡ [] }
    ensures second_mark { answers_fault (codes "Hello\n---\n1 ok\n---\n") ≡ Some (NoReply 4) }
    ensures faultless { answers_fault (codes "Hello\r\n---\r\n1 ok\r\n") ≡ None }
    ensures words { fault_words (NoRequest (record { line = 2; cause = UnknownType })) ≡ codes "line 2: unknown type" }
    ensures reply_words { fault_words (NoReply 5) ≡ codes "line 5: no reply" }
{}
