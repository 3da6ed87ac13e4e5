ghost use Rattle.std.specs.Prelude.{◌≡◌, ◌<◌, ◌^◌, ◌++◌, ℕ, List, true, false, Some, codes, decimal, map};
ghost use Rattle.frame_lines.specs.FrameLines.{body_words};
ghost use Rattle.frame_lines.specs.TextLines.{passes};
ghost use Rattle.frame_lines.specs.TextReading.{frames_from};
ghost use Rattle.channel_frame.specs.declared.frames.Frame.{Frame};
ghost use Rattle.answer_lines.specs.ReplyLines.{reply_by};
ghost use Rattle.answer_lines.specs.AnswerLines.{Request, requests_from};

/// The requests of lines have the sequence numbers of the frames that `encode` makes of the lines.
pub fn requests_are_those_of_encode()
    ensures { (lines : List (List ℕ)) (number next : ℕ)
        → map (λ (r : Request). r.sequence) (requests_from lines number next) ≡ map (λ (f : Frame). f.sequence) (frames_from lines next) }
{}

/// The line of a reply, as `decode` tells it, is read as that reply.
pub fn what_decode_tells_is_a_reply()
    ensures ok { (request : ℕ) (body : List ℕ) → request < 2 ^ 32
        → reply_by (decimal request ++ (codes " ok" ++ body_words body)) ≡ Some (record { sequence = request; success = true; words = codes "ok" ++ body_words body }) }
    ensures refused { (request : ℕ) (body : List ℕ) → request < 2 ^ 32
        → reply_by (decimal request ++ (codes " refused" ++ body_words body)) ≡ Some (record { sequence = request; success = false; words = codes "refused" ++ body_words body }) }
    ensures no_remark { (request : ℕ) (words : List ℕ) → request < 2 ^ 32 → passes (decimal request ++ words) ≡ false }
{}
