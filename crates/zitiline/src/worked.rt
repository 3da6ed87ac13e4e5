ghost use Rattle.std.specs.Prelude.{◌≡◌, [], ◌∷◌, ◌++◌, codes, None, Some};
ghost use Rattle.channel_frame.specs.WorkedFrames.{ann_bytes, reply_bytes, cut_bytes};
ghost use Rattle.session_mux.specs.WorkedTraces.{one_session};
ghost use Rattle.trace_lines.specs.WorkedTexts.{one_story, reply_of_3};
ghost use Rattle.zitiline.specs.declared.words.Asked.TheVariants.{Turn, Tell};
ghost use Rattle.live_lines.specs.declared.kinds.Kind.TheVariants.{Frames, Replies};
ghost use Rattle.zitiline.specs.declared.words.Form.TheVariants.{Whole, Live};
ghost use Rattle.zitiline.specs.declared.words.Whole.TheVariants.{Encode, Trace, Check, Answers};
ghost use Rattle.zitiline.specs.declared.words.Page.TheVariants.{Help, Version};
ghost use Rattle.zitiline.specs.declared.status.Status.TheVariants.{Done, Refused, BadInput, ReadFault};
ghost use Rattle.zitiline.specs.Words.{asked_of};
ghost use Rattle.zitiline.specs.Answers.{said_of, fault_of, status_of};
ghost use Rattle.zitiline.specs.Notes.{notes_of};

/// What words ask for.
pub fn worked_words()
    ensures encode { asked_of (codes "encode" ∷ []) ≡ Some (Turn (Whole Encode)) }
    ensures decode { asked_of (codes "decode" ∷ []) ≡ Some (Turn (Live Frames)) }
    ensures trace { asked_of (codes "trace" ∷ []) ≡ Some (Turn (Whole Trace)) }
    ensures replies { asked_of (codes "replies" ∷ []) ≡ Some (Turn (Live Replies)) }
    ensures check { asked_of (codes "check" ∷ []) ≡ Some (Turn (Whole Check)) }
    ensures answers { asked_of (codes "answers" ∷ []) ≡ Some (Turn (Whole Answers)) }
    ensures help { asked_of (codes "help" ∷ []) ≡ Some (Tell Help) }
    ensures version { asked_of (codes "version" ∷ []) ≡ Some (Tell Version) }
    ensures none { asked_of [] ≡ None }
    ensures two { asked_of (codes "encode" ∷ codes "decode" ∷ []) ≡ None }
    ensures other { asked_of (codes "Encode" ∷ []) ≡ None }
{}

/// What is said of inputs, how they end and what is noted.
pub fn worked_answers()
    ensures encoded { said_of (Whole Encode) (codes "# ann\n7 CreateIdentity {\"name\":\"ann\"}\n") ≡ ann_bytes }
    ensures ends { status_of (Whole Encode) (codes "# ann\n7 CreateIdentity {\"name\":\"ann\"}\n") ≡ Done }
    ensures before_the_fault { said_of (Whole Encode) (codes "7 CreateIdentity {\"name\":\"ann\"}\nHelo\nHello\n") ≡ ann_bytes }
    ensures faulty { status_of (Whole Encode) (codes "7 CreateIdentity {\"name\":\"ann\"}\nHelo\nHello\n") ≡ BadInput }
    ensures line_noted { notes_of (fault_of (Whole Encode) (codes "\n\nHelo")) BadInput ≡ codes "zitiline: line 3: unknown type\n" }
    ensures decoded { said_of (Live Frames) reply_bytes ≡ codes "7 ok {\"no\":1}\n" }
    ensures cut { status_of (Live Frames) (reply_bytes ++ cut_bytes) ≡ BadInput }
    ensures cut_noted { notes_of (fault_of (Live Frames) (reply_bytes ++ cut_bytes)) BadInput ≡ codes "zitiline: frame 2: unfinished at 49\n" }
    ensures traced { said_of (Whole Trace) one_story ≡ one_session }
    ensures trace_noted { notes_of (fault_of (Whole Trace) (codes "0 open admin\n0 open admin")) BadInput ≡ codes "zitiline: line 2: session opened before\n" }
    ensures told { said_of (Live Replies) reply_of_3 ≡ codes "3 7 ok {\"no\":1}\n" }
    ensures told_noted { notes_of (fault_of (Live Replies) reply_bytes) BadInput ≡ codes "zitiline: frame 1: no tag at 0\n" }
    ensures checked { said_of (Whole Check) (codes "Hello\nHelo {}\n") ≡ codes "line 2: unknown type at column 1: NAME is the name of a command; near is Hello\n" }
    ensures check_noted { notes_of (fault_of (Whole Check) (codes "Hello\nHelo {}\n")) BadInput ≡ codes "zitiline: line 2: unknown type\n" }
    ensures check_ends { status_of (Whole Check) (codes "Hello {}\n\n7 1502 {}\n") ≡ Done }
    ensures answered { said_of (Whole Answers) (codes "Hello\nHello\n---\n1 ok\n2 refused {}\n") ≡ codes "1 Hello -> ok\n2 Hello -> refused {}\n" }
    ensures answered_refused { status_of (Whole Answers) (codes "Hello\nHello\n---\n1 ok\n2 refused {}\n") ≡ Refused }
    ensures answered_ends { status_of (Whole Answers) (codes "Hello\n---\n1 ok\n") ≡ Done }
    ensures refused_notes { notes_of (fault_of (Whole Answers) (codes "Hello\n")) Refused ≡ [] }
    ensures no_reply_noted { notes_of (fault_of (Whole Answers) (codes "Hello\n---\nHello\n")) BadInput ≡ codes "zitiline: line 3: no reply\n" }
    ensures fault_noted { notes_of None ReadFault ≡ codes "zitiline: read fault\n" }
{}
