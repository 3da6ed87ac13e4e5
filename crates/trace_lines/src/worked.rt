ghost use Rattle.std.specs.Prelude.{◌≡◌, [], ◌∷◌, ◌++◌, codes, None, Some, Ok, Err};
ghost use Rattle.channel_frame.specs.declared.frames.FrameFault.TheVariants.{BadMarker};
ghost use Rattle.channel_frame.specs.WorkedFrames.{ann_frame, ann_bytes, reply_bytes, unmarked_bytes, cut_bytes};
ghost use Rattle.ctrl_model.specs.declared.kinds.Who.TheVariants.{Admin, Router, Identity};
ghost use Rattle.frame_lines.specs.declared.lines.LineCause.TheVariants.{UnknownType};
ghost use Rattle.frame_lines.specs.FaultTexts.{frame_text};
ghost use Rattle.frame_lines.specs.declared.told.DecodeCause.TheVariants.{Bad, Unfinished, NoTag};
ghost use Rattle.session_mux.specs.Arrivals.{Open, Data, Close};
ghost use Rattle.session_mux.specs.WorkedTraces.{one_session};
ghost use Rattle.trace_lines.specs.declared.said.Said.TheVariants.{Opens, Sends, Closes};
ghost use Rattle.trace_lines.specs.declared.said.TraceCause.TheVariants.{BadSession, BadRole, NoFrame, OpenedBefore, NotOpen};
ghost use Rattle.trace_lines.specs.TraceWords.{role_in, traced_by};
ghost use Rattle.trace_lines.specs.SessionActs.{fault_traced};
ghost use Rattle.trace_lines.specs.ActRecords.{records_said, bytes_traced};
ghost use Rattle.trace_lines.specs.TaggedReplies.{replies_told, replies_fault};
ghost use Rattle.trace_lines.specs.TraceTexts.{trace_text};
ghost use Rattle.trace_lines.specs.WorkedTexts.{one_story, nine_lines, nine_traced, reply_of_3};

/// The roles that words say, and words that say none.
pub fn worked_roles()
    ensures admin { role_in (codes "admin") ≡ Some Admin }
    ensures router { role_in (codes "router r1") ≡ Some (Router (codes "r1")) }
    ensures identity { role_in (codes "identity ann") ≡ Some (Identity (codes "ann")) }
    ensures named_admin { role_in (codes "admin ann") ≡ None }
    ensures nameless { role_in (codes "router") ≡ None }
    ensures no_name { role_in (codes "router a b") ≡ None }
    ensures other { role_in (codes "Router r1") ≡ None }
    ensures nothing { role_in [] ≡ None }
{}

/// What a line of a trace says, and why some say nothing.
pub fn worked_lines()
    ensures open { traced_by (codes "3 open router r1") ≡ Ok (record { session = 3; said = Opens (Router (codes "r1")) }) }
    ensures frame { traced_by (codes "255 7 Hello x") ≡ Ok (record { session = 255; said = Sends (record { sequence = Some 7; content = 0; body = codes "x" }) }) }
    ensures counted { traced_by (codes "0 Hello") ≡ Ok (record { session = 0; said = Sends (record { sequence = None; content = 0; body = [] }) }) }
    ensures close { traced_by (codes "3 close") ≡ Ok (record { session = 3; said = Closes }) }
    ensures close_more { traced_by (codes "3 close x") ≡ Err (NoFrame UnknownType) }
    ensures other_case { traced_by (codes "3 Open admin") ≡ Err (NoFrame UnknownType) }
    ensures bad_role { traced_by (codes "3 open ann") ≡ Err BadRole }
    ensures alone { traced_by (codes "3") ≡ Err (NoFrame UnknownType) }
    ensures too_large { traced_by (codes "256 close") ≡ Err BadSession }
    ensures zeros { traced_by (codes "03 close") ≡ Err BadSession }
    ensures no_session { traced_by (codes "Hello") ≡ Err BadSession }
{}

/// A text of one session, whose trace is the worked one of `session_mux`; one of two sessions up to its fault; and faults of where sessions stand.
pub fn worked_trace()
    ensures one { bytes_traced one_story ≡ one_session }
    ensures one_records { records_said one_story ≡ Open 0 Admin ∷ Data 0 ann_bytes ∷ Close 0 ∷ [] }
    ensures one_fault { fault_traced one_story ≡ None }
    ensures two { bytes_traced nine_lines ≡ nine_traced }
    ensures two_fault { fault_traced nine_lines ≡ Some (record { line = 9; cause = NotOpen }) }
    ensures twice { fault_traced (codes "0 open admin\n0 open admin") ≡ Some (record { line = 2; cause = OpenedBefore }) }
    ensures again { fault_traced (codes "0 open admin\n0 close\n0 open admin") ≡ Some (record { line = 3; cause = OpenedBefore }) }
    ensures unopened { fault_traced (codes "0 close\n") ≡ Some (record { line = 1; cause = NotOpen }) }
    ensures words { trace_text (record { line = 9; cause = NotOpen }) ≡ codes "line 9: session not open" }
    ensures line_words { trace_text (record { line = 2; cause = NoFrame UnknownType }) ≡ codes "line 2: unknown type" }
{}

/// The lines of tagged replies, up to their fault.
pub fn worked_replies()
    ensures one { replies_told reply_of_3 ≡ codes "3 7 ok {\"no\":1}\n" }
    ensures one_fault { replies_fault reply_of_3 ≡ None }
    ensures two { replies_told (reply_of_3 ++ reply_of_3) ≡ codes "3 7 ok {\"no\":1}\n3 7 ok {\"no\":1}\n" }
    ensures untagged { replies_told (reply_of_3 ++ reply_bytes) ≡ codes "3 7 ok {\"no\":1}\n" }
    ensures untagged_fault { replies_fault (reply_of_3 ++ reply_bytes) ≡ Some (record { frame = 2; cause = NoTag 51 }) }
    ensures tag_alone { replies_fault (4 ∷ []) ≡ Some (record { frame = 1; cause = Unfinished 0 }) }
    ensures cut { replies_fault (reply_of_3 ++ (4 ∷ 0 ∷ cut_bytes)) ≡ Some (record { frame = 2; cause = Unfinished 51 }) }
    ensures marker { replies_fault (4 ∷ 0 ∷ unmarked_bytes) ≡ Some (record { frame = 1; cause = Bad BadMarker 0 }) }
    ensures none { replies_fault [] ≡ None }
    ensures words { frame_text (record { frame = 2; cause = NoTag 51 }) ≡ codes "frame 2: no tag at 51" }
    ensures frame_words { frame_text (record { frame = 2; cause = Unfinished 51 }) ≡ codes "frame 2: unfinished at 51" }
{}
