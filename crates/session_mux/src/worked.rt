ghost use Rattle.std.specs.Prelude.{◌≡◌, [], ◌∷◌, ◌++◌, length, take, drop, true, false, None, Some};
ghost use Rattle.std.specs.List.{list_any};
ghost use Rattle.ctrl_model.specs.declared.kinds.Who.TheVariants.{Admin, Router, Identity};
ghost use Rattle.channel_frame.specs.declared.frames.FrameFault.TheVariants.{BadMarker};
ghost use Rattle.channel_frame.specs.WorkedFrames.{ann_frame, ann_bytes, unmarked_bytes};
ghost use Rattle.session_mux.specs.declared.sessions.Form.TheVariants.{Plain, Trace};
ghost use Rattle.session_mux.specs.declared.events.Event.TheVariants.{Opened, Arrived, Ended, Closed};
ghost use Rattle.session_mux.specs.Completion.{Standing, start_of, fed, events_of, end_of, begins_bad, session_at, fault_met, is_fault, completed};
ghost use Rattle.session_mux.specs.MuxSteps.{MayWantMemory};
ghost use Rattle.session_mux.specs.WorkedTraces.{one_session, two_sessions, kind_five, cut_data, open_twice, open_again, named_admin, third_role, nameless, data_unopened, close_unopened, one_faulty, closed_within};

/// One session that sends a frame and is closed.
pub fn worked_session()
    ensures events { events_of (fed (start_of Trace) one_session) ≡ Opened 0 Admin ∷ Arrived 0 ann_frame ∷ Closed 0 0 ∷ [] }
    ensures tail { (end_of (fed (start_of Trace) one_session)).input ≡ [] }
    ensures place { (end_of (fed (start_of Trace) one_session)).before ≡ 44 }
    ensures frames { completed Trace one_session ≡ (0, (Admin, ann_frame)) ∷ [] }
{}

/// Two sessions, of which the one that began later is done earlier.
pub fn worked_interleaving()
    ensures len { length two_sessions ≡ 91 }
    ensures frames { completed Trace two_sessions ≡ (1, (Identity (97 ∷ 110 ∷ 110 ∷ []), ann_frame)) ∷ (0, (Admin, ann_frame)) ∷ [] }
    ensures before_73 { completed Trace (take 72 two_sessions) ≡ [] }
    ensures by_73 { length (completed Trace (take 73 two_sessions)) ≡ 1 }
    ensures before_91 { length (completed Trace (take 90 two_sessions)) ≡ 1 }
{}

/// Each bad record, with its place.
pub fn worked_bad_records()
    ensures kind { begins_bad (end_of (fed (start_of Trace) kind_five)) ≡ true }
    ensures kind_place { (end_of (fed (start_of Trace) kind_five)).before ≡ 4 }
    ensures kind_events { events_of (fed (start_of Trace) kind_five) ≡ Opened 0 Admin ∷ [] }
    ensures twice { begins_bad (end_of (fed (start_of Trace) open_twice)) ≡ true }
    ensures twice_place { (end_of (fed (start_of Trace) open_twice)).before ≡ 4 }
    ensures again { begins_bad (end_of (fed (start_of Trace) open_again)) ≡ true }
    ensures again_place { (end_of (fed (start_of Trace) open_again)).before ≡ 6 }
    ensures admin { begins_bad (end_of (fed (start_of Trace) named_admin)) ≡ true }
    ensures role { begins_bad (end_of (fed (start_of Trace) third_role)) ≡ true }
    ensures nameless { begins_bad (end_of (fed (start_of Trace) nameless)) ≡ true }
    ensures data_of_none { begins_bad (end_of (fed (start_of Trace) data_unopened)) ≡ true }
    ensures data_place { (end_of (fed (start_of Trace) data_unopened)).before ≡ 4 }
    ensures close_of_none { begins_bad (end_of (fed (start_of Trace) close_unopened)) ≡ true }
{}

/// A trace that ends within a record, and a session that is closed within a frame.
pub fn worked_tails()
    ensures cut { (end_of (fed (start_of Trace) cut_data)).input ≡ 2 ∷ 0 ∷ 34 ∷ [] }
    ensures cut_place { (end_of (fed (start_of Trace) cut_data)).before ≡ 4 }
    ensures cut_good { begins_bad (end_of (fed (start_of Trace) cut_data)) ≡ false }
    ensures within { events_of (fed (start_of Trace) closed_within) ≡ Opened 0 Admin ∷ Closed 0 20 ∷ [] }
    ensures plain { (end_of (fed (start_of Plain) (take 20 ann_bytes))).input ≡ [] }
    ensures plain_events { events_of (fed (start_of Plain) (take 20 ann_bytes)) ≡ [] }
    ensures plain_frames { completed Plain (ann_bytes ++ take 20 ann_bytes) ≡ (0, (Admin, ann_frame)) ∷ [] }
{}

/// A session at fault is read no further, and the others go on.
pub fn worked_fault()
    ensures events { events_of (fed (start_of Trace) one_faulty)
        ≡ Opened 0 Admin ∷ Opened 1 (Identity (97 ∷ 110 ∷ 110 ∷ [])) ∷ Ended 0 1 0 ∷ Arrived 1 ann_frame ∷ Closed 0 0 ∷ [] }
    ensures good { begins_bad (end_of (fed (start_of Trace) one_faulty)) ≡ false }
{}

/// The fault of plain input that a session has met, and the event by which it was given.
pub fn worked_met()
    ensures met { fault_met (session_at (end_of (fed (start_of Plain) (ann_bytes ++ unmarked_bytes))).sessions 0) ≡ Some BadMarker }
    ensures unmet { fault_met (session_at (end_of (fed (start_of Plain) ann_bytes)).sessions 0) ≡ None }
    ensures given { list_any is_fault (events_of (fed (start_of Plain) (ann_bytes ++ unmarked_bytes))) ≡ true }
    ensures none_given { list_any is_fault (events_of (fed (start_of Plain) ann_bytes)) ≡ false }
{}

/// Memory may be wanted for a frame, and for a record before a bad one; not where nothing came, not for the bad record, and not for a
/// frame behind the fault of plain input.
pub fn worked_memory()
    ensures frame { MayWantMemory (fed (start_of Plain) ann_bytes) }
    ensures nothing { MayWantMemory (start_of Plain) → ⊥ }
    ensures before_bad { MayWantMemory (fed (start_of Trace) data_unopened) }
    ensures at_bad { MayWantMemory (fed (end_of (fed (start_of Trace) data_unopened)) ann_bytes) → ⊥ }
    ensures behind { MayWantMemory (fed (end_of (fed (start_of Plain) (ann_bytes ++ unmarked_bytes))) ann_bytes) → ⊥ }
{}
