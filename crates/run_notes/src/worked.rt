ghost use Rattle.std.specs.Prelude.{◌≡◌, [], ◌∷◌, ◌++◌, codes, map, take, true, false};
ghost use Rattle.channel_frame.specs.WorkedFrames.{ann_bytes, cut_bytes, unmarked_bytes, longer_body, short_header};
ghost use Rattle.session_mux.specs.declared.sessions.Form.TheVariants.{Plain, Trace};
ghost use Rattle.session_mux.specs.WorkedTraces.{two_sessions, kind_five, cut_data, one_faulty, closed_within};
ghost use Rattle.ziti_outside.specs.declared.desk.Part.TheVariants.{Zero};
ghost use Rattle.run_notes.specs.declared.ends.Full.TheVariants as full;
ghost use Rattle.run_notes.specs.declared.status.Status.TheVariants as status;
ghost use Rattle.run_notes.specs.Endings.{ending, is_cut, is_kept};
ghost use Rattle.run_notes.specs.Inputs.{events_in};
ghost use Rattle.run_notes.specs.KnownSessions.{count_at, counted};
ghost use Rattle.run_notes.specs.Notes.{damaged_note, full_note, notes_of, session_note, usage_note};
ghost use Rattle.run_notes.specs.Statuses.{number_of};
ghost use Rattle.run_notes.specs.WorkedNotes.{all_statuses, plain_notes, trace_notes, two_and_faulty};

/// Of the eleven statuses, in the order of their numbers: the numbers; which cut a run short, ReadFault, WriteFault, DiskFault and
/// NoMemory; and at which all that was answered is kept, Done, BadInput, Truncated, ReadFault and InputTooLong.
pub fn worked_statuses()
    ensures numbers { map number_of all_statuses ≡ 0 ∷ 1 ∷ 2 ∷ 3 ∷ 4 ∷ 5 ∷ 6 ∷ 7 ∷ 8 ∷ 9 ∷ 10 ∷ [] }
    ensures cut { map is_cut all_statuses ≡ false ∷ false ∷ false ∷ false ∷ true ∷ true ∷ true ∷ false ∷ true ∷ false ∷ false ∷ [] }
    ensures kept { map is_kept all_statuses ≡ true ∷ false ∷ true ∷ true ∷ true ∷ false ∷ false ∷ false ∷ false ∷ true ∷ false ∷ [] }
{}

/// How many replies a session got goes up by one, of that session alone; behind 4,294,967,295 comes 0.
pub fn worked_counts()
    ensures second { counted (0 ∷ 5 ∷ 7 ∷ []) 1 ≡ 0 ∷ 6 ∷ 7 ∷ [] }
    ensures greatest { counted (4_294_967_294 ∷ 5 ∷ []) 0 ≡ 4_294_967_295 ∷ 5 ∷ [] }
    ensures behind_the_greatest { counted (4_294_967_295 ∷ 5 ∷ []) 0 ≡ 0 ∷ 5 ∷ [] }
    ensures asked { count_at (0 ∷ 4_294_967_295 ∷ []) 1 ≡ 4_294_967_295 }
{}

/// How whole, cut and faulty inputs end, as long as they may be and longer: a fault comes before a longer input, and this before the
/// rest of a frame.
pub fn worked_endings()
    ensures empty { ending Plain [] false ≡ status.Done }
    ensures whole { ending Plain ann_bytes false ≡ status.Done }
    ensures longer { ending Plain ann_bytes true ≡ status.InputTooLong }
    ensures cut { ending Plain cut_bytes false ≡ status.Truncated }
    ensures cut_second { ending Plain (ann_bytes ++ cut_bytes) false ≡ status.Truncated }
    ensures cut_and_longer { ending Plain cut_bytes true ≡ status.InputTooLong }
    ensures faulty { ending Plain (ann_bytes ++ unmarked_bytes) false ≡ status.BadInput }
    ensures faulty_and_longer { ending Plain (ann_bytes ++ unmarked_bytes) true ≡ status.BadInput }
{}

/// The notes of such inputs. A read fault is noted behind the fault of the input; a write fault, a disk
/// fault and want of memory are noted alone. A damaged folder is told by the slot and the place, and a full one by what is full.
pub fn worked_notes()
    ensures done { plain_notes ann_bytes status.Done ≡ [] }
    ensures cut { plain_notes cut_bytes status.Truncated ≡ codes "zitictl: session 0: 19 bytes left\n" }
    ensures marker { plain_notes (ann_bytes ++ unmarked_bytes) status.BadInput ≡ codes "zitictl: session 0: BadMarker at 34\n" }
    ensures body { plain_notes longer_body status.BadInput ≡ codes "zitictl: session 0: TooLong at 0\n" }
    ensures headers { plain_notes short_header status.BadInput ≡ codes "zitictl: session 0: BadHeaders at 0\n" }
    ensures longer { plain_notes cut_bytes status.InputTooLong ≡ codes "zitictl: input too long\n" }
    ensures unread { plain_notes cut_bytes status.ReadFault ≡ codes "zitictl: read fault\n" }
    ensures unread_behind { plain_notes (ann_bytes ++ unmarked_bytes) status.ReadFault ≡ codes "zitictl: session 0: BadMarker at 34\nzitictl: read fault\n" }
    ensures unsaid { notes_of Plain [] (ann_bytes ++ unmarked_bytes) status.WriteFault ≡ codes "zitictl: write fault\n" }
    ensures unsaid_second { notes_of Plain (take 1 (events_in Plain two_and_faulty)) two_and_faulty status.WriteFault ≡ codes "zitictl: write fault\n" }
    ensures no_memory { notes_of Plain [] (ann_bytes ++ unmarked_bytes) status.NoMemory ≡ codes "zitictl: no memory\n" }
    ensures no_more_memory { notes_of Plain (take 2 (events_in Plain two_and_faulty)) two_and_faulty status.NoMemory ≡ codes "zitictl: no memory\n" }
    ensures disk { notes_of Plain [] (ann_bytes ++ unmarked_bytes) status.DiskFault ≡ codes "zitictl: disk fault\n" }
    ensures disk_second { notes_of Plain (take 1 (events_in Plain two_and_faulty)) two_and_faulty status.DiskFault ≡ codes "zitictl: disk fault\n" }
    ensures damaged { damaged_note Zero 8 ≡ codes "zitictl: damaged: file 0 at 8\n" }
    ensures journal_full { full_note full.Journal ≡ codes "zitictl: journal full\n" }
    ensures mark_full { full_note full.Mark ≡ codes "zitictl: mark full\n" }
    ensures usage { usage_note ≡ codes "zitictl: usage: zitictl dry | replay [--sessions] | audit | compact | load N | advise I S | ship N | follow\n" }
    ensures another_session { session_note 12 (codes "3 bytes left") ≡ codes "zitictl: session 12: 3 bytes left\n" }
{}

/// How traces end, and their notes: a session's fault, and a bad record, which comes before a longer input; the rest of a session that was closed within a
/// frame, and that of the trace itself.
pub fn worked_traces()
    ensures whole { ending Trace two_sessions false ≡ status.Done }
    ensures faulty { ending Trace one_faulty false ≡ status.BadInput }
    ensures faulty_note { trace_notes one_faulty status.BadInput ≡ codes "zitictl: session 0: BadMarker at 0\n" }
    ensures unread_note { trace_notes one_faulty status.ReadFault ≡ codes "zitictl: session 0: BadMarker at 0\nzitictl: read fault\n" }
    ensures unsaid_note { notes_of Trace (take 3 (events_in Trace one_faulty)) one_faulty status.WriteFault ≡ codes "zitictl: session 0: BadMarker at 0\nzitictl: write fault\n" }
    ensures no_memory_note { notes_of Trace (take 3 (events_in Trace one_faulty)) one_faulty status.NoMemory ≡ codes "zitictl: session 0: BadMarker at 0\nzitictl: no memory\n" }
    ensures disk_note { notes_of Trace (take 3 (events_in Trace one_faulty)) one_faulty status.DiskFault ≡ codes "zitictl: session 0: BadMarker at 0\nzitictl: disk fault\n" }
    ensures disk_before_note { notes_of Trace (take 2 (events_in Trace one_faulty)) one_faulty status.DiskFault ≡ codes "zitictl: disk fault\n" }
    ensures bad { ending Trace kind_five false ≡ status.BadInput }
    ensures bad_and_longer { ending Trace kind_five true ≡ status.BadInput }
    ensures bad_note { trace_notes kind_five status.BadInput ≡ codes "zitictl: trace: BadRecord at 4\n" }
    ensures cut { ending Trace cut_data false ≡ status.Truncated }
    ensures cut_note { trace_notes cut_data status.Truncated ≡ codes "zitictl: trace: 3 bytes left\n" }
    ensures cut_and_longer { ending Trace cut_data true ≡ status.InputTooLong }
    ensures closed { ending Trace closed_within false ≡ status.Truncated }
    ensures closed_note { trace_notes closed_within status.Truncated ≡ codes "zitictl: session 0: 20 bytes left\n" }
    ensures cut_twice { trace_notes (closed_within ++ (1 ∷ 1 ∷ [])) status.Truncated ≡ codes "zitictl: session 0: 20 bytes left\nzitictl: trace: 2 bytes left\n" }
{}
