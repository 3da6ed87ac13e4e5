ghost use Rattle.std.specs.Prelude.{◌≡◌, ◌⊎◌, ℕ, ◌≢◌, ◌<◌, ◌≤◌, ◌^◌, Bool, true, false, IsTrue, List, [], ◌∷◌, ◌++◌, codes, decimal, length, take, None, Some};
ghost use Rattle.std.specs.declared.option.Option.{Option};
ghost use Rattle.channel_frame.specs.declared.frames.Frame.{Frame};
ghost use Rattle.channel_frame.specs.StreamReading.{Reads, fault_of, frames_of, rest_of};
ghost use Rattle.ctrl_model.specs.declared.kinds.Who.TheVariants.{Admin};
ghost use Rattle.ctrl_model.specs.Limits.{last_serial};
ghost use Rattle.ctrl_model.specs.State.{State, start};
ghost use Rattle.ctrl_model.specs.ValidState.{ValidState};
ghost use Rattle.ctrl_keep.specs.KeptMachine.{Machine};
ghost use Rattle.policy_advisor.specs.Reports.{report_of};
ghost use Rattle.ctrl_model.specs.declared.formats.Format.{Format};
ghost use Rattle.slot_files.specs.FolderImage.{Stands};
ghost use Rattle.row_store.specs.OpenedStates.{OpensToState, IsStateless};
ghost use Rattle.ship_frames.specs.Pieces.{written};
ghost use Rattle.ship_core.specs.Shipping.{shipped};
ghost use Rattle.ctrl_keep.specs.MigratedFolders.{OpensInFirst};
ghost use Rattle.row_store.specs.declared.bounds.StoreBounds.{StoreBounds};
ghost use Rattle.session_mux.specs.declared.events.Event.{Event};
ghost use Rattle.session_mux.specs.declared.sessions.Form.{Form};
ghost use Rattle.session_mux.specs.declared.sessions.Form.TheVariants.{Plain};
ghost use Rattle.session_mux.specs.Completion.{completed};
ghost use Rattle.run_notes.specs.declared.status.Status.{Status};
ghost use Rattle.run_notes.specs.declared.status.Status.TheVariants.{Done, BadInput, Truncated, ReadFault, WriteFault, DiskFault, Damaged, NoMemory};
ghost use Rattle.ziti_outside.specs.Told.{IsFront, Took};
ghost use Rattle.ziti_outside.specs.Causes.{Rose};
ghost use Rattle.ziti_outside.specs.declared.desk.Part.{Part};
ghost use Rattle.ziti_outside.specs.declared.desk.Part.TheVariants.{Mark};
ghost use Rattle.journal_core.specs.Room.{IsWithin};
ghost use Rattle.ziti_outside.specs.Images.{Image};
ghost use Rattle.ctrl_serve.specs.SaidReplies.{SaysAll, SaysFront, joined, AreWhole, AreCut};
ghost use Rattle.ctrl_serve.specs.FrameAnswer.{alone, answers, each_reply, last_machine, machine_behind_alone, no_bounds, replies, spoken_alone};
ghost use Rattle.run_notes.specs.Endings.{ending, is_kept};
ghost use Rattle.run_notes.specs.Inputs.{events_in};
ghost use Rattle.ctrl_serve.specs.Reading.{is_decided, StaysNear};
ghost use Rattle.run_notes.specs.Notes.{damaged_note, session_note, status_lines};
ghost use Rattle.run_notes.specs.NotedLines.{NotesLines};
ghost use Rattle.ctrl_serve.specs.Headline.{Serves, Replays, Runs, Taking, taking_of, folder_bounds, IsLeftAlone};
ghost use Rattle.ctrl_serve.specs.LeftFolders.{HoldsAlone, HoldsGranted, KeepsAllFrames};
ghost use Rattle.ctrl_serve.specs.UncompactedFolders.{ask_for_compact, CompactsNothing, LeavesOtherSlot};
ghost use Rattle.load_gen.specs.LoadFrames.{load_frames};
ghost use Rattle.ctrl_serve.specs.Loads.{counts_line, state_of_load, IsSaid, SaysOneLine};
ghost use Rattle.ctrl_serve.specs.ShipWords.{SaysOf};
ghost use Rattle.ctrl_serve.specs.RunStops.{StopFinds, HoldsFirst};
ghost use Rattle.ctrl_serve.specs.OpenedFolders.{OpensTo};
ghost use Rattle.ctrl_serve.specs.CommandLine.{form_of, number_below};
ghost use Rattle.ctrl_serve.specs.declared.command_line.Form as command;
ghost use Rattle.ctrl_serve.specs.declared.command_line.Form.TheVariants.{Replay, Audit, Compact, Advise, Ship, Follow};
ghost use Rattle.ctrl_serve.specs.CompleteRuns.{IsCalm, IsFull, CompletesCopy, CompletesFrom, ComesOutFrom};
ghost use Rattle.ziti_outside.specs.Views.{Seen};
ghost use Rattle.ctrl_serve.specs.declared.bounds.Bounds.{Bounds};

use ziti_outside::{Desk, Source};

/// Plain input is one session, an administrator's: the replies are those along its frames, counted from 0 and without a tag.
pub fn plain_input_is_one_session()
    ensures replies { (bounds : StoreBounds) (machine : Machine) (bytes : List ℕ) → each_reply Plain bounds machine bytes ≡ spoken_alone bounds Admin 0 machine (frames_of bytes) }
    ensures last { (bounds : StoreBounds) (machine : Machine) (bytes : List ℕ) → last_machine Plain bounds machine bytes ≡ machine_behind_alone bounds Admin machine (frames_of bytes) }
{}

/// An input that is decided decides its events: with more bytes behind it it has the same events, and so the same replies and the same last
/// machine, and it ends with `BadInput`, also where the source gave more than is used.
pub fn a_decided_input_decides_its_events()
    ensures events { (form : Form) (used more : List ℕ) → is_decided form used ≡ true → events_in form (used ++ more) ≡ events_in form used }
    ensures decided { (form : Form) (used more : List ℕ) → is_decided form used ≡ true → is_decided form (used ++ more) ≡ true }
    ensures replies { (form : Form) (bounds : StoreBounds) (machine : Machine) (used more : List ℕ) → is_decided form used ≡ true
        → replies form bounds machine (used ++ more) ≡ replies form bounds machine used }
    ensures last { (form : Form) (bounds : StoreBounds) (machine : Machine) (used more : List ℕ) → is_decided form used ≡ true
        → last_machine form bounds machine (used ++ more) ≡ last_machine form bounds machine used }
    ensures ending { (form : Form) (used more : List ℕ) (over : Bool) → is_decided form used ≡ true → ending form (used ++ more) over ≡ BadInput }
{}

/// At a failed say the bytes that were taken stay near whatever is taken as answered: of every split of the events by which what was said is the
/// replies to the first ones and no more than a part of the next one, all that was taken but at most a piece did not decide the input, and
/// brought none but those first events. So nothing hangs on which split a run names.
pub fn nearness_hangs_on_what_was_said()
    ensures near { (form : Form) (bounds : StoreBounds) (machine : Machine) (most : ℕ) (left left_after : Option (List ℕ)) (before now : Seen)
        → (serves : Serves (taking_of form most) bounds machine left left_after before now WriteFault) → (answered unanswered : List Event)
        → answered ++ unanswered ≡ events_in form (take most serves.taken) → (says : SaysFront form bounds machine serves.said answered unanswered) → says.front ≢ says.reply
        → StaysNear form most serves.taken answered }
{}

/// What `Done` says of a told plain input, in plain words: it was read to its end and is no longer than the bound, it leaves no
/// tail, and exactly the machine's replies were said. Where it is the spellings of some frames, these are the replies to
/// those frames. Nothing was noted.
pub fn done_says_all()
    ensures read { (bounds : StoreBounds) (machine : Machine) (most : ℕ) (bytes : List ℕ) (left : Option (List ℕ)) (before now : Seen)
        → Serves (taking_of Plain most) bounds machine (Some bytes) left before now Done → (left ≡ Some []) × (length bytes ≤ most) }
    ensures whole { (bounds : StoreBounds) (machine : Machine) (most : ℕ) (bytes : List ℕ) (left : Option (List ℕ)) (before now : Seen)
        → Serves (taking_of Plain most) bounds machine (Some bytes) left before now Done → rest_of bytes ≡ [] }
    ensures said { (bounds : StoreBounds) (machine : Machine) (most : ℕ) (bytes said : List ℕ) (left : Option (List ℕ)) (before now : Seen)
        → before.said ≡ Some said → Serves (taking_of Plain most) bounds machine (Some bytes) left before now Done → now.said ≡ Some (said ++ replies Plain bounds machine bytes) }
    ensures frames { (bounds : StoreBounds) (machine : Machine) (most : ℕ) (bytes said : List ℕ) (left : Option (List ℕ)) (before now : Seen) (frames : List Frame)
        → before.said ≡ Some said → Serves (taking_of Plain most) bounds machine (Some bytes) left before now Done → Reads bytes frames [] → now.said ≡ Some (said ++ answers bounds Admin 0 machine frames) }
    ensures noted { (bounds : StoreBounds) (machine : Machine) (most : ℕ) (bytes : List ℕ) (left : Option (List ℕ)) (before now : Seen)
        → Serves (taking_of Plain most) bounds machine (Some bytes) left before now Done → Took before.noted now.noted [] }
{}

/// What `Truncated` says of a told plain input, in plain words: it was read to its end and is no longer than the bound, and exactly the
/// machine's replies were said. Behind the frames stands no fault but the rest of an unfinished frame, which is not empty;
/// and the note, where no note failed, counts its bytes.
pub fn truncated_says_all()
    ensures read { (bounds : StoreBounds) (machine : Machine) (most : ℕ) (bytes : List ℕ) (left : Option (List ℕ)) (before now : Seen)
        → Serves (taking_of Plain most) bounds machine (Some bytes) left before now Truncated → (left ≡ Some []) × (length bytes ≤ most) }
    ensures rest { (bounds : StoreBounds) (machine : Machine) (most : ℕ) (bytes : List ℕ) (left : Option (List ℕ)) (before now : Seen)
        → Serves (taking_of Plain most) bounds machine (Some bytes) left before now Truncated → (fault_of bytes ≡ None) × (rest_of bytes ≢ []) }
    ensures said { (bounds : StoreBounds) (machine : Machine) (most : ℕ) (bytes said : List ℕ) (left : Option (List ℕ)) (before now : Seen)
        → before.said ≡ Some said → Serves (taking_of Plain most) bounds machine (Some bytes) left before now Truncated → now.said ≡ Some (said ++ replies Plain bounds machine bytes) }
    ensures noted { (bounds : StoreBounds) (machine : Machine) (most : ℕ) (bytes : List ℕ) (left : Option (List ℕ)) (before now : Seen)
        → Serves (taking_of Plain most) bounds machine (Some bytes) left before now Truncated → (Rose before.note_faults now.note_faults → ⊥)
        → Took before.noted now.noted (session_note 0 (decimal (length (rest_of bytes)) ++ codes " bytes left")) }
{}

/// What was said of the replies where a run was cut short are whole replies, and where one was not taken a front of the next one beside
/// them; so it is a front of all of them.
pub fn cut_runs_say_fronts()
    ensures done { (form : Form) (bounds : StoreBounds) (machine : Machine) (bytes said : List ℕ) (answered unanswered : List Event) → answered ++ unanswered ≡ events_in form bytes
        → SaysAll form bounds machine said answered → AreWhole said (each_reply form bounds machine bytes) }
    ensures cut_off { (form : Form) (bounds : StoreBounds) (machine : Machine) (bytes said : List ℕ) (answered unanswered : List Event) → answered ++ unanswered ≡ events_in form bytes
        → SaysFront form bounds machine said answered unanswered → AreCut said (each_reply form bounds machine bytes) }
    ensures whole { (said : List ℕ) (all : List (List ℕ)) → AreWhole said all → IsFront said (joined all) }
    ensures cut { (said : List ℕ) (all : List (List ℕ)) → AreCut said all → IsFront said (joined all) }
{}

/// What was noted where a run over plain input was cut short: the one line of its status, or a front of it. No fault stands before it, since the
/// fault of plain input is its last event.
pub fn cut_plain_runs_note_one_line()
    ensures unsaid { (bounds : StoreBounds) (machine : Machine) (most : ℕ) (left left_after : Option (List ℕ)) (before now : Seen)
        → Serves (taking_of Plain most) bounds machine left left_after before now WriteFault
        → NotesLines (status_lines [] WriteFault) before now }
    ensures disk { (bounds : StoreBounds) (machine : Machine) (most : ℕ) (left left_after : Option (List ℕ)) (before now : Seen)
        → Serves (taking_of Plain most) bounds machine left left_after before now DiskFault
        → NotesLines (status_lines [] DiskFault) before now }
    ensures memory { (bounds : StoreBounds) (machine : Machine) (most : ℕ) (left left_after : Option (List ℕ)) (before now : Seen)
        → Serves (taking_of Plain most) bounds machine left left_after before now NoMemory
        → NotesLines (status_lines [] NoMemory) before now }
{}

/// What `Done` says of a run that says one line to a told desk, as of a generated load or of a folder: exactly the line was said, and nothing was
/// noted.
pub fn done_says_the_line()
    ensures said { (line said : List ℕ) (before now : Seen) → before.said ≡ Some said → SaysOneLine line before now Done → now.said ≡ Some (said ++ line) }
    ensures noted { (line : List ℕ) (before now : Seen) → SaysOneLine line before now Done → Took before.noted now.noted [] }
{}

/// The words that have a number below a bound are the decimal texts of the numbers below it, each of its own.
pub fn numbers_have_one_word()
    ensures text { (bound : ℕ) (word : List ℕ) (number : ℕ) → number_below bound word ≡ Some number → word ≡ decimal number }
    ensures below { (bound : ℕ) (word : List ℕ) (number : ℕ) → number_below bound word ≡ Some number → number < bound }
    ensures number { (bound number : ℕ) → bound ≤ 2 ^ 64 → number < bound → number_below bound (decimal number) ≡ Some number }
{}

/// What a stop within a run finds holds every frame whose reply was taken whole, and at most one frame more. If of the reply bytes that were taken
/// the first so many replies are a front, then the folder opens to the state behind some number of the first frames: so many at least, and
/// all their replies but the last one were taken whole. It speaks of a desk that tells what it took, which was `before` at the start of the run.
pub fn stops_keep_what_was_acknowledged()
    ensures holds { (form : Form) (bounds : StoreBounds) (m : Machine) (used before taken : List ℕ) (image : Image) (n : ℕ)
        → StopFinds form bounds m (events_in form used) (Some before) image (before ++ taken) → n ≤ length (completed form used)
        → IsFront (joined (take n (each_reply form bounds m used))) taken → HoldsFirst form bounds m used n image taken }
{}

/// A run on what a stop left goes on from there: where the folder opens to a state, the machine to which the run opens it has that very state,
/// and no damage is told of it.
pub fn a_run_goes_on_from_a_stop()
    ensures state { (image : Image) (s : State) (m : Machine) → OpensToState image s → OpensTo image m → m.state ≡ s }
    ensures undamaged { (image : Image) (s : State) (part : Part) (at : ℕ) → OpensToState image s → IsStateless image part at → ⊥ }
{}

/// A replay whose frames ask for no Compact carries none out: its machine's mark stays as long. So where it kept all, on a desk that tells its
/// folder, the slot that the mark does not name reads as before, and so does the mark, unless it was empty. Where it is done, that is said
/// of the frames of all that its source had. A folder of the first format is migrated when it is opened, which is excluded here.
pub fn runs_without_compact_leave_the_other_slot<S: Source, D: Desk>()
    ensures machine { (form : Form) (bounds : StoreBounds) (machine : Machine) (used : List ℕ) → ask_for_compact (completed form used) ≡ false
        → CompactsNothing machine (last_machine form bounds machine used) }
    ensures folder { (taking : Taking) (bounds : StoreBounds) (source source_now : S) (desk desk_now : D) (status : Status)
        → (replays : Replays taking bounds (record { left = S.left; faults = S.faults; tells = D.tells; seen = D.seen; stopped = D.stopped }) source source_now desk desk_now status)
        → is_kept status ≡ true → IsTrue D.tells → ((s : State) → OpensInFirst (D.seen desk).reads s → ⊥) → ask_for_compact (completed taking.form (take taking.most replays.serves.taken)) ≡ false
        → LeavesOtherSlot (D.seen desk).reads (D.seen desk_now).reads }
    ensures done { (bounds : Bounds) (words : List (List ℕ)) (form : Form) (source source_now : S) (desk desk_now : D) (bytes : List ℕ)
        → Runs (record { left = S.left; faults = S.faults; tells = D.tells; seen = D.seen; stopped = D.stopped }) bounds words (Some (Replay form)) source source_now desk desk_now Done
        → S.left source ≡ Some bytes → IsTrue D.tells → ((s : State) → OpensInFirst (D.seen desk).reads s → ⊥) → ask_for_compact (completed form bytes) ≡ false → LeavesOtherSlot (D.seen desk).reads (D.seen desk_now).reads }
{}

/// What a run on a folder comes to where no call failed, those of notes aside, and the folder tells its bytes and opens to a state. Want of memory
/// is the one thing that may still cut it short. Otherwise `replay`, `follow` and `compact` end with FolderFull exactly where the folder is one of the
/// first format and has no room to be migrated. Where it has room, `replay` is complete from the machine of that state, and `follow` from the copy that
/// has its rows: it ended as the bytes decide, and all replies were said; `audit` is done, and said the counts line of that state, and `advise` the report of that state on its two names;
/// `ship` is done, and said all that is shipped of the batches for which the folder stands; and `compact` was done, or was refused for want of room
/// where the machine's step refuses it.
pub fn runs_are_complete<S: Source, D: Desk>()
    ensures replay { (bounds : Bounds) (words : List (List ℕ)) (form : Form) (source source_now : S) (desk desk_now : D) (status : Status) (s : State)
        → Runs (record { left = S.left; faults = S.faults; tells = D.tells; seen = D.seen; stopped = D.stopped }) bounds words (Some (Replay form)) source source_now desk desk_now status
        → IsTrue D.tells → OpensToState (D.seen desk).reads s → IsCalm (S.faults source) (S.faults source_now) → IsCalm (D.seen desk).say_faults (D.seen desk_now).say_faults → IsCalm (D.seen desk).disk_faults (D.seen desk_now).disk_faults
        → (status ≡ NoMemory) ⊎ IsFull (folder_bounds bounds) (D.seen desk).reads status ⊎ CompletesFrom s (taking_of form bounds.input) (folder_bounds bounds) (S.left source) (S.left source_now) (D.seen desk) (D.seen desk_now) status }
    ensures follow { (bounds : Bounds) (words : List (List ℕ)) (source source_now : S) (desk desk_now : D) (status : Status) (s : State)
        → Runs (record { left = S.left; faults = S.faults; tells = D.tells; seen = D.seen; stopped = D.stopped }) bounds words (Some Follow) source source_now desk desk_now status
        → IsTrue D.tells → OpensToState (D.seen desk).reads s → IsCalm (S.faults source) (S.faults source_now) → IsCalm (D.seen desk).say_faults (D.seen desk_now).say_faults → IsCalm (D.seen desk).disk_faults (D.seen desk_now).disk_faults
        → (status ≡ NoMemory) ⊎ IsFull (folder_bounds bounds) (D.seen desk).reads status ⊎ CompletesCopy s (taking_of Plain bounds.input) (folder_bounds bounds) (S.left source) (S.left source_now) (D.seen desk) (D.seen desk_now) status }
    ensures audit { (bounds : Bounds) (words : List (List ℕ)) (source source_now : S) (desk desk_now : D) (status : Status) (s : State)
        → Runs (record { left = S.left; faults = S.faults; tells = D.tells; seen = D.seen; stopped = D.stopped }) bounds words (Some Audit) source source_now desk desk_now status
        → IsTrue D.tells → OpensToState (D.seen desk).reads s → IsCalm (D.seen desk).say_faults (D.seen desk_now).say_faults → IsCalm (D.seen desk).disk_faults (D.seen desk_now).disk_faults
        → IsSaid (counts_line s) (D.seen desk).said (D.seen desk_now).said status }
    ensures advise { (bounds : Bounds) (identity service : List ℕ) (source source_now : S) (desk desk_now : D) (status : Status) (s : State)
        → Runs (record { left = S.left; faults = S.faults; tells = D.tells; seen = D.seen; stopped = D.stopped }) bounds (codes "advise" ∷ identity ∷ service ∷ []) (Some Advise) source source_now desk desk_now status
        → IsTrue D.tells → OpensToState (D.seen desk).reads s → IsCalm (D.seen desk).say_faults (D.seen desk_now).say_faults → IsCalm (D.seen desk).disk_faults (D.seen desk_now).disk_faults
        → IsSaid (report_of s identity service) (D.seen desk).said (D.seen desk_now).said status }
    ensures ship { (bounds : Bounds) (words : List (List ℕ)) (from : ℕ) (source source_now : S) (desk desk_now : D) (status : Status) (s : State) (format : Format) (batches : List (List ℕ))
        → Runs (record { left = S.left; faults = S.faults; tells = D.tells; seen = D.seen; stopped = D.stopped }) bounds words (Some (Ship from)) source source_now desk desk_now status
        → IsTrue D.tells → OpensToState (D.seen desk).reads s → Stands format (D.seen desk).reads batches → IsCalm (D.seen desk).say_faults (D.seen desk_now).say_faults → IsCalm (D.seen desk).disk_faults (D.seen desk_now).disk_faults
        → IsSaid (written (shipped from format batches)) (D.seen desk).said (D.seen desk_now).said status }
    ensures compact { (bounds : Bounds) (words : List (List ℕ)) (source source_now : S) (desk desk_now : D) (status : Status) (s : State)
        → Runs (record { left = S.left; faults = S.faults; tells = D.tells; seen = D.seen; stopped = D.stopped }) bounds words (Some Compact) source source_now desk desk_now status
        → IsTrue D.tells → OpensToState (D.seen desk).reads s → IsCalm (D.seen desk).disk_faults (D.seen desk_now).disk_faults
        → (status ≡ NoMemory) ⊎ IsFull (folder_bounds bounds) (D.seen desk).reads status ⊎ ComesOutFrom s (D.seen desk).reads (folder_bounds bounds) status }
{}

/// A call that failed in a run, as its count tells, is what the status tells: where a take failed it is ReadFault, where a say failed
/// WriteFault, and where a call on the folder failed DiskFault. So in one run calls of one kind alone fail, those of notes aside.
pub fn a_told_failure_is_the_status<S: Source, D: Desk>()
    ensures take { (bounds : Bounds) (words : List (List ℕ)) (form : Option command.Form) (source source_now : S) (desk desk_now : D) (status : Status)
        → Runs (record { left = S.left; faults = S.faults; tells = D.tells; seen = D.seen; stopped = D.stopped }) bounds words form source source_now desk desk_now status
        → S.faults source < S.faults source_now → status ≡ ReadFault }
    ensures say { (bounds : Bounds) (words : List (List ℕ)) (form : Option command.Form) (source source_now : S) (desk desk_now : D) (status : Status)
        → Runs (record { left = S.left; faults = S.faults; tells = D.tells; seen = D.seen; stopped = D.stopped }) bounds words form source source_now desk desk_now status
        → (D.seen desk).say_faults < (D.seen desk_now).say_faults → status ≡ WriteFault }
    ensures disk { (bounds : Bounds) (words : List (List ℕ)) (form : Option command.Form) (source source_now : S) (desk desk_now : D) (status : Status)
        → Runs (record { left = S.left; faults = S.faults; tells = D.tells; seen = D.seen; stopped = D.stopped }) bounds words form source source_now desk desk_now status
        → (D.seen desk).disk_faults < (D.seen desk_now).disk_faults → status ≡ DiskFault }
{}

/// What `Done` says of a replay on a told folder that opened to a state, where the source told its bytes: the folder keeps the machine behind
/// all frames of them, and opens to its state; and so does all that a stop may leave.
pub fn done_keeps_all<S: Source, D: Desk>()
    ensures folder { (bounds : Bounds) (words : List (List ℕ)) (form : Form) (source source_now : S) (desk desk_now : D) (bytes : List ℕ) (s : State)
        → Runs (record { left = S.left; faults = S.faults; tells = D.tells; seen = D.seen; stopped = D.stopped }) bounds words (Some (Replay form)) source source_now desk desk_now Done
        → S.left source ≡ Some bytes → IsTrue D.tells → OpensToState (D.seen desk).reads s
        → KeepsAllFrames form (folder_bounds bounds) bytes s (D.seen desk).reads (D.seen desk_now).reads (D.stopped desk_now).images }
{}

/// No circuit outlives what granted it: where what grants each circuit stands in the state to which a told folder opens, it stands in the state
/// to which the folder opens behind a replay that kept all, or whose say failed. In a folder without a mark, as a new one, it does.
pub fn circuits_stand_on_what_grants_them<S: Source, D: Desk>()
    ensures kept { (bounds : Bounds) (words : List (List ℕ)) (form : Form) (source source_now : S) (desk desk_now : D) (status : Status)
        → Runs (record { left = S.left; faults = S.faults; tells = D.tells; seen = D.seen; stopped = D.stopped }) bounds words (Some (Replay form)) source source_now desk desk_now status
        → IsTrue D.tells → HoldsGranted (D.seen desk).reads → is_kept status ≡ true → HoldsGranted (D.seen desk_now).reads }
    ensures unsaid { (bounds : Bounds) (words : List (List ℕ)) (form : Form) (source source_now : S) (desk desk_now : D)
        → Runs (record { left = S.left; faults = S.faults; tells = D.tells; seen = D.seen; stopped = D.stopped }) bounds words (Some (Replay form)) source source_now desk desk_now WriteFault
        → IsTrue D.tells → HoldsGranted (D.seen desk).reads → HoldsGranted (D.seen desk_now).reads }
    ensures begun_empty { (image : Image) → image Mark ≡ [] → HoldsGranted image }
{}

/// No run makes a slot longer than its bound: where no slot of a told folder read longer at the start none does at the end, whatever the words
/// and whatever came of the run; and so it is of all that a stop may leave at the end, where it was of all that one might have left at the start.
pub fn slots_keep_their_bound<S: Source, D: Desk>()
    ensures reads { (bounds : Bounds) (words : List (List ℕ)) (form : Option command.Form) (source source_now : S) (desk desk_now : D) (status : Status)
        → Runs (record { left = S.left; faults = S.faults; tells = D.tells; seen = D.seen; stopped = D.stopped }) bounds words form source source_now desk desk_now status
        → IsTrue D.tells → IsWithin bounds.slot (D.seen desk).reads → IsWithin bounds.slot (D.seen desk_now).reads }
    ensures found { (bounds : Bounds) (words : List (List ℕ)) (form : Option command.Form) (source source_now : S) (desk desk_now : D) (status : Status)
        → Runs (record { left = S.left; faults = S.faults; tells = D.tells; seen = D.seen; stopped = D.stopped }) bounds words form source source_now desk desk_now status
        → ((image : Image) → (D.stopped desk).images image → IsWithin bounds.slot image) → (image : Image) → (D.stopped desk_now).images image → IsWithin bounds.slot image }
{}

/// What `Done` says of `compact` on a told folder that opened to a state: it opens to the very same state, holds exactly its rows, in the slot that
/// did not stand before unless it was migrated, and nothing in the other one; and all that a stop may leave opens to that state.
pub fn done_compacts_all<S: Source, D: Desk>()
    ensures folder { (bounds : Bounds) (words : List (List ℕ)) (source source_now : S) (desk desk_now : D) (s : State)
        → Runs (record { left = S.left; faults = S.faults; tells = D.tells; seen = D.seen; stopped = D.stopped }) bounds words (Some Compact) source source_now desk desk_now Done
        → IsTrue D.tells → OpensToState (D.seen desk).reads s → HoldsAlone s (D.seen desk).reads (D.seen desk_now).reads (D.stopped desk_now).images }
{}

/// What `Damaged` says under any words: nothing was taken, and nothing said, unless the folder is not told and was shipped: then whole frames were,
/// those of batches that can be spelled, behind a valid state that the folder was found to have.
/// A told folder was left alone, every part of it and all that a stop may leave at any moment; and it opens to no state, at the place that the
/// note names.
pub fn damage_changes_nothing<S: Source, D: Desk>()
    ensures input { (bounds : Bounds) (words : List (List ℕ)) (source source_now : S) (desk desk_now : D)
        → Runs (record { left = S.left; faults = S.faults; tells = D.tells; seen = D.seen; stopped = D.stopped }) bounds words (form_of words) source source_now desk desk_now Damaged
        → source_now ≡ source }
    ensures replies { (bounds : Bounds) (words : List (List ℕ)) (source source_now : S) (desk desk_now : D)
        → Runs (record { left = S.left; faults = S.faults; tells = D.tells; seen = D.seen; stopped = D.stopped }) bounds words (form_of words) source source_now desk desk_now Damaged
        → ((from : ℕ) → form_of words ≡ Some (Ship from) → IsTrue D.tells) → (D.seen desk_now).said ≡ (D.seen desk).said }
    ensures shipped { (bounds : Bounds) (words : List (List ℕ)) (from : ℕ) (source source_now : S) (desk desk_now : D)
        → Runs (record { left = S.left; faults = S.faults; tells = D.tells; seen = D.seen; stopped = D.stopped }) bounds words (Some (Ship from)) source source_now desk desk_now Damaged
        → ((D.seen desk_now).said ≡ (D.seen desk).said) ⊎ ((s : State) × ValidState s × SaysOf from s Damaged (D.seen desk).said (D.seen desk_now).said) }
    ensures folder { (bounds : Bounds) (words : List (List ℕ)) (source source_now : S) (desk desk_now : D)
        → Runs (record { left = S.left; faults = S.faults; tells = D.tells; seen = D.seen; stopped = D.stopped }) bounds words (form_of words) source source_now desk desk_now Damaged
        → IsTrue D.tells → IsLeftAlone D.seen D.stopped desk desk_now }
    ensures place { (bounds : Bounds) (words : List (List ℕ)) (source source_now : S) (desk desk_now : D)
        → Runs (record { left = S.left; faults = S.faults; tells = D.tells; seen = D.seen; stopped = D.stopped }) bounds words (form_of words) source source_now desk desk_now Damaged
        → IsTrue D.tells → (part : Part) × (at : ℕ) × IsStateless (D.seen desk).reads part at × NotesLines (damaged_note part at) (D.seen desk) (D.seen desk_now) }
{}

/// Without a folder no change is counted: behind the frames of any input under `dry`, and behind those of any load, the serial is that of the
/// start. So it is at most the number of the frames, and the last serial is never met: no frame is refused for it, and no want of memory stands
/// for it.
pub fn nothing_is_counted_without_a_folder()
    ensures dry { (used : List ℕ) → (last_machine Plain no_bounds (alone start) used).state.serial ≡ start.serial }
    ensures dry_within { (used : List ℕ) → (last_machine Plain no_bounds (alone start) used).state.serial ≤ length (completed Plain used) }
    ensures load { (number : ℕ) → (state_of_load number).serial ≡ start.serial }
    ensures load_within { (number : ℕ) → (state_of_load number).serial ≤ length (load_frames number) }
    ensures below { start.serial < last_serial }
{}
