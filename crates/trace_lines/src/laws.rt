ghost use Rattle.std.specs.Prelude.{◌≡◌, ℕ, List, [], ◌∷◌};
ghost use Rattle.std.specs.List.{flat_map};
ghost use Rattle.channel_frame.specs.StreamReading.{frames_of};
ghost use Rattle.session_mux.specs.Arrivals.{no_sessions, records_of, tail_of};
ghost use Rattle.session_mux.specs.SessionFrames.{own_frames};
ghost use Rattle.session_mux.specs.Completion.{unopened, events_along};
ghost use Rattle.trace_lines.specs.ActRecords.{records_said, bytes_traced, frames_sent};

/// The trace of every text reads back as the records that its lines say, each of which may come where it stands, and nothing is left.
pub fn what_is_traced_reads_back()
    ensures records { (text : List ℕ) → records_of no_sessions (bytes_traced text) ≡ records_said text }
    ensures tail { (text : List ℕ) → tail_of no_sessions (bytes_traced text) ≡ [] }
{}

/// Each session gets exactly those frames completed that its lines send, in their order.
pub fn each_session_sends_its_frames()
    ensures { (text : List ℕ) (s : ℕ) → own_frames s (events_along unopened (records_of no_sessions (bytes_traced text))) ≡ frames_sent s text }
{}
