ghost use Rattle.std.specs.Prelude.{◌≡◌, ℕ, List, [], ◌++◌, true, IsSome};
ghost use Rattle.std.specs.List.{list_any};
ghost use Rattle.channel_frame.specs.StreamReading.{AreBytes};
ghost use Rattle.session_mux.specs.declared.sessions.Stage.{Stage};
ghost use Rattle.session_mux.specs.Arrivals.{Arrival, no_sessions, AreAllowed, ReadsRecords, records_of, tail_of};
ghost use Rattle.session_mux.specs.declared.events.Event.{Event};
ghost use Rattle.session_mux.specs.declared.sessions.Form.TheVariants.{Plain};
ghost use Rattle.session_mux.specs.Completion.{Standing, start_of, fed, events_of, session_at, fault_met, is_fault, GoesTo};
ghost use Rattle.session_mux.specs.SessionFrames.{CompletesBy};

/// By every front of the records of a trace exactly those frames have come that are whole by then, whatever the interleaving: of each
/// session those of all its bytes, joined. So a frame comes by the record that brings its last byte.
pub fn completed_by()
    ensures { (first later : List Arrival) → AreAllowed no_sessions (first ++ later) → CompletesBy first later }
{}

/// Every trace has exactly one reading as records, each of which may come where it stands, and a tail.
///
/// Any reading whose tail is made of bytes is this one.
pub fn one_reading()
    ensures reads { (stages : List Stage) (input : List ℕ) → AreBytes input → ReadsRecords stages input (records_of stages input) (tail_of stages input) }
    ensures only { (stages : List Stage) (input : List ℕ) (arrivals : List Arrival) (tail : List ℕ) → AreBytes tail → ReadsRecords stages input arrivals tail
        → (records_of stages input ≡ arrivals) × (tail_of stages input ≡ tail) }
{}

/// A fault of plain input is its last event: once it was given, session 0 has met it, and nothing is left of what came.
pub fn fault_is_last()
    ensures met { (used : List ℕ) (mid : Standing) (given : List Event) → GoesTo (fed (start_of Plain) used) mid given → list_any is_fault given ≡ true
        → IsSome (fault_met (session_at mid.sessions 0)) }
    ensures last { (used : List ℕ) (mid : Standing) (given : List Event) → GoesTo (fed (start_of Plain) used) mid given → list_any is_fault given ≡ true
        → events_of mid ≡ [] }
{}
