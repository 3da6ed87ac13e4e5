ghost use Rattle.std.specs.Prelude.{◌≡◌, ℕ, ◌+◌, ◌<◌, ◌≤◌, ◌^◌, [], set, map, IfOk, OnOk, OnErr, length};
ghost use Rattle.ctrl_model.specs.declared.kinds.Who.TheVariants.{Admin};
ghost use Rattle.channel_frame.specs.SessionBytes.{no_bytes, settled};
ghost use Rattle.session_mux.specs.declared.sessions.Session.TheVariants.{Open, Closed};
ghost use Rattle.session_mux.specs.Arrivals.{stage_at};
ghost use Rattle.session_mux.specs.Completion.{stage_of, bytes_len, bytes_events, held_len, rest_len, session_events, with_data};
ghost use Rattle.session_mux.specs.RecordSteps.{is_unopened as stage_is_unopened, is_opened as stage_is_opened};
ghost use Rattle.frame_stream.specs.StreamSteps.{HoldsWhole, most_frame};
ghost use Rattle.session_mux.specs.SessionSteps.{taken, GivesEvent, StreamEvent, TakesBytes, HasWhole};

use crate::events::Event;
use ctrl_model::Who;
use frame_stream::{Decoder, StreamFault};
use std::alloc::AllocError;
use std::marker::Model;

/// How many session numbers there are.
pub const NUMBERS: usize = 256;

/// The form of an input.
#[derive(Clone, Copy, PartialEq, Eq)]
pub enum Form {
    /// All bytes are those of session 0, which is an administrator's.
    Plain,
    /// The bytes are a trace.
    Trace,
}

/// Whether a session number was opened in a trace, and whether it was closed since.
#[derive(Clone, Copy, PartialEq, Eq)]
pub enum Stage {
    Unopened,
    Opened,
    Closed,
}

/// Where a session number stands.
#[derive(Drop)]
pub enum Session {
    /// It was not opened.
    Unopened,
    /// It is open: who has it, and its bytes.
    Open { who: Who, bytes: Decoder },
    /// It was closed. Its number is not opened again.
    Closed,
}

/// Whether a session number was not opened.
pub fn is_unopened(stage: Stage) -> bool
    ensures { result ≡ stage_is_unopened stage }
{
    matches!(stage, Stage::Unopened)
}

/// Whether a session is open.
pub fn is_opened(stage: Stage) -> bool
    ensures { result ≡ stage_is_opened stage }
{
    matches!(stage, Stage::Opened)
}

// The first event of a session's bytes. A fault is told once.
fn next_of(session: u8, bytes: &mut Decoder) -> Result<Option<Event>, AllocError>
    ensures ok { IfOk result (λ event. StreamEvent session bytes.old bytes.new event) }
    ensures err { OnErr result (bytes.new ≡ bytes.old) }
    ensures memory { OnErr result (HoldsWhole bytes.old) }
{
    if bytes.is_at_fault() {
        return Ok(None);
    }
    match bytes.next() {
        Ok(None) => Ok(None),
        Ok(Some(frame)) => Ok(Some(Event::Arrived { session, frame })),
        Err(StreamFault::Bad { fault, at }) => Ok(Some(Event::Ended { session, fault, at })),
        Err(StreamFault::NoMemory) => Err(AllocError),
    }
}

fn rest_of(bytes: &Decoder) -> usize
    ensures len { result ≡ bytes_len bytes.now }
    ensures rest { (s : ℕ) → bytes_events s bytes.now ≡ [] → (result ≡ length (settled bytes.now).held) × (result ≤ most_frame) }
{
    bytes.rest()
}

impl Session {
    /// Its stage, by which records are judged.
    pub fn stage(&self) -> Stage
        ensures { result ≡ stage_of self.now }
    {
        match self {
            Session::Unopened => Stage::Unopened,
            Session::Open { .. } => Stage::Opened,
            Session::Closed => Stage::Closed,
        }
    }

    /// How many bytes it holds. Where it holds no event, they are those of an unfinished frame.
    pub fn len(&self) -> usize
        ensures len { result ≡ held_len self.now }
        ensures rest { (s : ℕ) → session_events s self.now ≡ [] → (result ≡ rest_len self.now) × (result ≤ most_frame) }
    {
        match self {
            Session::Open { bytes, .. } => rest_of(bytes),
            _ => 0,
        }
    }

    /// Bytes of it come; only an open one takes them.
    pub fn feed(&mut self, piece: &[u8]) -> Result<(), AllocError>
        requires room { taken self.old + length piece.now < 2 ^ 63 }
        ensures ok { OnOk result (self.new ≡ with_data self.old piece.now) }
        ensures err { OnErr result (self.new ≡ self.old) }
        ensures memory { OnErr result (TakesBytes self.old) }
    {
        match self {
            Session::Open { bytes, .. } => bytes.feed(piece),
            _ => Ok(()),
        }
    }

    /// The first event of what it holds.
    pub fn next_event(&mut self, session: u8) -> Result<Option<Event>, AllocError>
        ensures ok { IfOk result (λ event. GivesEvent session self.old self.new event) }
        ensures err { OnErr result (self.new ≡ self.old) }
        ensures memory { OnErr result (HasWhole self.old) }
    {
        match self {
            Session::Open { bytes, .. } => next_of(session, bytes),
            _ => Ok(None),
        }
    }
}
