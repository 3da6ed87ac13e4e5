ghost use Rattle.std.specs.Prelude.{◌≡◌, ℕ, ◌+◌, ◌<◌, ◌≤◌, ◌^◌, [], set, map, replicate, IfOk, OnOk, OnErr, length};
ghost use Rattle.channel_frame.specs.SessionBytes.{no_bytes};
ghost use Rattle.frame_stream.specs.StreamSteps.{most_frame};
ghost use Rattle.session_mux.specs.declared.sessions.Session.TheVariants.{Open, Closed};
ghost use Rattle.session_mux.specs.Arrivals.{stage_at};
ghost use Rattle.session_mux.specs.Completion.{session_at, unopened, stage_of, held_len, rest_len, with_data, events_held};
ghost use Rattle.session_mux.specs.RecordSteps.{is_unopened as stage_is_unopened, is_opened as stage_is_opened};
ghost use Rattle.session_mux.specs.SessionSteps.{taken, SessionsGive, TakesBytes, SomeHasWhole};

use crate::events::Event;
use crate::sessions::{NUMBERS, Session, Stage, is_opened, is_unopened};
use ctrl_model::Who;
use frame_stream::Decoder;
use std::alloc::{AllocError, Global};
use std::marker::Model;

/// The session of each number.
///
/// At most one of them has a frame or a fault that was not told yet. Contracts see the list.
#[derive(Drop)]
pub struct SessionTable {
    all: Vec<Session>,
    ready: u8,
}

impl Model for SessionTable {
    ghost use Rattle.std.specs.Prelude.{List, ◌≡◌, length};
    ghost use Rattle.session_mux.specs.declared.sessions.Session.{Session};
    ghost use Rattle.session_mux.specs.SessionSteps.{IsQuietBut};

    ghost Value = { List Session };

    ghost view = { λ t. t.all.items };

    ghost invariant = { λ t. (length t.all.items ≡ 256) × IsQuietBut t.ready t.all.items };
}

fn unopened_sessions(alloc: Global) -> Result<Vec<Session>, AllocError>
    ensures { IfOk result (λ v. v.items ≡ unopened) }
{
    let mut all = Vec::new(alloc);
    'numbers: for _number in 0..NUMBERS {
        all.push(Session::Unopened)?;
    }
    Ok(all)
}

fn fill_stages(stages: &mut [Stage], sessions: &[Session])
    requires { length stages.old ≡ length sessions.now }
    ensures { stages.new ≡ map stage_of sessions.now }
{
    'numbers: for (number, session) in sessions.iter().enumerate() {
        stages[number] = session.stage();
    }
}

impl SessionTable {
    /// No session is opened.
    pub fn new(alloc: Global) -> Result<SessionTable, AllocError>
        ensures { IfOk result (λ t. t ≡ unopened) }
    {
        let all = unopened_sessions(alloc)?;
        Ok(SessionTable { all, ready: 0 })
    }

    /// Whether a session may be opened: its number was not opened before.
    pub fn may_open(&self, session: u8) -> bool
        ensures { result ≡ stage_is_unopened (stage_at (map stage_of self.now) session) }
    {
        is_unopened(self.all[session as usize].stage())
    }

    /// Whether a session is open.
    pub fn is_open(&self, session: u8) -> bool
        ensures { result ≡ stage_is_opened (stage_at (map stage_of self.now) session) }
    {
        is_opened(self.all[session as usize].stage())
    }

    /// The stage of each session number.
    pub fn stages(&self, stages: &mut [Stage])
        requires { length stages.old ≡ 256 }
        ensures { stages.new ≡ map stage_of self.now }
    {
        fill_stages(stages, self.all.as_slice());
    }

    /// How many bytes a session holds. Where no session holds an event, they are those of an unfinished frame.
    pub fn len(&self, session: u8) -> usize
        ensures len { result ≡ held_len (session_at self.now session) }
        ensures rest { events_held 0 self.now ≡ [] → (result ≡ rest_len (session_at self.now session)) × (result ≤ most_frame) }
    {
        self.all[session as usize].len()
    }

    /// A session is opened.
    pub fn open(&mut self, alloc: Global, session: u8, who: Who)
        requires quiet { events_held 0 self.old ≡ [] }
        ensures after { self.new ≡ set self.old session (Open who no_bytes) }
        ensures numbers { length self.old ≡ 256 }
    {
        self.all[session as usize] = Session::Open {
            who,
            bytes: Decoder::new(alloc),
        };
    }

    /// A session is closed.
    pub fn close(&mut self, session: u8)
        requires quiet { events_held 0 self.old ≡ [] }
        ensures after { self.new ≡ set self.old session Closed }
        ensures numbers { length self.old ≡ 256 }
    {
        self.all[session as usize] = Session::Closed;
    }

    /// Bytes of a session come.
    pub fn feed(&mut self, session: u8, piece: &[u8]) -> Result<(), AllocError>
        requires quiet { events_held 0 self.old ≡ [] }
        requires room { taken (session_at self.old session) + length piece.now < 2 ^ 63 }
        ensures ok { OnOk result (self.new ≡ set self.old session (with_data (session_at self.old session) piece.now)) }
        ensures err { OnErr result (self.new ≡ self.old) }
        ensures memory { OnErr result (TakesBytes (session_at self.old session)) }
        ensures numbers { length self.old ≡ 256 }
    {
        self.all[session as usize].feed(piece)?;
        self.ready = session;
        Ok(())
    }

    /// The first event of what the sessions hold.
    pub fn next_event(&mut self) -> Result<Option<Event>, AllocError>
        ensures ok { IfOk result (λ event. SessionsGive self.old self.new event) }
        ensures err { OnErr result (self.new ≡ self.old) }
        ensures memory { OnErr result (SomeHasWhole self.old) }
    {
        let session = self.ready;
        let event = self.all[session as usize].next_event(session)?;
        Ok(event)
    }
}
