ghost use Rattle.std.specs.Prelude.{◌≡◌, ℕ, ◌+◌, ◌<◌, ◌≤◌, ◌^◌, true, Some, [], ◌∷◌, map, take, drop, length, IfOk, IfErr, OnOk, OnErr, IsErrOf, MatchOption, MatchResult};
ghost use Rattle.ctrl_model.specs.declared.kinds.Who.{Who};
ghost use Rattle.session_mux.specs.declared.sessions.Form.TheVariants.{Plain, Trace};
ghost use Rattle.session_mux.specs.Arrivals.{record_front, tail_of, role_at, Whole, Open, Data, Close};
ghost use Rattle.session_mux.specs.Completion.{start_of, fed, events_of, events_held, tail_left, session_at, stage_of, held_len, rest_len, GoesTo};
ghost use Rattle.session_mux.specs.RecordSteps.{says_role, Passes};
ghost use Rattle.session_mux.specs.MuxSteps.{StepGives, HeldGives, GivesNone, GivesFault, MayWantMemory};

use crate::events::{Event, MuxFault};
use crate::records::{Look, peek};
use crate::sessions::{Form, NUMBERS, Stage, is_opened, is_unopened};
use crate::tables::SessionTable;
use ctrl_model::{Copies, Name, NameFault, Who};
use frame_stream::Buffer;
use std::alloc::{AllocError, Global};
use std::marker::Model;

/// Many sessions whose bytes come in one input.
///
/// Contracts see where they stand: the form, the input that is held, how many bytes came before it, and each session.
#[derive(Drop)]
pub struct Mux {
    alloc: Global,
    form: Form,
    input: Buffer,
    before: u64,
    sessions: SessionTable,
}

impl Model for Mux {
    ghost use Rattle.std.specs.Prelude.{◌≡◌, ℕ, ◌+◌, ◌<◌, ◌≤◌, ◌^◌, length};
    ghost use Rattle.session_mux.specs.Completion.{Standing, session_at};
    ghost use Rattle.session_mux.specs.declared.sessions.Form.TheVariants.{Plain};
    ghost use Rattle.session_mux.specs.SessionSteps.{taken, IsAlone};

    ghost Value = { Standing };

    ghost view = { λ m. record { form = m.form; input = m.input; before = m.before; sessions = m.sessions } };

    ghost invariant = { λ m. (m.before + length m.input < 2 ^ 63) × ((s : ℕ) → taken (session_at m.sessions s) ≤ m.before) × (m.form ≡ Plain → IsAlone m.sessions) };
}

/// What one step did where no session holds an event.
pub enum Step {
    /// Input was moved to its session.
    Moved,
    /// A record told this event.
    Told(Event),
    /// The input is unfinished.
    Ended,
    /// A bad record begins at this place.
    Stuck(u64),
}

fn who_of(alloc: Global, role: u8, name: &[u8]) -> Result<Who, AllocError>
    requires { says_role role name.now ≡ true }
    ensures { IfOk result (λ who. role_at role name.now ≡ Some who) }
{
    if role == 0 {
        return Ok(Who::Admin);
    }
    let name = match Name::of(alloc, name) {
        Ok(name) => name,
        Err(_) => return Err(AllocError),
    };
    if role == 1 {
        Ok(Who::Router(name))
    } else {
        Ok(Who::Identity(name))
    }
}

fn copy_who(who: &Who) -> Result<Who, AllocError>
    ensures { IfOk result (λ copy. copy ≡ who.now) }
{
    match who {
        Who::Admin => Ok(Who::Admin),
        Who::Router(name) => Ok(Who::Router(name.copy()?)),
        Who::Identity(name) => Ok(Who::Identity(name.copy()?)),
    }
}

// Passes over the record at the front, if a whole one stands there.
fn pass(stages: &mut [Stage], bytes: &[u8]) -> Option<usize>
    requires { length stages.old ≡ 256 }
    ensures { Passes stages.old stages.new bytes.now result }
{
    match peek(bytes) {
        Look::Opens { session, len, .. } if is_unopened(stages[session as usize]) => {
            stages[session as usize] = Stage::Opened;
            Some(4 + len as usize)
        }
        Look::Brings { session, len } if is_opened(stages[session as usize]) => {
            Some(4 + len as usize)
        }
        Look::Closes { session } if is_opened(stages[session as usize]) => {
            stages[session as usize] = Stage::Closed;
            Some(2)
        }
        _ => None,
    }
}

fn tail_len(stages: &mut [Stage], input: &[u8]) -> usize
    requires { length stages.old ≡ 256 }
    ensures { result ≡ length (tail_of stages.old input.now) }
{
    let mut rest = input;
    'records: while let Some(len) = pass(stages, rest) {
        let (_, after) = rest.split_at(len);
        rest = after;
    }
    rest.len()
}

impl Mux {
    /// Plain input: session 0 is open as an administrator's.
    pub fn plain(alloc: Global) -> Result<Mux, AllocError>
        ensures { IfOk result (λ m. m ≡ start_of Plain) }
    {
        let mut sessions = SessionTable::new(alloc)?;
        sessions.open(alloc, 0, Who::Admin);
        Ok(Mux {
            alloc,
            form: Form::Plain,
            input: Buffer::new(alloc),
            before: 0,
            sessions,
        })
    }

    /// A trace: no session is open.
    pub fn traced(alloc: Global) -> Result<Mux, AllocError>
        ensures { IfOk result (λ m. m ≡ start_of Trace) }
    {
        let sessions = SessionTable::new(alloc)?;
        Ok(Mux {
            alloc,
            form: Form::Trace,
            input: Buffer::new(alloc),
            before: 0,
            sessions,
        })
    }

    /// A piece of the input comes behind what is held.
    pub fn feed(&mut self, piece: &[u8]) -> Result<(), AllocError>
        requires room { self.old.before + length self.old.input + length piece.now < 2 ^ 63 }
        ensures ok { OnOk result (self.new ≡ fed self.old piece.now) }
        ensures err { OnErr result (self.new ≡ self.old) }
    {
        self.input.append(piece)
    }

    // The first event of what sessions hold.
    fn held_event(&mut self) -> Result<Option<Event>, AllocError>
        ensures ok { IfOk result (λ event. HeldGives self.old self.new event) }
        ensures err { OnErr result (self.new ≡ self.old) }
        ensures memory { OnErr result (MayWantMemory self.old) }
    {
        let event = self.sessions.next_event()?;
        Ok(event)
    }

    // Plain input is moved to session 0.
    fn step_plain(&mut self) -> Result<Step, AllocError>
        requires form { self.old.form ≡ Plain }
        requires quiet { events_held 0 self.old.sessions ≡ [] }
        ensures ok { IfOk result (λ step. StepGives self.old self.new step) }
        ensures err { OnErr result (self.new ≡ self.old) }
        ensures memory { OnErr result (MayWantMemory self.old) }
    {
        if self.input.len() == 0 {
            return Ok(Step::Ended);
        }
        self.sessions.feed(0, self.input.as_slice())?;
        self.before += self.input.len() as u64;
        self.input.clear();
        Ok(Step::Moved)
    }

    // Data is moved to its session.
    fn step_data(&mut self, session: u8, len: u16) -> Result<Step, AllocError>
        requires form { self.old.form ≡ Trace }
        requires quiet { events_held 0 self.old.sessions ≡ [] }
        requires there { record_front (map stage_of self.old.sessions) self.old.input ≡ Whole (Data session (take len (drop 4 self.old.input))) (4 + len) }
        requires long { 4 + len ≤ length self.old.input }
        ensures ok { IfOk result (λ step. StepGives self.old self.new step) }
        ensures err { OnErr result (self.new ≡ self.old) }
        ensures memory { OnErr result (MayWantMemory self.old) }
    {
        let size = 4 + len as usize;
        let (_, after) = self.input.as_slice().split_at(4);
        let (piece, _) = after.split_at(len as usize);
        self.sessions.feed(session, piece)?;
        self.before += size as u64;
        self.input.skip(size);
        Ok(Step::Moved)
    }

    // A session is opened.
    fn step_open(&mut self, session: u8, role: u8, len: u8) -> Result<Step, AllocError>
        requires form { self.old.form ≡ Trace }
        requires quiet { events_held 0 self.old.sessions ≡ [] }
        requires there { (who : Who) → role_at role (take len (drop 4 self.old.input)) ≡ Some who → record_front (map stage_of self.old.sessions) self.old.input ≡ Whole (Open session who) (4 + len) }
        requires role { says_role role (take len (drop 4 self.old.input)) ≡ true }
        requires long { 4 + len ≤ length self.old.input }
        ensures ok { IfOk result (λ step. StepGives self.old self.new step) }
        ensures err { OnErr result (self.new ≡ self.old) }
        ensures memory { OnErr result (MayWantMemory self.old) }
    {
        let size = 4 + len as usize;
        let (_, after) = self.input.as_slice().split_at(4);
        let (name, _) = after.split_at(len as usize);
        let who = who_of(self.alloc, role, name)?;
        let told = copy_who(&who)?;
        self.sessions.open(self.alloc, session, who);
        self.before += size as u64;
        self.input.skip(size);
        Ok(Step::Told(Event::Opened { session, who: told }))
    }

    // A session is closed.
    fn step_close(&mut self, session: u8) -> Step
        requires form { self.old.form ≡ Trace }
        requires quiet { events_held 0 self.old.sessions ≡ [] }
        requires there { record_front (map stage_of self.old.sessions) self.old.input ≡ Whole (Close session) 2 }
        requires long { 2 ≤ length self.old.input }
        ensures { StepGives self.old self.new result }
    {
        let rest = self.sessions.len(session) as u32;
        self.sessions.close(session);
        self.before += 2;
        self.input.skip(2);
        Step::Told(Event::Closed { session, rest })
    }

    // The record at the front of a trace is read.
    fn step_trace(&mut self) -> Result<Step, AllocError>
        requires form { self.old.form ≡ Trace }
        requires quiet { events_held 0 self.old.sessions ≡ [] }
        ensures ok { IfOk result (λ step. StepGives self.old self.new step) }
        ensures err { OnErr result (self.new ≡ self.old) }
        ensures memory { OnErr result (MayWantMemory self.old) }
    {
        match peek(self.input.as_slice()) {
            Look::Unfinished => Ok(Step::Ended),
            Look::Bad => Ok(Step::Stuck(self.before)),
            Look::Opens { session, role, len } => {
                if self.sessions.may_open(session) {
                    self.step_open(session, role, len)
                } else {
                    Ok(Step::Stuck(self.before))
                }
            }
            Look::Brings { session, len } => {
                if self.sessions.is_open(session) {
                    self.step_data(session, len)
                } else {
                    Ok(Step::Stuck(self.before))
                }
            }
            Look::Closes { session } => {
                if self.sessions.is_open(session) {
                    Ok(self.step_close(session))
                } else {
                    Ok(Step::Stuck(self.before))
                }
            }
        }
    }

    fn step(&mut self) -> Result<Step, AllocError>
        requires quiet { events_held 0 self.old.sessions ≡ [] }
        ensures ok { IfOk result (λ step. StepGives self.old self.new step) }
        ensures err { OnErr result (self.new ≡ self.old) }
        ensures memory { OnErr result (MayWantMemory self.old) }
    {
        match self.form {
            Form::Plain => self.step_plain(),
            Form::Trace => self.step_trace(),
        }
    }

    fn trace_rest(&self) -> usize
        ensures { result ≡ length (tail_of (map stage_of self.now.sessions) self.now.input) }
    {
        let mut stages = [Stage::Unopened; NUMBERS];
        self.sessions.stages(&mut stages);
        tail_len(&mut stages, self.input.as_slice())
    }

    /// How many bytes of an unfinished record, or of a bad one and what follows it, are held behind the whole records.
    pub fn rest(&self) -> usize
        ensures { result ≡ length (tail_left self.now) }
    {
        match self.form {
            Form::Plain => 0,
            Form::Trace => self.trace_rest(),
        }
    }

    /// How many bytes a session holds: none where it is not open, and none after a fault.
    ///
    /// Where no session holds an event, as after `next` answered `None`, they are those of its unfinished frame.
    pub fn session_rest(&self, session: u8) -> usize
        ensures held { result ≡ held_len (session_at self.now.sessions session) }
        ensures unfinished { events_held 0 self.now.sessions ≡ [] → result ≡ rest_len (session_at self.now.sessions session) }
    {
        self.sessions.len(session)
    }

    fn first_event(&mut self) -> Result<Option<Event>, MuxFault>
        ensures some { IfOk result (λ event. MatchOption event (GivesNone self.old self.new) (λ e. GoesTo self.old self.new (e ∷ []))) }
        ensures fault { IfErr result (λ e. GivesFault self.old self.new e) }
        ensures memory { IsErrOf result MuxFault.NoMemory → MayWantMemory self.old }
    {
        'moves: loop {
            if let Some(event) = self.held_event()? {
                return Ok(Some(event));
            }
            match self.step()? {
                Step::Moved => (),
                Step::Told(event) => return Ok(Some(event)),
                Step::Ended => return Ok(None),
                Step::Stuck(at) => return Err(MuxFault::BadRecord { at }),
            }
        }
    }

    /// The next event, in the order in which the bytes of the input decide them.
    ///
    /// `BadRecord` comes exactly where nothing is left but a bad record, and then again. `None` comes where nothing is left but
    /// unfinished bytes, of which few are held. Whatever the answer is, no byte of the input is lost, and nothing else changes what
    /// comes: not a cut of the input, and not want of memory.
    pub fn next(&mut self) -> Result<Option<Event>, MuxFault>
        ensures some { IfOk result (λ event. MatchOption event (GivesNone self.old self.new) (λ e. GoesTo self.old self.new (e ∷ []))) }
        ensures fault { IfErr result (λ e. GivesFault self.old self.new e) }
        // No memory is wanted where nothing is left but an unfinished or a bad record, nor for plain input whose fault was given.
        ensures memory { IsErrOf result MuxFault.NoMemory → MayWantMemory self.old }
        // As many bytes of the input have come as before.
        ensures taken { self.new.before + length self.new.input ≡ self.old.before + length self.old.input }
    {
        let event = self.first_event();
        event
    }
}
