ghost use Rattle.std.specs.Prelude.{◌≡◌, true, false, IfOk, replicate, set, get_or};
ghost use Rattle.ctrl_model.specs.declared.kinds.Who.TheVariants.{Admin};
ghost use Rattle.run_notes.specs.KnownSessions.{count_at, counted, sender_at};
ghost use Rattle.run_notes.specs.Inputs.{no_counts};

use ctrl_model::Who;
use std::alloc::{AllocError, Global};
use std::marker::Model;

/// How many session numbers there are.
const NUMBERS: usize = 256;

/// What a run knows of the sessions of its input: who has each, how many replies it got, with what rest it was closed, and whether one
/// had a fault.
#[derive(Drop)]
pub struct Sessions {
    senders: Vec<Who>,
    replied: Vec<u32>,
    closed: Vec<u32>,
    faulty: bool,
}

impl Model for Sessions {
    ghost use Rattle.std.specs.Prelude.{◌≡◌, length};
    ghost use Rattle.run_notes.specs.KnownSessions.{Known};

    ghost Value = { Known };

    ghost view = { λ s. record { senders = s.senders.items; replied = s.replied.items; closed = s.closed.items; faulty = s.faulty } };

    ghost invariant = { λ s. (length s.senders.items ≡ 256) × (length s.replied.items ≡ 256) × (length s.closed.items ≡ 256) };
}

// An administrator for each session number.
fn admins(alloc: Global) -> Result<Vec<Who>, AllocError>
    ensures { IfOk result (λ v. v.items ≡ replicate 256 Admin) }
{
    let mut senders = Vec::new(alloc);
    'numbers: for _number in 0..NUMBERS {
        senders.push(Who::Admin)?;
    }
    Ok(senders)
}

// A 0 for each session number.
fn zeros(alloc: Global) -> Result<Vec<u32>, AllocError>
    ensures { IfOk result (λ v. v.items ≡ no_counts) }
{
    vec![in alloc; 0u32; NUMBERS]
}

impl Sessions {
    /// No session got a reply, was closed or had a fault.
    pub fn new(alloc: Global) -> Result<Sessions, AllocError>
        ensures { IfOk result (λ s. s ≡ record { senders = replicate 256 Admin; replied = no_counts; closed = no_counts; faulty = false }) }
    {
        Ok(Sessions {
            senders: admins(alloc)?,
            replied: zeros(alloc)?,
            closed: zeros(alloc)?,
            faulty: false,
        })
    }

    /// Who has a session.
    pub fn sender(&self, session: u8) -> &Who
        ensures { result.now ≡ sender_at self.now session }
    {
        &self.senders[session as usize]
    }

    /// How many replies a session got, modulo 2^32.
    pub fn replied(&self, session: u8) -> u32
        ensures { result ≡ count_at self.now.replied session }
    {
        self.replied[session as usize]
    }

    /// With how many bytes of an unfinished frame a session was closed.
    pub fn closed(&self, session: u8) -> u32
        ensures { result ≡ get_or self.now.closed session 0 }
    {
        self.closed[session as usize]
    }

    /// Whether a session had a fault.
    pub fn faulty(&self) -> bool
        ensures { result ≡ self.now.faulty }
    {
        self.faulty
    }

    /// A session was opened.
    pub fn open(&mut self, session: u8, who: Who)
        ensures { self.new ≡ record self.old { senders = set self.old.senders session who } }
    {
        self.senders[session as usize] = who;
    }

    /// A session got a reply.
    pub fn reply(&mut self, session: u8)
        ensures { self.new ≡ record self.old { replied = counted self.old.replied session } }
    {
        let count = self.replied[session as usize];
        self.replied[session as usize] = count.wrapping_add(1);
    }

    /// A session was closed, and so many bytes of an unfinished frame were left of it.
    pub fn close(&mut self, session: u8, rest: u32)
        ensures { self.new ≡ record self.old { closed = set self.old.closed session rest } }
    {
        self.closed[session as usize] = rest;
    }

    /// A session had a fault.
    pub fn end(&mut self)
        ensures { self.new ≡ record self.old { faulty = true } }
    {
        self.faulty = true;
    }
}
