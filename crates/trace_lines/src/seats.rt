ghost use Rattle.std.specs.Prelude.{◌≡◌, set, IfOk};
ghost use Rattle.trace_lines.specs.SessionActs.{no_seats, seat_at};

use std::alloc::{AllocError, Global};
use std::marker::Model;

/// How many session numbers there are.
const NUMBERS: usize = 256;

/// Where a session stands in a trace that is written.
#[derive(Clone, Copy, PartialEq, Eq)]
pub enum Seat {
    /// It was not opened.
    Unopened,
    /// It is open, and this sequence number comes next.
    Opened(u32),
    /// It was closed.
    Closed,
}

/// Where each session number stands. Contracts see the list.
#[derive(Drop)]
pub struct Seats {
    all: Vec<Seat>,
}

impl Model for Seats {
    ghost use Rattle.std.specs.Prelude.{List, ◌≡◌, length};
    ghost use Rattle.trace_lines.specs.declared.seats.Seat.{Seat};

    ghost Value = { List Seat };

    ghost view = { λ s. s.all.items };

    ghost invariant = { λ s. length s.all.items ≡ 256 };
}

impl Seats {
    /// No session is opened.
    pub fn new(alloc: Global) -> Result<Seats, AllocError>
        ensures { IfOk result (λ s. s ≡ no_seats) }
    {
        let all = vec![in alloc; Seat::Unopened; NUMBERS]?;
        Ok(Seats { all })
    }

    /// Where a session stands.
    pub fn at(&self, session: u8) -> Seat
        ensures { result ≡ seat_at self.now session }
    {
        self.all[session as usize]
    }

    /// A session stands there from now on.
    pub fn put(&mut self, session: u8, seat: Seat)
        ensures { self.new ≡ set self.old session seat }
    {
        self.all[session as usize] = seat;
    }
}
