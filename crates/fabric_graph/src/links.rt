ghost use Rattle.std.specs.Prelude.{◌≡◌};

use ctrl_model::{Copies, Name, RouterNo};
use record_tables::Named;
use std::alloc::AllocError;
use std::clone::Clone;
use std::marker::Model;

/// A link between the routers `a` and `b`. A path pays its cost, 1 to 65,535, and the latencies that its two ends report, 0 to
/// 60,000 each. Contracts see it as a link of the controller's state.
#[derive(Drop)]
pub struct LinkRow {
    pub name: Name,
    pub a: RouterNo,
    pub b: RouterNo,
    pub cost: u32,
    pub latency_a: u32,
    pub latency_b: u32,
    pub up: bool,
}

impl Model for LinkRow {
    ghost use Rattle.ctrl_model.specs.State.{Link};

    ghost Value = { Link };

    ghost view = { λ r. record { name = r.name; a = r.a.0; b = r.b.0; cost = r.cost; latency_a = r.latency_a; latency_b = r.latency_b; up = r.up } };
}

impl Named for LinkRow {
    ghost name_of = { λ l. l.name };

    fn name(&self) -> &[u8] {
        self.name.bytes()
    }
}

impl Clone for LinkRow {
    ghost is_clone = { λ l c. c ≡ l };

    fn clone(&self) -> Result<LinkRow, AllocError> {
        Ok(LinkRow {
            name: self.name.copy()?,
            a: self.a,
            b: self.b,
            cost: self.cost,
            latency_a: self.latency_a,
            latency_b: self.latency_b,
            up: self.up,
        })
    }
}

/// A link as it will be: its name is lent, the rest are values (`LinkRow`). Contracts see it as a link of the controller's state.
#[derive(Drop)]
pub struct LinkView<'a> {
    pub name: &'a Name,
    pub a: RouterNo,
    pub b: RouterNo,
    pub cost: u32,
    pub latency_a: u32,
    pub latency_b: u32,
    pub up: bool,
}

impl<'a> Model for LinkView<'a> {
    ghost use Rattle.ctrl_model.specs.State.{Link};

    ghost Value = { Link };

    ghost view = { λ v. record { name = v.name.now; a = v.a.0; b = v.b.0; cost = v.cost; latency_a = v.latency_a; latency_b = v.latency_b; up = v.up } };
}

impl<'a> LinkView<'a> {
    /// A link as it is.
    pub fn of(row: &'a LinkRow) -> LinkView<'a>
        ensures { result ≡ row.now }
    {
        LinkView {
            name: &row.name,
            a: row.a,
            b: row.b,
            cost: row.cost,
            latency_a: row.latency_a,
            latency_b: row.latency_b,
            up: row.up,
        }
    }

    /// The link with another cost, other latencies, and up or down.
    pub fn set(self, cost: u32, latency_a: u32, latency_b: u32, up: bool) -> LinkView<'a>
        ensures { result ≡ record self.entry { cost = cost; latency_a = latency_a; latency_b = latency_b; up = up } }
    {
        LinkView {
            name: self.name,
            a: self.a,
            b: self.b,
            cost,
            latency_a,
            latency_b,
            up,
        }
    }
}
