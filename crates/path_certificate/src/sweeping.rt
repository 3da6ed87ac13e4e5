ghost use Rattle.std.specs.Prelude.{◌≡◌, ◌↔◌, ◌<◌, ◌≤◌, IsTrue, length, false};
ghost use Rattle.std.specs.Bool.{OnTrue, OnFalse};
ghost use Rattle.ctrl_model.specs.Claims.{reach_over};
ghost use Rattle.path_certificate.specs.Graphs.{potential, improves};
ghost use Rattle.path_certificate.specs.Columns.{Hold, HasRoom};

use crate::graph::{Graph, Step};
use bit_lanes::sweep;
use std::marker::Model;

/// How many steps are swept at once.
const SWEPT_STEPS: usize = 64;

/// The potentials of the starts of some steps, the costs of the steps and the potentials of their ends, in columns: at most
/// `SWEPT_STEPS` places of each are filled.
///
/// Contracts see what is filled.
#[derive(Drop)]
pub struct Columns {
    starts: [u64; SWEPT_STEPS],
    costs: [u64; SWEPT_STEPS],
    ends: [u64; SWEPT_STEPS],
    filled: usize,
}

impl Model for Columns {
    ghost use Rattle.std.specs.Prelude.{◌≤◌, take};
    ghost use Rattle.path_certificate.specs.Columns.{ColumnsSeen, swept_steps};

    ghost Value = { ColumnsSeen };

    ghost view = { λ c. record { starts = take c.filled c.starts; costs = take c.filled c.costs; ends = take c.filled c.ends } };

    ghost invariant = { λ c. c.filled ≤ swept_steps };
}

impl Columns {
    /// Columns of no steps.
    pub fn new() -> Columns
        ensures { Hold result }
    {
        Columns {
            starts: [0; SWEPT_STEPS],
            costs: [0; SWEPT_STEPS],
            ends: [0; SWEPT_STEPS],
            filled: 0,
        }
    }

    /// Whether no step improves the potential of its start.
    pub fn hold(&self) -> bool
        ensures { IsTrue result ↔ Hold self.now }
    {
        let filled = self.filled;
        sweep(
            &self.starts[..filled],
            &self.costs[..filled],
            &self.ends[..filled],
        )
    }

    /// Makes room: where the columns are full they are swept, and false says that they do not hold.
    pub fn make_room(&mut self) -> bool
        ensures room { OnTrue result (HasRoom self.new) }
        ensures same { OnTrue result (Hold self.new ↔ Hold self.old) }
        ensures none { OnFalse result (Hold self.old → ⊥) }
    {
        if self.filled < SWEPT_STEPS {
            return true;
        }
        let holds = self.hold();
        self.filled = 0;
        holds
    }

    /// Adds a step.
    pub fn add(&mut self, potentials: &[u64], step: &Step)
        requires room { HasRoom self.old }
        requires from { step.now.from < length potentials.now }
        requires to { step.now.to < length potentials.now }
        ensures { Hold self.new ↔ (Hold self.old × (potential potentials.now step.now.from ≤ reach_over step.now.cost (potential potentials.now step.now.to))) }
    {
        let place = self.filled;
        self.starts[place] = potentials[step.from as usize];
        self.costs[place] = u64::from(step.cost);
        self.ends[place] = potentials[step.to as usize];
        self.filled = place + 1;
    }

    /// Adds a step where it counts for the target.
    pub fn add_counting(&mut self, graph: &Graph, target: u16, potentials: &[u64], step: &Step)
        requires room { HasRoom self.old }
        requires places { length potentials.now ≡ length graph.now.through }
        requires from { step.now.from < length potentials.now }
        requires to { step.now.to < length potentials.now }
        ensures { Hold self.new ↔ (Hold self.old × (improves graph.now.through target potentials.now step.now ≡ false)) }
    {
        if graph.counts(target, step) {
            self.add(potentials, step);
        }
    }
}
