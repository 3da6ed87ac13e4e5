ghost use Rattle.std.specs.Prelude.{◌↔◌, ◌≡◌, ◌+◌, ◌<◌, length, find, option_map, IfSome, IsTrue};
ghost use Rattle.ctrl_model.specs.Claims.{no_path, is_tight, reach_over};
ghost use Rattle.path_certificate.specs.Graphs.{leaves, potential, improves, none_improves, graph_hops};
ghost use Rattle.path_certificate.specs.Certified.{Certified, IsLeastPath, AreLeast};

use crate::graph::{Graph, Step};
use crate::sweeping::Columns;
use ctrl_model::Potentials;

/// The step's cost and the potential of its end together, at most `u64::MAX`.
pub fn reach(potentials: &[u64], step: &Step) -> u64
    requires { step.now.to < length potentials.now }
    ensures { result ≡ reach_over step.now.cost (potential potentials.now step.now.to) }
{
    u64::from(step.cost).saturating_add(potentials[step.to as usize])
}

/// Whether the step improves the potential of its start.
pub fn improves(graph: &Graph, target: u16, potentials: &[u64], step: &Step) -> bool
    requires places { length potentials.now ≡ length graph.now.through }
    requires from { step.now.from < length potentials.now }
    requires to { step.now.to < length potentials.now }
    ensures { result ≡ improves graph.now.through target potentials.now step.now }
{
    graph.counts(target, step) && reach(potentials, step) < potentials[step.from as usize]
}

/// Whether the step falls from the potential of its start by exactly its cost.
pub fn is_tight(potentials: &[u64], step: &Step) -> bool
    requires from { step.now.from < length potentials.now }
    requires to { step.now.to < length potentials.now }
    ensures { IsTrue result ↔ (potential potentials.now step.now.from ≡ step.now.cost + potential potentials.now step.now.to) × (potential potentials.now step.now.from < no_path) }
{
    let start = potentials[step.from as usize];
    start == reach(potentials, step) && start < u64::MAX
}

// Sweeps the counting steps in columns.
fn is_settled(graph: &Graph, target: u16, potentials: &[u64]) -> bool
    requires { length potentials.now ≡ length graph.now.through }
    ensures { result ≡ none_improves graph.now target potentials.now }
{
    let steps = graph.steps();
    let mut columns = Columns::new();
    'steps: for step in steps {
        if !columns.make_room() {
            return false;
        }
        columns.add_counting(graph, target, potentials, step);
    }
    columns.hold()
}

fn find_step(steps: &[Step], place: u16, link: u32) -> Option<Step>
    ensures { result ≡ find (leaves place link) steps.now }
{
    'steps: for step in steps {
        if step.from == place && step.link == link {
            return Some(*step);
        }
    }
    None
}

fn step_over(graph: &Graph, target: u16, place: u16, link: u32) -> Option<Step>
    ensures hop { option_map (λ s. (s.to, s.cost)) result ≡ graph_hops graph.now target place link }
    ensures from { IfSome result (λ s. s.from ≡ place) }
    ensures to { IfSome result (λ s. s.to < length graph.now.through) }
{
    let step = find_step(graph.steps(), place, link)?;
    if graph.counts(target, &step) {
        Some(step)
    } else {
        None
    }
}

fn is_chain(graph: &Graph, target: u16, potentials: &[u64], from: u16, path: &[u32]) -> bool
    requires places { length potentials.now ≡ length graph.now.through }
    requires from { from < length graph.now.through }
    ensures { result ≡ is_tight (graph_hops graph.now target) (potential potentials.now) target from path.now }
{
    let mut at = from;
    'links: for link in path {
        match step_over(graph, target, at, *link) {
            Some(step) if is_tight(potentials, &step) => at = step.to,
            _ => return false,
        }
    }
    at == target
}

fn is_certified(graph: &Graph, target: u16, potentials: &[u64], from: u16, path: &[u32]) -> bool
    requires { length potentials.now ≡ length graph.now.through }
    ensures { IsTrue result ↔ Certified graph.now target potentials.now from path.now }
{
    (target as usize) < potentials.len()
        && (from as usize) < potentials.len()
        && potentials[target as usize] == 0
        && is_settled(graph, target, potentials)
        && is_chain(graph, target, potentials, from, path)
}

/// Whether the potentials certify that the path from `from` to `target` is a least one. Takes no memory.
pub fn check(graph: &Graph, target: u16, potentials: &Potentials, from: u16, path: &[u32]) -> bool
    ensures certified { IsTrue result ↔ Certified graph.now target potentials.now from path.now }
    // A yes says what it is for: the path is a path, it costs its first place's potential, and no path from any place costs
    // less than that place's potential, where an absent potential says that there is no path.
    ensures path { IsTrue result → IsLeastPath graph.now target potentials.now from path.now }
    ensures least { IsTrue result → AreLeast graph.now target potentials.now }
{
    let potentials = potentials.as_slice();
    potentials.len() == graph.places() && is_certified(graph, target, potentials, from, path)
}
