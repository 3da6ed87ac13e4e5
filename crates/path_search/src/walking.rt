ghost use Rattle.std.specs.Prelude.{◌≡◌, ◌↔◌, ◌<◌, nat_lt, length, drop, find, IfOk, IfSome, IsNone};
ghost use Rattle.std.specs.List.{prefix_len, AllByRecursion};
ghost use Rattle.ctrl_model.specs.Claims.{no_path};
ghost use Rattle.path_certificate.specs.Graphs.{potential, IsStep};
ghost use Rattle.path_search.specs.Searches.{IsLeast, IsFirst};
ghost use Rattle.path_search.specs.Supports.{falls_from};

use ctrl_model::{Numbers, Potentials};
use path_certificate::{Graph, Step, is_tight};
use std::alloc::{AllocError, Global};

fn falls_from(graph: &Graph, target: u16, potentials: &[u64], place: u16, step: &Step) -> bool
    requires places { length potentials.now ≡ length graph.now.through }
    requires from { step.now.from < length potentials.now }
    requires to { step.now.to < length potentials.now }
    ensures { result ≡ falls_from graph.now.through target potentials.now place step.now }
{
    step.from == place && graph.counts(target, step) && is_tight(potentials, step)
}

// The steps behind those that leave a place before this one.
fn steps_on(graph: &Graph, place: u16) -> &[Step]
    ensures rest { result.now ≡ drop (prefix_len (λ s. nat_lt s.from place) graph.now.steps) graph.now.steps }
    ensures each { AllByRecursion (IsStep (length graph.now.through)) result.now }
{
    let steps = graph.steps();
    let before = steps.partition_point(
        |step: &Step| -> bool
            ensures { result ≡ nat_lt step.now.from place }
        { step.from < place },
    );
    let (_, on) = steps.split_at(before);
    on
}

// The first of the tight steps from the place: the one over the least link.
fn first_tight(graph: &Graph, target: u16, potentials: &[u64], place: u16) -> Option<Step>
    requires { length potentials.now ≡ length graph.now.through }
    ensures { result ≡ find (falls_from graph.now.through target potentials.now place) graph.now.steps }
{
    let steps = steps_on(graph, place);
    'steps: for step in steps {
        if falls_from(graph, target, potentials, place, step) {
            return Some(*step);
        }
    }
    None
}

fn first_links(
    alloc: Global,
    graph: &Graph,
    target: u16,
    potentials: &[u64],
    from: u16,
) -> Result<Vec<u32>, AllocError>
    requires target { target < length graph.now.through }
    requires from { from < length graph.now.through }
    requires least { IsLeast graph.now target potentials.now }
    requires there { potential potentials.now from < no_path }
    ensures { IfOk result (λ links. IsFirst graph.now target potentials.now from links.items) }
{
    // A path has fewer links than there are places.
    let mut links = Vec::with_capacity(alloc, graph.places())?;
    let mut at = from;
    'links: while at != target {
        let Some(step) = first_tight(graph, target, potentials, at) else {
            unreachable!()
        };
        links.push(step.link)?;
        at = step.to;
    }
    Ok(links)
}

/// Among the least paths from a place to the target the one whose list of links comes first in lexicographic order. None
/// exactly where the place has no potential.
pub fn walk(
    alloc: Global,
    graph: &Graph,
    target: u16,
    potentials: &Potentials,
    from: u16,
) -> Result<Option<Numbers>, AllocError>
    requires target { target < length graph.now.through }
    requires from { from < length graph.now.through }
    requires least { IsLeast graph.now target potentials.now }
    ensures none { IfOk result (λ walk. IsNone walk ↔ (potential potentials.now from ≡ no_path)) }
    ensures first { IfOk result (λ walk. IfSome walk (IsFirst graph.now target potentials.now from)) }
{
    let potentials = potentials.as_slice();
    if potentials[from as usize] == u64::MAX {
        return Ok(None);
    }
    let links = first_links(alloc, graph, target, potentials, from)?;
    Ok(Some(Numbers::of(links)))
}
