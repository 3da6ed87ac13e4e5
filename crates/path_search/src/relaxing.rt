ghost use Rattle.std.specs.Prelude.{◌≡◌, ◌+◌, ◌<◌, ◌≤◌, ◌∷◌, length, sum, IfOk, OnOk, true, replicate};
ghost use Rattle.std.specs.Bool.{OnTrue, OnFalse};
ghost use Rattle.std.specs.List.{slice_set};
ghost use Rattle.ctrl_model.specs.Claims.{no_path};
ghost use Rattle.path_certificate.specs.Graphs.{potential, improves, none_improves};
ghost use Rattle.path_certificate.specs.StepLists.{standing, AreListed};
ghost use Rattle.path_certificate.specs.declared.listing.StepEnd.TheVariants as step_end;
ghost use Rattle.path_search.specs.Searches.{IsLeast, AreFew};
ghost use Rattle.path_search.specs.Supports.{Supported, lowered, Relaxed, Spread, places_of, IsWaiting, Grown};

use crate::waiting::Waiting;
use ctrl_model::Potentials;
use path_certificate::{Graph, Step, StepEnd, StepLists, improves, reach};
use std::alloc::{AllocError, Global};

// A graph, its steps by the places that they lead to, and the target of a search.
#[derive(Clone, Copy)]
struct Search<'a> {
    graph: &'a Graph,
    lists: &'a StepLists,
    target: u16,
}

fn start(alloc: Global, places: usize, target: u16) -> Result<Vec<u64>, AllocError>
    requires { target < places }
    ensures { IfOk result (λ v. v.items ≡ slice_set (replicate places no_path) target 0) }
{
    let mut potentials = vec![in alloc; u64::MAX; places]?;
    potentials[target as usize] = 0;
    Ok(potentials)
}

// Lowers the potential of the step's start where the step improves it, and says whether it did.
fn relax_step(graph: &Graph, target: u16, potentials: &mut [u64], step: &Step) -> bool
    requires places { length potentials.old ≡ length graph.now.through }
    requires from { step.now.from < length potentials.old }
    requires to { step.now.to < length potentials.old }
    ensures improved { result ≡ improves graph.now.through target potentials.old step.now }
    ensures set { OnTrue result (potentials.new ≡ lowered potentials.old step.now) }
    ensures same { OnFalse result (potentials.new ≡ potentials.old) }
{
    if improves(graph, target, potentials, step) {
        potentials[step.from as usize] = reach(potentials, step);
        true
    } else {
        false
    }
}

// Relaxes the step. Where its start's potential falls, the start waits.
fn relax_and_wait(
    graph: &Graph,
    target: u16,
    potentials: &mut [u64],
    waiting: &mut Waiting,
    step: &Step,
) -> Result<(), AllocError>
    requires places { length potentials.old ≡ length graph.now.through }
    requires from { step.now.from < length potentials.old }
    requires to { step.now.to < length potentials.old }
    ensures set { OnOk result (OnTrue (improves graph.now.through target potentials.old step.now) (potentials.new ≡ lowered potentials.old step.now)) }
    ensures same { OnOk result (OnFalse (improves graph.now.through target potentials.old step.now) (potentials.new ≡ potentials.old)) }
    ensures grown { OnOk result (Grown potentials.old potentials.new (places_of waiting.old) (places_of waiting.new)) }
{
    if !relax_step(graph, target, potentials, step) {
        return Ok(());
    }
    waiting.push(potentials[step.from as usize], step.from)
}

// Relaxes the steps into a place. The places whose potentials fall wait.
fn relax_into(
    graph: &Graph,
    target: u16,
    potentials: &mut [u64],
    waiting: &mut Waiting,
    place: u16,
    into: &[Step],
) -> Result<(), AllocError>
    requires supported { Supported graph.now target potentials.old }
    requires into { into.now ≡ standing step_end.To place graph.now.steps }
    ensures relaxed { OnOk result (Relaxed graph.now target place potentials.old potentials.new) }
    ensures grown { OnOk result (Grown potentials.old potentials.new (places_of waiting.old) (places_of waiting.new)) }
{
    let _places = graph.places();
    'steps: for step in into {
        relax_and_wait(graph, target, potentials, waiting, step)?;
    }
    Ok(())
}

// Fixes the potential of a place, and relaxes the steps into it.
fn fix(
    search: &Search,
    potentials: &mut [u64],
    fixed: &mut [u64],
    waiting: &mut Waiting,
    place: u16,
) -> Result<(), AllocError>
    requires lists { AreListed step_end.To (length search.now.graph.now.through) search.now.graph.now.steps search.now.lists.now }
    requires spread { Spread search.now.graph.now search.now.target potentials.old fixed.old }
    requires place { place < length search.now.graph.now.through }
    requires waits { potential potentials.old place < potential fixed.old place }
    requires waiting { IsWaiting potentials.old fixed.old (place ∷ places_of waiting.old) }
    ensures spread { OnOk result (Spread search.now.graph.now search.now.target potentials.new fixed.new) }
    ensures waiting { OnOk result (IsWaiting potentials.new fixed.new (places_of waiting.new)) }
    ensures fewer { OnOk result (length waiting.new + sum potentials.new + sum fixed.new ≤ length waiting.old + sum potentials.old + sum fixed.old) }
{
    fixed[place as usize] = potentials[place as usize];
    relax_into(
        search.graph,
        search.target,
        potentials,
        waiting,
        place,
        search.lists.at(place),
    )
}

// One turn: fixes the potential of a place, unless it is the fixed one since it waited more than once.
fn turn(
    search: &Search,
    potentials: &mut [u64],
    fixed: &mut [u64],
    waiting: &mut Waiting,
    place: u16,
) -> Result<(), AllocError>
    requires lists { AreListed step_end.To (length search.now.graph.now.through) search.now.graph.now.steps search.now.lists.now }
    requires spread { Spread search.now.graph.now search.now.target potentials.old fixed.old }
    requires place { place < length search.now.graph.now.through }
    requires waiting { IsWaiting potentials.old fixed.old (place ∷ places_of waiting.old) }
    ensures spread { OnOk result (Spread search.now.graph.now search.now.target potentials.new fixed.new) }
    ensures waiting { OnOk result (IsWaiting potentials.new fixed.new (places_of waiting.new)) }
    ensures fewer { OnOk result (length waiting.new + sum potentials.new + sum fixed.new ≤ length waiting.old + sum potentials.old + sum fixed.old) }
{
    if potentials[place as usize] < fixed[place as usize] {
        fix(search, potentials, fixed, waiting, place)
    } else {
        Ok(())
    }
}

// Fixes the least potential that waits, a place a turn, until none does.
fn settle(
    search: &Search,
    potentials: &mut [u64],
    fixed: &mut [u64],
    waiting: &mut Waiting,
) -> Result<(), AllocError>
    requires lists { AreListed step_end.To (length search.now.graph.now.through) search.now.graph.now.steps search.now.lists.now }
    requires spread { Spread search.now.graph.now search.now.target potentials.old fixed.old }
    requires waiting { IsWaiting potentials.old fixed.old (places_of waiting.old) }
    ensures supported { OnOk result (Supported search.now.graph.now search.now.target potentials.new) }
    ensures settled { OnOk result (none_improves search.now.graph.now search.now.target potentials.new ≡ true) }
{
    let _places = search.graph.places();
    'turns: while let Some((_, place)) = waiting.pop() {
        turn(search, potentials, fixed, waiting, place)?;
    }
    Ok(())
}

fn least_costs(
    alloc: Global,
    graph: &Graph,
    lists: &StepLists,
    target: u16,
) -> Result<Vec<u64>, AllocError>
    requires lists { AreListed step_end.To (length graph.now.through) graph.now.steps lists.now }
    requires target { target < length graph.now.through }
    ensures least { IfOk result (λ v. IsLeast graph.now target v.items) }
    ensures few { IfOk result (λ v. AreFew graph.now v.items) }
{
    let places = graph.places();
    let mut potentials = start(alloc, places, target)?;
    let mut fixed = vec![in alloc; u64::MAX; places]?;
    let mut waiting = Waiting::new(alloc);
    waiting.push(0, target)?;
    settle(
        &Search {
            graph,
            lists,
            target,
        },
        potentials.as_mut_slice(),
        fixed.as_mut_slice(),
        &mut waiting,
    )?;
    Ok(potentials)
}

/// The steps of a graph by the places that they lead to, as `least_over` takes them.
pub fn arrivals(alloc: Global, graph: &Graph) -> Result<StepLists, AllocError>
    ensures { IfOk result (AreListed step_end.To (length graph.now.through) graph.now.steps) }
{
    StepLists::by(alloc, graph.steps(), graph.places(), StepEnd::To)
}

/// The least cost of a path from each place to the target, `u64::MAX` exactly where there is none, over the steps by the places
/// that they lead to: these are listed once for many searches.
pub fn least_over(
    alloc: Global,
    graph: &Graph,
    lists: &StepLists,
    target: u16,
) -> Result<Potentials, AllocError>
    requires lists { AreListed step_end.To (length graph.now.through) graph.now.steps lists.now }
    requires target { target < length graph.now.through }
    ensures least { IfOk result (λ p. IsLeast graph.now target p) }
    ensures few { IfOk result (λ p. AreFew graph.now p) }
{
    let potentials = least_costs(alloc, graph, lists, target)?;
    Ok(Potentials::of(potentials))
}

/// The least cost of a path from each place to the target, `u64::MAX` exactly where there is none.
pub fn least(alloc: Global, graph: &Graph, target: u16) -> Result<Potentials, AllocError>
    requires { target < length graph.now.through }
    ensures least { IfOk result (λ p. IsLeast graph.now target p) }
    // A path has fewer steps than there are places, so its cost has a bound.
    ensures few { IfOk result (λ p. AreFew graph.now p) }
{
    let lists = arrivals(alloc, graph)?;
    least_over(alloc, graph, &lists, target)
}
