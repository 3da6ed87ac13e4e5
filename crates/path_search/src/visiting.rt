ghost use Rattle.std.specs.Prelude.{◌≡◌, ◌<◌, ℕ, [], length, replicate, IfOk, OnOk, OnErr};
ghost use Rattle.path_search.specs.Visits.{IsKnown, costs_to};

use crate::relaxing::{arrivals, least_over};
use ctrl_model::Potentials;
use path_certificate::{Graph, StepLists};
use std::alloc::{AllocError, Global};
use std::marker::Model;

/// A graph, and the least costs to those of its places that were searched. Contracts see the graph and the costs by place, none where
/// a place was not searched.
#[derive(Drop)]
pub struct CostSearch {
    graph: Graph,
    lists: StepLists,
    costs: Vec<Potentials>,
}

impl Model for CostSearch {
    ghost use Rattle.path_search.specs.Visits.{SearchSeen, KeepsCosts};

    ghost Value = { SearchSeen };

    ghost view = { λ s. record { graph = s.graph; costs = s.costs.items } };

    ghost invariant = { λ s. KeepsCosts s.graph s.lists s.costs.items };
}

// No least costs yet, for so many places.
fn no_costs(alloc: Global, places: usize) -> Result<Vec<Potentials>, AllocError>
    ensures { IfOk result (λ v. v.items ≡ replicate places []) }
{
    let mut costs = Vec::with_capacity(alloc, places)?;
    'places: for _ in 0..places {
        costs.push(Potentials::of(Vec::new(alloc)))?;
    }
    Ok(costs)
}

impl CostSearch {
    /// A search of a graph, of which no place was searched.
    pub fn over(alloc: Global, graph: Graph) -> Result<CostSearch, AllocError>
        ensures graph { IfOk result (λ s. s.graph ≡ graph) }
        ensures costs { IfOk result (λ s. s.costs ≡ replicate (length graph.through) []) }
    {
        let lists = arrivals(alloc, &graph)?;
        let costs = no_costs(alloc, graph.places())?;
        Ok(CostSearch {
            graph,
            lists,
            costs,
        })
    }

    /// Searches the least costs to a place, if that was not done. What is known of other places stays known.
    pub fn visit(&mut self, alloc: Global, place: u16) -> Result<(), AllocError>
        requires { place < length self.old.graph.through }
        ensures graph { self.new.graph ≡ self.old.graph }
        ensures known { OnOk result (IsKnown self.new.graph place (costs_to self.new.costs place)) }
        ensures others { OnOk result ((t : ℕ) → IsKnown self.old.graph t (costs_to self.old.costs t) → IsKnown self.new.graph t (costs_to self.new.costs t)) }
        ensures err { OnErr result (self.new ≡ self.old) }
    {
        if self.costs[place as usize].len() == 0 {
            let costs = least_over(alloc, &self.graph, &self.lists, place)?;
            self.costs[place as usize] = costs;
        }
        Ok(())
    }

    /// The least costs by place.
    pub fn costs(&self) -> &[Potentials]
        ensures costs { result.now ≡ self.now.costs }
        ensures places { length self.now.costs ≡ length self.now.graph.through }
    {
        self.costs.as_slice()
    }

    /// The graph.
    pub fn graph(&self) -> &Graph
        ensures { result.now ≡ self.now.graph }
    {
        &self.graph
    }
}
