ghost use Rattle.std.specs.Prelude.{◌≡◌, ◌<◌, ◌≤◌, ◌++◌, ℕ, true, length, map, IfOk, OnOk};
ghost use Rattle.std.specs.Option.{option_map};
ghost use Rattle.ctrl_model.specs.Limits.{most_cost};
ghost use Rattle.ctrl_model.specs.Mirrors.{Mirrors};
ghost use Rattle.ctrl_model.specs.Networks.{hops};
ghost use Rattle.ctrl_model.specs.Numbered.{at, numbers, Between};
ghost use Rattle.ctrl_model.specs.ValidState.{each_passes};
ghost use Rattle.path_certificate.specs.Graphs.{graph_hops};
ghost use Rattle.fabric_graph.specs.FabricChanges.{fabric_after};
ghost use Rattle.fabric_graph.specs.Hops.{hop_of};
ghost use Rattle.fabric_graph.specs.FabricRules.{is_fit};
ghost use Rattle.fabric_graph.specs.Routers.{AreRouters, network, number_at, costs_at_most};
ghost use Rattle.fabric_graph.specs.Steps.{steps_at, all_steps};

use crate::changes::LinkChange;
use crate::fabric::Fabric;
use crate::hopping::{Hop, across};
use crate::links::LinkView;
use crate::steps::{graph_over, push_link};
use ctrl_model::{LinkNo, Numbers, RouterNo, RouterSeen};
use path_certificate::{Graph, Step};
use record_tables::{RecordChange, Turn, left_of, record_after, turned};
use std::alloc::{AllocError, Global};
use std::marker::Model;

/// The links as they will be after a change, if there is one, and without those that are gone. Contracts see them as a fabric
/// (`FabricTables`).
#[derive(Drop)]
pub struct FabricAfter<'a> {
    pub fabric: &'a Fabric,
    pub change: Option<&'a LinkChange>,
    pub gone: &'a Numbers,
}

impl<'a> Model for FabricAfter<'a> {
    ghost use Rattle.std.specs.Prelude.{option_map};
    ghost use Rattle.fabric_graph.specs.FabricTables.{FabricSeen};
    ghost use Rattle.fabric_graph.specs.FabricChanges.{fabric_after};

    ghost Value = { FabricSeen };

    ghost view = { λ a. fabric_after (option_map (λ c. c.now) a.change) a.gone.now a.fabric.now };
}

impl<'a> RecordChange<LinkView<'a>> for Option<&'a LinkChange> {
    ghost use Rattle.std.specs.Prelude.{option_map};
    ghost use Rattle.fabric_graph.specs.ChangedLinks.{set_by, turn_of};

    ghost turn = { λ o. turn_of (option_map (λ c. c.now) o) };

    ghost set = { λ o. set_by (option_map (λ c. c.now) o) };

    fn turn(self) -> Turn<LinkView<'a>> {
        match self {
            Some(LinkChange::Add(row)) => Turn::Adds(LinkView::of(row)),
            Some(LinkChange::Set { no, .. }) => Turn::Sets(no.0),
            Some(LinkChange::Remove(no)) => Turn::Removes(no.0),
            Some(LinkChange::SetLeast(_)) => Turn::Keeps,
            None => Turn::Keeps,
        }
    }

    fn set(self, link: LinkView<'a>) -> LinkView<'a> {
        match self {
            Some(
                LinkChange::Set {
                    cost,
                    latency_a,
                    latency_b,
                    up,
                    ..
                },
            ) => link.set(*cost, *latency_a, *latency_b, *up),
            _ => link,
        }
    }
}

impl<'a> FabricAfter<'a> {
    /// The links after a change, if there is one, and without those of some numbers.
    pub fn new(
        fabric: &'a Fabric,
        change: Option<&'a LinkChange>,
        gone: &'a Numbers,
    ) -> FabricAfter<'a>
        ensures { result ≡ fabric_after (option_map (λ c. c.now) change.entry) gone.now fabric.now }
    {
        FabricAfter {
            fabric,
            change,
            gone,
        }
    }

    /// The link of the number. None exactly where it will be absent.
    pub fn link(&self, no: LinkNo) -> Option<LinkView<'a>>
        ensures { result ≡ at self.now.links.rows no.0 }
    {
        let present = self.fabric.seen(no);
        // With it comes that the numbers ascend below it, so that no link has it yet.
        let next = self.fabric.next();
        record_after(self.change, next, self.gone, no.0, present)
    }

    /// What a path will pay at least to enter a router.
    pub fn least(&self) -> u32
        ensures { result ≡ self.now.least }
    {
        match self.change {
            Some(LinkChange::SetLeast(cost)) => *cost,
            _ => self.fabric.least(),
        }
    }

    /// The hop that there will be over the link of a number from a router on the way to a target, between these routers. None
    /// exactly where the link is not usable or the hop is not allowed (`Fabric::hop`).
    pub fn hop(
        &self,
        routers: &[RouterSeen],
        target: RouterNo,
        at: RouterNo,
        link: LinkNo,
    ) -> Option<Hop>
        ensures { option_map hop_of result ≡ hops (network self.now routers.now) target.0 at.0 link.0 }
    {
        let link = self.link(link)?;
        across(self.least(), routers, target, at, &link)
    }

    // The numbers of the links, ascending.
    fn numbers(&self, alloc: Global) -> Result<Numbers, AllocError>
        ensures all { IfOk result (λ ns. ns ≡ numbers self.now.links.rows) }
        ensures ordered { OnOk result (Between 1 self.now.links.next self.now.links.rows) }
    {
        let numbers = self.fabric.numbers(alloc)?;
        let changed = turned(alloc, self.change.turn(), self.fabric.next(), numbers)?;
        left_of(alloc, &changed, self.gone)
    }

    // Adds the steps over the link of a number, if there will be one.
    fn push_steps(
        &self,
        steps: &mut Vec<Step>,
        routers: &[RouterSeen],
        no: LinkNo,
    ) -> Result<(), AllocError>
        requires routers { AreRouters routers.now }
        requires fit { each_passes is_fit self.now.links.rows ≡ true }
        requires least { self.now.least ≤ most_cost }
        ensures { OnOk result (steps.new.items ≡ steps.old.items ++ steps_at routers.now self.now.least self.now.links.rows no.0) }
    {
        match self.link(no) {
            Some(link) => push_link(steps, routers, self.least(), no.0, &link),
            None => Ok(()),
        }
    }

    // The steps over the links, in the order of the links.
    fn all_steps(&self, alloc: Global, routers: &[RouterSeen]) -> Result<Vec<Step>, AllocError>
        requires routers { AreRouters routers.now }
        requires fit { each_passes is_fit self.now.links.rows ≡ true }
        requires least { self.now.least ≤ most_cost }
        ensures steps { IfOk result (λ v. v.items ≡ all_steps routers.now self.now.least self.now.links.rows) }
        ensures ordered { OnOk result (Between 1 self.now.links.next self.now.links.rows) }
    {
        let numbers = self.numbers(alloc)?;
        let mut steps = Vec::new(alloc);
        'links: for number in numbers.as_slice() {
            self.push_steps(&mut steps, routers, LinkNo(*number))?;
        }
        Ok(steps)
    }

    /// The graph of the usable links that there will be (`Fabric::graph_of`): its places are the routers in order, and each usable
    /// link is a step both ways, which costs what the link and entering its router cost.
    pub fn graph_of(&self, alloc: Global, routers: &[RouterSeen]) -> Result<Graph, AllocError>
        requires routers { AreRouters routers.now }
        // A change may say anything; a graph has only links between two routers, at costs in their ranges.
        requires fit { each_passes is_fit self.now.links.rows ≡ true }
        requires least { self.now.least ≤ most_cost }
        ensures places { IfOk result (λ g. g.through ≡ map (λ r. r.through) routers.now) }
        // For each target the graph has the hops of the network, between the places of its routers.
        ensures mirrors { IfOk result (λ g. (t : ℕ) → t < length routers.now → Mirrors (length routers.now) (number_at routers.now) (graph_hops g t) (hops (network self.now routers.now) (number_at routers.now t))) }
        // A link costs at most 65,535 and twice 60,000, and entering a router at most 65,535.
        ensures costs { IfOk result (λ g. costs_at_most 251070 g.steps ≡ true) }
    {
        let all = self.all_steps(alloc, routers)?;
        graph_over(alloc, routers, all.as_slice())
    }
}
