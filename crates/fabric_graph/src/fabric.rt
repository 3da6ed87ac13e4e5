ghost use Rattle.std.specs.Prelude.{◌≡◌, ◌+◌, ◌<◌, ◌≤◌, ℕ, true, length, map, filter, IfOk, OnOk, OnErr, Ok};
ghost use Rattle.std.specs.List.{list_all};
ghost use Rattle.std.specs.Option.{option_map};
ghost use Rattle.ctrl_model.specs.ValueForms.{is_link_cost, is_latency};
ghost use Rattle.ctrl_model.specs.declared.kinds.Kind.TheVariants as kind;
ghost use Rattle.ctrl_model.specs.Limits as limits;
ghost use Rattle.ctrl_model.specs.Mirrors.{Mirrors};
ghost use Rattle.ctrl_model.specs.Networks.{hops};
ghost use Rattle.ctrl_model.specs.Numbered.{at, numbers};
ghost use Rattle.path_certificate.specs.Graphs.{graph_hops};
ghost use Rattle.fabric_graph.specs.FabricTables.{no_links, with_link, with_set, without_link, with_least, with_next};
ghost use Rattle.fabric_graph.specs.FabricChanges.{without_links};
ghost use Rattle.fabric_graph.specs.FabricRules.{may_add, found, is_there, KeepsLinks};
ghost use Rattle.fabric_graph.specs.LinkEnds.{is_at};
ghost use Rattle.fabric_graph.specs.Routers.{AreRouters, network, number_at, costs_at_most};

use crate::ends::links_at;
use crate::links::{LinkRow, LinkView};
use crate::steps::{all_steps, graph_over};
use ctrl_model::{Kind, LinkNo, Name, Numbers, RouterNo, RouterSeen, limit};
use path_certificate::Graph;
use record_tables::NamedTable;
use std::alloc::{AllocError, Global};
use std::marker::Model;
use thiserror::Error;

/// What a path pays at least to enter a router, until it is set.
const LEAST_AT_FIRST: u32 = 10;

/// Why a link is not added or not found.
#[derive(Clone, Copy, Debug, PartialEq, Eq, Error)]
pub enum FabricFault {
    /// A link has the name already.
    #[error("the name is taken")]
    Exists,
    /// No link has the name.
    #[error("no link has the name")]
    Unknown,
    /// The ends of the link would be one router.
    #[error("both ends are one router")]
    SameRouter,
    /// No link can be added.
    #[error("no link can be added")]
    Full,
}

/// The links of a controller, and the least cost of entering a router. Contracts see them as a table (`FabricTables`).
#[derive(Drop)]
pub struct Fabric {
    links: NamedTable<LinkRow>,
    least: u32,
}

impl Model for Fabric {
    ghost use Rattle.fabric_graph.specs.FabricTables.{FabricSeen};
    ghost use Rattle.fabric_graph.specs.KeptLinks.{AreFit};

    ghost Value = { FabricSeen };

    ghost view = { λ f. record { links = f.links; least = f.least } };

    ghost invariant = { λ f. AreFit f.links f.least };
}

impl Fabric {
    /// A fabric without links. The least router cost is 10.
    pub fn new(alloc: Global) -> Fabric
        ensures { result ≡ no_links }
    {
        Fabric {
            links: NamedTable::new(alloc),
            least: LEAST_AT_FIRST,
        }
    }

    /// Whether a link of the name may be added between the routers: `Exists` comes exactly where a link has the name, else `Full`
    /// exactly where as many links as may be are present or their numbers have run out, and else `SameRouter` exactly where both ends are one
    /// router (docs/RULES.md, "Commands on links").
    pub fn may_add(&self, name: &Name, a: RouterNo, b: RouterNo) -> Result<(), FabricFault>
        ensures { result ≡ may_add name.now a.0 b.0 self.now }
    {
        if self.links.find(name.bytes()).is_some() {
            return Err(FabricFault::Exists);
        }
        if !self.links.has_room(limit(Kind::Link)) {
            return Err(FabricFault::Full);
        }
        if a.0 == b.0 {
            return Err(FabricFault::SameRouter);
        }
        Ok(())
    }

    /// Adds a link under the next number, which it answers.
    pub fn add(&mut self, link: LinkRow) -> Result<LinkNo, AllocError>
        requires may { may_add link.name link.a link.b self.old ≡ Ok tt }
        requires cost { is_link_cost link.cost ≡ true }
        requires latency_a { is_latency link.latency_a ≡ true }
        requires latency_b { is_latency link.latency_b ≡ true }
        ensures number { IfOk result (λ n. n.0 ≡ self.old.links.next) }
        ensures ok { OnOk result (self.new ≡ with_link link self.old) }
        ensures err { OnErr result (self.new ≡ self.old) }
    {
        let number = self.links.add(link)?;
        Ok(LinkNo(number))
    }

    /// The number of the link that has the name. `Unknown` comes exactly where none has it.
    pub fn find(&self, name: &Name) -> Result<LinkNo, FabricFault>
        ensures found { result ≡ found name.now self.now }
        // The numbers ascend from 1 below the next one, the limit is kept, and costs are in their ranges.
        ensures numbers { KeepsLinks self.now }
    {
        match self.links.find(name.bytes()) {
            Some(number) => Ok(LinkNo(number)),
            None => Err(FabricFault::Unknown),
        }
    }

    /// The link of the number. None exactly where it is absent.
    pub fn link(&self, no: LinkNo) -> Option<&LinkRow>
        ensures { option_map (λ l. l.now) result ≡ at self.now.links.rows no.0 }
    {
        self.links.get(no.0)
    }

    /// The link of the number, lent. None exactly where it is absent.
    pub fn seen(&self, no: LinkNo) -> Option<LinkView<'_>>
        ensures { result ≡ at self.now.links.rows no.0 }
    {
        match self.links.get(no.0) {
            Some(row) => Some(LinkView::of(row)),
            None => None,
        }
    }

    /// Sets what a present link costs, 1 to 65,535, the latencies that its two ends report, 0 to 60,000 each, and whether it is up.
    pub fn set(&mut self, no: LinkNo, cost: u32, latency_a: u32, latency_b: u32, up: bool)
        requires there { is_there no.0 self.old ≡ true }
        requires cost { is_link_cost cost ≡ true }
        requires latency_a { is_latency latency_a ≡ true }
        requires latency_b { is_latency latency_b ≡ true }
        ensures { self.new ≡ with_set no.0 cost latency_a latency_b up self.old }
    {
        self.links.edit(no.0, |link| {
            link.cost = cost;
            link.latency_a = latency_a;
            link.latency_b = latency_b;
            link.up = up;
        });
    }

    /// Removes a present link.
    pub fn remove(&mut self, no: LinkNo)
        requires { is_there no.0 self.old ≡ true }
        ensures { self.new ≡ without_link no.0 self.old }
    {
        self.links.remove(no.0);
    }

    /// Removes the links of some numbers, where one is present.
    pub fn remove_each(&mut self, gone: &Numbers)
        ensures { self.new ≡ without_links gone.now self.old }
    {
        self.links.remove_each(gone);
    }

    /// Sets what a path pays at least to enter a router, 1 to 65,535.
    pub fn set_least(&mut self, cost: u32)
        requires { is_link_cost cost ≡ true }
        ensures { self.new ≡ with_least cost self.old }
    {
        self.least = cost;
    }

    /// The numbers of the links, ascending.
    pub fn numbers(&self, alloc: Global) -> Result<Numbers, AllocError>
        ensures all { IfOk result (λ ns. ns ≡ numbers self.now.links.rows) }
        // The numbers ascend from 1 below the next one, the limit is kept, and costs are in their ranges.
        ensures numbers { KeepsLinks self.now }
    {
        self.links.numbers(alloc)
    }

    /// The numbers of the links that end at a router, ascending.
    pub fn links_at(&self, alloc: Global, router: RouterNo) -> Result<Numbers, AllocError>
        ensures { IfOk result (λ ns. ns ≡ numbers (filter (λ row. is_at router.0 row.1) self.now.links.rows)) }
    {
        links_at(alloc, &self.links, router)
    }

    /// How many links there are.
    pub fn count(&self) -> usize
        ensures count { result ≡ length self.now.links.rows }
        ensures few { result ≤ limits.limit kind.Link }
    {
        self.links.len()
    }

    /// The number that the next link gets, 1 in a new fabric.
    pub fn next(&self) -> u32
        ensures next { result ≡ self.now.links.next }
        // The numbers ascend from 1 below it, the limit is kept, and costs are in their ranges.
        ensures numbers { KeepsLinks self.now }
    {
        self.links.next()
    }

    /// Raises the next number.
    pub fn skip(&mut self, next: u32)
        requires { self.old.links.next ≤ next }
        ensures { self.new ≡ with_next next self.old }
    {
        self.links.skip(next);
    }

    /// What a path pays at least to enter a router, 1 to 65,535.
    pub fn least(&self) -> u32
        ensures least { result ≡ self.now.least }
        ensures range { is_link_cost self.now.least ≡ true }
    {
        self.least
    }

    /// An equal fabric.
    pub fn copy(&self) -> Result<Fabric, AllocError>
        ensures { IfOk result (λ f. f ≡ self.now) }
    {
        let links = self.links.copy()?;
        Ok(Fabric {
            links,
            least: self.least,
        })
    }

    /// The graph of the usable links (docs/RULES.md, "Paths"): its places are the routers in order, and each usable link is a step
    /// both ways, which costs what the link and entering its router cost.
    pub fn graph_of(&self, alloc: Global, routers: &[RouterSeen]) -> Result<Graph, AllocError>
        requires { AreRouters routers.now }
        ensures places { IfOk result (λ g. g.through ≡ map (λ r. r.through) routers.now) }
        // For each target the graph has the hops of the network, between the places of its routers.
        ensures mirrors { IfOk result (λ g. (t : ℕ) → t < length routers.now → Mirrors (length routers.now) (number_at routers.now) (graph_hops g t) (hops (network self.now routers.now) (number_at routers.now t))) }
        // A link costs at most 65,535 and twice 60,000, and entering a router at most 65,535.
        ensures costs { IfOk result (λ g. costs_at_most 251070 g.steps ≡ true) }
    {
        let all = all_steps(alloc, &self.links, self.least, routers)?;
        graph_over(alloc, routers, all.as_slice())
    }
}
