ghost use Rattle.std.specs.Prelude.{◌≡◌, ◌<◌, length, false};
ghost use Rattle.std.specs.List.{slice_index_or};
ghost use Rattle.path_certificate.specs.Graphs.{IsGraph, counts};

use std::marker::Model;

/// A step from a place over a link to another place, at a cost of at least 1.
#[derive(Clone, Copy, PartialEq, Eq)]
pub struct Step {
    pub from: u16,
    pub to: u16,
    pub link: u32,
    pub cost: u32,
}

/// Places, of which each may be passed through or not, and the steps between them in the order of place and link.
///
/// Contracts see the flags and the steps as lists.
#[derive(Drop)]
pub struct Graph {
    through: Vec<bool>,
    steps: Vec<Step>,
}

impl Model for Graph {
    ghost use Rattle.path_certificate.specs.Graphs.{GraphSeen, IsGraph};

    ghost Value = { GraphSeen };

    ghost view = { λ g. record { through = g.through.items; steps = g.steps.items } };

    ghost invariant = { λ g. IsGraph g.through.items g.steps.items };
}

impl Graph {
    /// The graph of these places and steps.
    pub fn new(through: Vec<bool>, steps: Vec<Step>) -> Graph
        requires { IsGraph through.items steps.items }
        ensures { result ≡ record { through = through.items; steps = steps.items } }
    {
        Graph { through, steps }
    }

    /// How many places there are: at most 256.
    pub fn places(&self) -> usize
        ensures count { result ≡ length self.now.through }
        ensures graph { IsGraph self.now.through self.now.steps }
    {
        self.through.len()
    }

    /// The steps, in the order of place and link.
    pub fn steps(&self) -> &[Step]
        ensures steps { result.now ≡ self.now.steps }
        ensures graph { IsGraph self.now.through self.now.steps }
    {
        self.steps.as_slice()
    }

    /// Whether the place may be passed through.
    pub fn is_through(&self, place: u16) -> bool
        requires { place < length self.now.through }
        ensures { result ≡ slice_index_or self.now.through place false }
    {
        self.through[place as usize]
    }

    /// Whether the step counts for the target: it leads there, or to a place that may be passed through.
    pub fn counts(&self, target: u16, step: &Step) -> bool
        requires { step.now.to < length self.now.through }
        ensures { result ≡ counts self.now.through target step.now }
    {
        step.to == target || self.is_through(step.to)
    }
}
