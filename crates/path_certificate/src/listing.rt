ghost use Rattle.std.specs.Prelude.{◌≡◌, ◌<◌, ◌++◌, ◌∷◌, [], IfOk, OnOk, length, replicate};
ghost use Rattle.std.specs.List.{slice_set, slice_index_or};
ghost use Rattle.path_certificate.specs.StepLists.{place_at, AreListed};

use crate::graph::Step;
use std::alloc::{AllocError, Global};
use std::marker::Model;

/// An end of a step: the place that it leaves, or the one that it leads to.
#[derive(Clone, Copy, PartialEq, Eq)]
pub enum StepEnd {
    From,
    To,
}

// The place at an end of a step.
fn place_at(end: StepEnd, step: &Step) -> u16
    ensures { result ≡ place_at end step.now }
{
    match end {
        StepEnd::From => step.from,
        StepEnd::To => step.to,
    }
}

// Some steps. Contracts see the list.
#[derive(Drop)]
struct StepList {
    steps: Vec<Step>,
}

impl Model for StepList {
    ghost use Rattle.std.specs.Prelude.{List};
    ghost use Rattle.path_certificate.specs.declared.graph.Step.{Step};

    ghost Value = { List Step };

    ghost view = { λ l. l.steps.items };
}

/// Steps in lists, one for each place. Contracts see the lists.
#[derive(Drop)]
pub struct StepLists {
    lists: Vec<StepList>,
}

impl Model for StepLists {
    ghost use Rattle.std.specs.Prelude.{List};
    ghost use Rattle.path_certificate.specs.declared.graph.Step.{Step};

    ghost Value = { List (List Step) };

    ghost view = { λ l. l.lists.items };
}

// So many lists without steps, with room for some in each.
fn no_lists(alloc: Global, places: usize, room: usize) -> Result<Vec<StepList>, AllocError>
    ensures { IfOk result (λ v. v.items ≡ replicate places []) }
{
    let mut lists = Vec::with_capacity(alloc, places)?;
    'places: for _ in 0..places {
        lists.push(StepList {
            steps: Vec::with_capacity(alloc, room)?,
        })?;
    }
    Ok(lists)
}

// How many steps each of some places has, were they shared out evenly.
fn even_share(steps: usize, places: usize) -> usize {
    if places == 0 {
        return 0;
    }
    steps / places
}

// Adds a step to the list of a place, if it has one.
fn push_step(lists: &mut Vec<StepList>, place: u16, step: Step) -> Result<(), AllocError>
    ensures { OnOk result (lists.new.items ≡ slice_set lists.old.items place (slice_index_or lists.old.items place [] ++ step ∷ [])) }
{
    if (place as usize) < lists.len() {
        lists[place as usize].steps.push(step)?;
    }
    Ok(())
}

impl StepLists {
    /// The steps by their places at an end, in their order.
    pub fn by(
        alloc: Global,
        steps: &[Step],
        places: usize,
        end: StepEnd,
    ) -> Result<StepLists, AllocError>
        ensures { IfOk result (AreListed end places steps.now) }
    {
        let room = even_share(steps.len(), places);
        let mut lists = no_lists(alloc, places, room)?;
        'steps: for step in steps {
            push_step(&mut lists, place_at(end, step), *step)?;
        }
        Ok(StepLists { lists })
    }

    /// The steps of a place.
    pub fn at(&self, place: u16) -> &[Step]
        requires { place < length self.now }
        ensures { result.now ≡ slice_index_or self.now place [] }
    {
        self.lists[place as usize].steps.as_slice()
    }
}
