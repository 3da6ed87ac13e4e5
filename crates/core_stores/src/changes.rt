ghost use Rattle.std.specs.Prelude.{◌≡◌, None, option_map};
ghost use Rattle.std.specs.declared.option.Option.{Option};
ghost use Rattle.ctrl_model.specs.declared.replies.Reply.TheVariants.{Refused};
ghost use Rattle.core_stores.specs.declared.changes.Change.TheVariants.{Entity, Policy, Link, Terminator, Circuit, Intercept};
ghost use Rattle.core_stores.specs.Drafts.{IsShown, IsUncounted};

use circuits::CircuitChange;
use ctrl_model::{Refusal, Reply};
use entity_store::EntityChange;
use fabric_graph::LinkChange;
use intercepts::InterceptChange;
use policy_store::{GrantSteps, PolicyChange};
use std::alloc::Global;
use terminators::TermChange;

/// One change of the stores, by the family of the command that makes it.
#[derive(Drop)]
pub enum Change {
    /// A change of the entities.
    Entity(EntityChange),
    /// A change of the policies.
    Policy(PolicyChange),
    /// A change of the links, or of the least router cost.
    Link(LinkChange),
    /// A change of the terminators.
    Terminator(TermChange),
    /// A change of the circuits.
    Circuit(CircuitChange),
    /// A change of the intercepts.
    Intercept(InterceptChange),
}

/// The answer to a command while it is planned: the reply, the change, if there is one, and the steps of the counts. What settles and
/// the rows that differ are found from it (`Planned`).
#[derive(Drop)]
pub struct Draft {
    pub reply: Reply,
    pub change: Option<Change>,
    pub steps: GrantSteps,
}

impl Draft {
    /// The draft of a reply and of a change, if there is one, that moves no count.
    pub fn uncounted(alloc: Global, reply: Reply, change: Option<Change>) -> Draft
        ensures { IsUncounted reply change result }
    {
        Draft {
            reply,
            change,
            steps: GrantSteps::none(alloc),
        }
    }

    /// The draft of a reply that changes nothing.
    pub fn shown(alloc: Global, reply: Reply) -> Draft
        ensures { IsShown reply result }
    {
        Draft::uncounted(alloc, reply, None)
    }

    /// The draft of a refusal, which changes nothing.
    pub fn refused(alloc: Global, refusal: Refusal) -> Draft
        ensures { IsShown (Refused refusal) result }
    {
        Draft::shown(alloc, Reply::Refused(refusal))
    }
}

/// The change of entities that a plan has, as one of the core.
pub fn entity_change(change: Option<EntityChange>) -> Option<Change>
    ensures { result ≡ option_map Entity change }
{
    change.map(|change| Change::Entity(change))
}

/// The change of policies that a plan has, as one of the core.
pub fn policy_change(change: Option<PolicyChange>) -> Option<Change>
    ensures { result ≡ option_map Policy change }
{
    change.map(|change| Change::Policy(change))
}

/// The change of links that a plan has, as one of the core.
pub fn link_change(change: Option<LinkChange>) -> Option<Change>
    ensures { result ≡ option_map Link change }
{
    match change {
        Some(change) => Some(Change::Link(change)),
        None => None,
    }
}

/// The change of terminators that a plan has, as one of the core.
pub fn term_change(change: Option<TermChange>) -> Option<Change>
    ensures { result ≡ option_map Terminator change }
{
    match change {
        Some(change) => Some(Change::Terminator(change)),
        None => None,
    }
}

/// The change of circuits that a plan has, as one of the core.
pub fn circuit_change(change: Option<CircuitChange>) -> Option<Change>
    ensures { result ≡ option_map Circuit change }
{
    match change {
        Some(change) => Some(Change::Circuit(change)),
        None => None,
    }
}

/// The change of intercepts that a plan has, as one of the core.
pub fn intercept_change(change: Option<InterceptChange>) -> Option<Change>
    ensures { result ≡ option_map Intercept change }
{
    match change {
        Some(change) => Some(Change::Intercept(change)),
        None => None,
    }
}
