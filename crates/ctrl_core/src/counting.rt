ghost use Rattle.std.specs.Prelude.{◌≡◌, true, IfOk};
ghost use Rattle.ctrl_model.specs.Numbered.{is_present};
ghost use Rattle.ctrl_model.specs.declared.kinds.Kind.TheVariants as kind;
ghost use Rattle.entity_commands.specs.EntityChanges.{CanEnter, entered};
ghost use Rattle.grant_steps.specs.EntitySteps.{IsDescribed};
ghost use Rattle.grant_steps.specs.LeadingSteps.{LeadAllCounts};
ghost use Rattle.core_stores.specs.StoredState.{state_of};
ghost use Rattle.ctrl_core.specs.Changes.{CanChange, after_change};
ghost use Rattle.ctrl_core.specs.KeptState.{Keeps};

use core_stores::{Change, Stores};
use ctrl_model::{Kind, Names};
use entity_commands::EntityChange;
use grant_steps::{
    coming_router_steps, coming_steps, described_steps, going_steps, policy_change_steps,
};
use policy_store::GrantSteps;
use std::alloc::{AllocError, Global};

// The steps of a present router that gets other attributes.
fn described_router_steps(
    alloc: Global,
    stores: &Stores,
    number: u32,
    attributes: &Names,
) -> Result<GrantSteps, AllocError>
    requires { is_present stores.now.entities.routers.rows number ≡ true }
    ensures { IfOk result (IsDescribed kind.Router number attributes.now stores.now.entities stores.now.policies) }
{
    let known = &stores.entities;
    let kept = &stores.policies;
    described_steps(alloc, known, kept, Kind::Router, number, attributes)
}

// The steps that the counts take where a change of the entities is made.
fn entity_change_steps(
    alloc: Global,
    stores: &Stores,
    change: &EntityChange,
) -> Result<GrantSteps, AllocError>
    requires kept { Keeps stores.now }
    requires can { CanEnter change.now (state_of stores.now) }
    ensures { IfOk result (LeadAllCounts (state_of stores.now) (entered change.now (state_of stores.now))) }
{
    let known = &stores.entities;
    let kept = &stores.policies;
    match change {
        EntityChange::Add {
            kind,
            name,
            attributes,
        } => coming_steps(alloc, known, kept, *kind, name, attributes),
        EntityChange::AddRouter {
            name,
            attributes,
            ..
        } => coming_router_steps(alloc, known, kept, name, attributes),
        EntityChange::Describe {
            kind,
            number,
            attributes,
        } => described_steps(alloc, known, kept, *kind, *number, attributes),
        EntityChange::DescribeRouter {
            number,
            attributes,
            ..
        } => described_router_steps(alloc, stores, *number, attributes),
        EntityChange::Mark { .. } => Ok(GrantSteps::none(alloc)),
        EntityChange::Remove { kind, number, .. } => {
            going_steps(alloc, known, kept, *kind, *number)
        }
    }
}

/// The steps that the counts take where a change is made. Links, terminators, circuits and intercepts move none.
pub fn change_steps(
    alloc: Global,
    stores: &Stores,
    change: &Change,
) -> Result<GrantSteps, AllocError>
    requires kept { Keeps stores.now }
    requires can { CanChange change.now (state_of stores.now) }
    ensures { IfOk result (LeadAllCounts (state_of stores.now) (after_change change.now (state_of stores.now))) }
{
    match change {
        Change::Entity(change) => entity_change_steps(alloc, stores, change),
        Change::Policy(change) => {
            policy_change_steps(alloc, &stores.entities, &stores.policies, change)
        }
        Change::Link(_) | Change::Terminator(_) | Change::Circuit(_) | Change::Intercept(_) => {
            Ok(GrantSteps::none(alloc))
        }
    }
}
