//! The steps that grant counts take where an entity or a policy changes, and the entities that a side matches.
#![tactic(auto)]

mod counting;
mod granting;
mod membership;
mod worked;

pub use counting::{
    coming_router_steps, coming_steps, described_steps, going_steps, policy_change_steps,
};
pub use granting::{Moved, entity_steps, policy_steps};
pub use membership::members;
pub use worked::members_of_sides;
