//! The commands on identities, services and edge routers: planned, and made.
#![tactic(auto)]

mod applying;
mod planning;
mod rows;
mod worked;

pub use applying::apply_entity_change;
pub use entity_store::EntityChange;
pub use planning::plan_entity_command;
pub use rows::entity_changes;
pub use worked::{changes_of_entities, changes_of_routers};
