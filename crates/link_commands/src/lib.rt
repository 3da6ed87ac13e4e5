//! The commands on links and on the least router cost: planned and made.
#![tactic(auto)]

mod applying;
mod planning;
mod rows;

pub use applying::apply_link_change;
pub use fabric_graph::LinkChange;
pub use planning::plan_link_command;
pub use rows::link_changes;
