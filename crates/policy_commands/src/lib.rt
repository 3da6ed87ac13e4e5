//! The commands on policies: planned, made, and the rows that a change touches.
#![tactic(auto)]

mod applying;
mod parts;
mod planning;
mod putting;
mod rows;
mod worked;

pub use applying::{apply_policy_change, forget_by};
pub use parts::PolicyView;
pub use planning::plan_policy_command;
pub use policy_store::PolicyChange;
pub use putting::{left_kind, may_put, right_kind};
pub use rows::{forgotten_changes, policy_changes};
pub use worked::{commands_on_policies, what_may_be_put};
