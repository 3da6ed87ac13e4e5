//! The core of the controller: it plans the answer to a command, and moves its state to where the plan leads.
#![tactic(auto)]

mod applying;
mod commands;
mod completing;
mod core_state;
mod counting;
mod kept_format;
mod loading;
mod new_records;
mod plans;
mod row_changes;
mod row_flaws;
mod row_joining;
mod settling;
mod taking;

pub use core_state::Core;
pub use kept_format::KEPT_FORMAT;
pub use plans::Planned;
pub use row_loading::CoreFault;
