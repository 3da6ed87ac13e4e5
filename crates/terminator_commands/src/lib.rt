//! The commands on terminators: planned and made, and the changes of rows.
#![tactic(auto)]

mod applying;
mod planning;
mod rows;

pub use applying::apply_term_change;
pub use planning::plan_terminator_command;
pub use rows::term_changes;
pub use terminators::TermChange;
