//! The changes between two states as lines that people read, and what the commands of a text would change
//! (docs/FORMATS.md, "Lines of changes", "Plans").
#![tactic(auto)]

mod comparing;
mod keeping;
mod laws;
mod planning;
mod row_keys;
mod row_texts;
mod worked;

pub use comparing::changes;
pub use laws::nothing_is_said_of_equal_states;
pub use planning::{Plan, plan_commands};
pub use worked::{worked_changes, worked_lines, worked_plans};
