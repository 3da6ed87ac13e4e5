//! What the commands of a text would do to a state: its rows behind them, and which are refused. No folder is touched
//! (docs/FORMATS.md, "Plans").
#![tactic(auto)]

mod carrying;
mod planning;
mod refusing;
mod worked;

pub use planning::plan_lines;
pub use worked::{worked_answers, worked_plans};
