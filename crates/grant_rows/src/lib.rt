//! The rows of grant counts that a change makes other: found from the counts before it and from its steps alone, so that no policy
//! is evaluated again (docs/FORMATS.md, "Rows").
#![tactic(auto)]

mod collecting;
mod moves;
mod stepping;
mod worked;

pub use collecting::{all_count_changes, count_changes};
pub use moves::{CountMoves, GrantMoves};
pub use worked::{
    a_policy_that_joins_two, a_row_goes, changes_of_four_relations, steps_that_cancel,
};
