//! Worked examples of the core's definitions: changes, what settles after them, the loads that are kept, and rows of terminators, of
//! intercepts and of the serial. Nothing here runs.
#![tactic(auto)]

mod worked;
mod worked_rows;
mod worked_settling;

pub use worked::{worked_changes, worked_starts};
pub use worked_rows::{
    claims_in_a_folder, claims_that_go, precedence_in_a_folder, precedences_in_rows,
    serials_in_batches,
};
pub use worked_settling::{
    circuits_of_another_service, circuits_that_go, granted_circuits, kept_loads,
    pairs_that_are_emptied, pairs_that_circuits_need, what_settles, where_loads_change,
};
