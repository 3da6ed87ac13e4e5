//! States built of rows, one after another: definitions, why a row cannot come next, and laws that a state stays valid.
#![tactic(auto)]

mod flaws;
mod laws;
mod worked;

pub use flaws::Flaw;
pub use laws::{flawless_rows_build_valid_states, joining_keeps_validity, skipping_keeps_validity};
pub use worked::{worked_flaws, worked_joins, worked_limits, worked_orders_of_flaws, worked_rows};
