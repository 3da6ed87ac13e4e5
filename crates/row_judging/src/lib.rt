//! Rows judged: the valid state of which bytes are all rows, if there is one, as a function, and the law that it is exact (docs/FORMATS.md, "Rows of
//! a valid state"). Nothing here runs.
#![tactic(auto)]

mod laws;

pub use laws::{batches_of_states_are_bounded, rows_are_judged_exactly};
