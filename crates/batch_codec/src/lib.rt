//! Batches of changes: made of rows before and after, written, and read (docs/FORMATS.md, "Batches").
#![tactic(auto)]

mod batch_examples;
mod batches;
mod laws;

pub use batch_examples::{worked_batches, worked_changes, worked_no_batches};
pub use batches::{batch_of, read_batch, write_batch};
pub use laws::{batches_of_changes, one_batch};
