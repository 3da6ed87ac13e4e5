//! The map of rows that the folder keeps: opened from batches that are true differences, and changed by one batch at a time so that
//! a stop at any moment leaves the rows before it or after it (docs/FORMATS.md, "Damage").
#![tactic(auto)]

mod bounds;
mod committing;
mod compacting;
mod faults;
mod laws;
mod moving;
mod opening;
mod scanning;
mod sizing;
mod store;
mod worked;
mod writing;

pub use bounds::StoreBounds;
pub use faults::StoreFault;
pub use laws::{one_opening, one_state, opened_states, own_store, reading_stands};
pub use store::Store;
pub use worked::{
    worked_commands, worked_commits, worked_compactions, worked_damage, worked_folders,
    worked_rows, worked_serials,
};
