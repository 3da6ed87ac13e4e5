//! The controller with its state in a folder: a command's change is kept there before its reply is given, so that a stop at any
//! moment leaves the state before it or after it. A folder of the first format is migrated when it is opened.
#![tactic(auto)]

mod advancing;
mod compacting;
mod faults;
mod keeper;
mod loading;
mod worked;

pub use faults::KeepFault;
pub use keeper::Kept;
pub use loading::{peek, peek_rows};
pub use worked::{worked_batches, worked_compactions, worked_machine, worked_migrations};
