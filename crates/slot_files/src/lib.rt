//! The slots of the folder: which one the mark names, and the folder opened or created (docs/FORMATS.md, "The mark").
#![tactic(auto)]

mod faults;
mod laws;
mod opening;
mod standing;
mod switching;
mod worked;

pub use faults::SlotFault;
pub use laws::{one_standing, standing_goes_on};
pub use opening::open;
pub use standing::{Standing, peek};
pub use switching::switch;
pub use worked::{worked_folders, worked_switches};
