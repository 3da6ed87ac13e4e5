//! The records and the intercepts of a state as lines that people read (docs/FORMATS.md, "Lines of records").
#![tactic(auto)]

mod circuit_putting;
mod intercept_putting;
mod laws;
mod listing;
mod naming;
mod record_putting;
mod word_putting;
mod worked;

pub use laws::fields_are_the_body;
pub use listing::{Listed, is_of, list, show};
pub use naming::name_of;
pub use record_putting::put_row;
pub use worked::{worked_intercepts, worked_lists, worked_shows};
