//! The commands that show what an identity is granted, which services it may dial, and how many records and grants there are.
#![tactic(auto)]

mod showing;
mod shown_parts;
mod tallying;

pub use showing::shown_by;
pub use shown_parts::Shown;
pub use tallying::{names_of, tallies};
