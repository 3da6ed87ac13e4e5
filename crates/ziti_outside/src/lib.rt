//! What the controller asks of the world outside: a source of input bytes, and a desk that takes replies and notes and keeps
//! a folder of three parts.
//!
//! The traits say what each call may do and when it may fail. Everything above reaches the world through them alone, so
//! a proof above holds over memory, over files and over whatever else meets them.
#![tactic(auto)]

mod desk;
mod failed;
mod laws;
mod source;

pub use desk::{Desk, Part};
pub use failed::Failed;
pub use laws::{stops_allow_both_ends, worked_examples, worked_stops};
pub use source::Source;
