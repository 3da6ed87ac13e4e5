//! Replays over a folder in memory, by the call that the program makes. Their contracts are equalities: nothing in them hangs on what the
//! outside tells, and want of memory or of room is the one answer without a cause.
#![tactic(auto)]

mod desks;
mod given;
mod laws;
mod replays;
#[cfg(test)]
mod tests;

pub use laws::{a_folder_opens_to_one_machine, worked_replays};
pub use replays::{Replayed, replay_from_nothing, replay_in_memory, replay_on, stop_in_memory};
