//! Generated loads: the frames that a number stands for, drawn from a generator of random numbers.
#![tactic(auto)]

mod drawing;
mod groups;
mod making;
mod naming;
mod worked;

pub use making::make;
pub use worked::{how_many_frames, worked_commands, worked_frames, worked_words};
