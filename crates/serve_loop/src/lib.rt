//! The serving loop: takes an input in pieces, has each whole frame answered, says the replies and notes how the run ended, whoever answers.
#![tactic(auto)]

mod answering;
mod pieces;
mod running;
mod serving;

pub use answering::AnswersFrames;
pub use running::run_on;
