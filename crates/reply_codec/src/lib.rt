//! Replies as frames: the body of each reply and refusal as compact JSON, with its two headers. Names, numbers and the numbers of
//! denials in JSON are written for others too.
#![tactic(auto)]

mod lists;
mod members;
mod refusal_bodies;
mod reply_bodies;
mod spelled;
mod words;
mod worked;
mod writing;

pub use lists::{name_value, numbers_value};
pub use refusal_bodies::denial_number;
pub use worked::{
    worked_bodies, worked_denials, worked_explanations, worked_frame, worked_limits,
    worked_limits_of_explanations, worked_lists, worked_plain_refusals, worked_refusals,
};
pub use writing::{write, write_behind};
