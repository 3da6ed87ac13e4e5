//! Each reply beside its request, and the number of the request's line (docs/FORMATS.md, "Answers").
#![tactic(auto)]

mod answering;
mod finding;
mod laws;
mod pairing;
mod parting;
mod replies;
mod worked;

pub use answering::{AnswerFault, Answered, answers};
pub use laws::{requests_are_those_of_encode, what_decode_tells_is_a_reply};
pub use replies::ReplyLine;
pub use worked::{worked_answers, worked_faults, worked_replies};
