//! Choices, apart from where they are found: which rule of a request fails first, which terminators a precedence has, which choice
//! of an ingress and a terminator comes first, and whether a claimed total is right.
#![tactic(auto)]

mod choosing;
mod denying;
mod precedences;
mod totals;

pub use choosing::{Choice, Entry, Exit, first_of_all};
pub use denying::first_denial;
pub use precedences::{exits_at, place_of};
pub use totals::{is_at_most, is_total};
