//! What the commands of a dump do where they are answered one after the other, from the start on, and what its lines are read as.
#![tactic(auto)]

mod laws;
mod worked;

pub use laws::{a_dump_is_read_back, a_dump_makes_the_like};
pub use worked::worked_said_dumps;
