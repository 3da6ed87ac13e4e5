//! Frames and tagged replies told as lines while they come (docs/FORMATS.md, "Lines as they come").
#![tactic(auto)]

mod exchanges;
mod kinds;
mod laws;
mod watching;
mod worked;

pub use exchanges::Exchange;
pub use kinds::Kind;
pub use laws::each_line_comes_in_time;
pub use watching::{Cut, tell_live};
pub use worked::worked_pieces;
