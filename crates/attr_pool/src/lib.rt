//! The numbers of the attributes in use: a slot for each, and a row of bits for a list of them.
#![tactic(auto)]

mod chains;
mod kept_slots;
mod names;
mod pool;
mod room;
mod rows;
mod slots;
mod uses;
mod worked;

pub use pool::{Pool, PoolFault};
pub use rows::{Row, WORDS};
pub use worked::{worked_attribute_rows, worked_keeping, worked_row, worked_slots, worked_uses};
