//! Rows of bits in words of 64: whether a row has each bit or some bit of another. And columns of numbers: whether an
//! inequality holds at each place.
#![tactic(auto)]

mod all_bits;
mod any_bits;
mod place_tests;
mod rows;
mod sweeps;
mod worked;

pub use all_bits::all_in;
pub use any_bits::any_in;
pub use rows::match_rows;
pub use sweeps::sweep;
pub use worked::{worked_bits, worked_columns, worked_rows};
