//! Rows read: of a key and a value the one row that they spell, or that they spell none (docs/FORMATS.md, "Rows").
#![tactic(auto)]

mod intercepts;
mod laws;
mod lists;
mod lone_fields;
mod naming;
mod row_building;
mod spelling;
mod tables;
mod values;
mod worked_spellings;

pub use laws::one_row;
pub use spelling::read_row;
pub use worked_spellings::{worked_no_rows, worked_no_rows_of_two};
