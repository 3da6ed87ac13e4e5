//! Rows written: each row under its key in one spelling, and the changes of the rows of any kind's records (docs/FORMATS.md, "Rows").
#![tactic(auto)]

mod changing;
mod intercepts;
mod record_rows;
mod spelling;
mod values;
mod worked_spellings;
mod writing;

pub use changing::{change_of, next_change, serial_change, setting_change, value_of};
pub use record_rows::{ChangedRows, row_change, touched_changes};
pub use spelling::write_row;
pub use worked_spellings::{
    worked_more_row_spellings, worked_record_changes, worked_row_spellings, worked_rows_of_two,
};
