//! The rows of a state and their changes, in definitions; the keys and the fields of rows as bytes (docs/FORMATS.md, "Rows").
#![tactic(auto)]

mod changes;
mod codes;
mod faults;
mod fields;
mod keys;
mod lists;
mod rows;
mod worked;
mod writing;

pub use changes::{Batch, Change, Changes, Op};
pub use codes::{split_flag, split_marks, split_precedence, split_relation, split_semantic};
pub use faults::RowFault;
pub use fields::{
    split_byte, split_count, split_instance, split_long, split_name, split_number, split_part,
    split_short, split_text, split_wide,
};
pub use keys::{record_key, write_key};
pub use lists::{past_each_long, past_names};
pub use rows::Row;
pub use worked::{worked_differences, worked_intercept_values, worked_rows};
pub use writing::{push_count, push_long, push_text, push_wide};
