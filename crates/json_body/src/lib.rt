//! The fields of a JSON object, read by kind, each fault with its field.
#![tactic(auto)]

mod fields;
mod key_words;
mod value_kinds;
mod worked;

pub use fields::{FieldFault, Fields};
pub use value_kinds::{as_list_of, as_name, as_number_in, is_name};
pub use worked::{worked_faults, worked_kinds};
