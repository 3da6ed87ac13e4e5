//! The rows that a slot gives: read record by record, where each batch is a true difference of the rows before it and, in the second
//! format, raises the serial (docs/FORMATS.md, "Batches").
#![tactic(auto)]

mod changing;
mod putting;
mod reading;
mod serials;

pub use changing::{Rows, change_all};
pub use putting::{put_of, puts};
pub use reading::{batch_behind, read_slot};
pub use serials::serial_in;
