//! Tables of records: the records of one kind under their numbers, which rise and are never used again, and the number of the
//! next one. A table is generic in its records. One kind finds them by name too.
#![tactic(auto)]

mod entries;
mod named_tables;
mod number_lists;
mod numbered_tables;
mod removing;
mod touching;
mod turns;
mod worked;

pub use entries::{Entries, Named};
pub use named_tables::NamedTable;
pub use number_lists::{is_among, left_of, turned};
pub use numbered_tables::NumberedTable;
pub use touching::{kept_are_not_gone, numbers_are_touched, touched, unless_gone};
pub use turns::{RecordChange, Turn, changed_number, record_after};
pub use worked::{records_at_places, tables_as_they_will_be};
