//! A state as lines of the commands that make the like of it (docs/FORMATS.md, "Lines of a dump").
#![tactic(auto)]

mod dumping;
mod hosting;
mod laws;
mod making;
mod row_making;
mod worked;
mod writing;

pub use dumping::dump;
pub use laws::{ends_are_found_by_name, records_are_made};
pub use worked::{worked_dumps, worked_frames, worked_remarks, worked_sections};
