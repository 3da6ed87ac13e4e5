//! What is wrong with the files of a folder, and the way back: headers, whole records and the gates at which they end, the records that a
//! closed gate hides, a lost mark, and what stands at the place of the damage (docs/FORMATS.md, "Findings of a folder").
#![tactic(auto)]

mod causes;
mod finding;
mod judging;
mod laws;
mod spans;
mod telling;
mod worked;

pub use causes::{Cause, Verdict, cause_at};
pub use finding::{FoundFiles, FoundSlot, find_files, find_slot};
pub use judging::is_well;
pub use laws::{a_byte_leads_back, slots_are_found};
pub use spans::{Gate, Span};
pub use telling::lines;
pub use worked::{worked_files, worked_findings, worked_lines, worked_slots};
