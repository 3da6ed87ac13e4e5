//! How a run ends: its status and its notes (docs/FORMATS.md, "Statuses" and "Notes").
#![tactic(auto)]

mod ends;
mod lines;
mod notes;
mod sessions;
mod status;
mod telling;
mod worked;

pub use ends::{Cut, End, Full};
pub use lines::status_line;
pub use notes::{Notes, note_fault, note_lines};
pub use sessions::Sessions;
pub use status::Status;
pub use telling::{tell_cut, tell_cut_behind, tell_damage, tell_ending, tell_full};
pub use worked::{worked_counts, worked_endings, worked_notes, worked_statuses, worked_traces};
