//! Traces of many sessions as lines of text, and tagged replies as lines (docs/FORMATS.md, "Lines of traces").
#![tactic(auto)]

mod cutting;
mod fronts;
mod laws;
mod reading;
mod records;
mod said;
mod seats;
mod telling;
mod tracing;
mod turning;
mod worked;

pub use laws::{each_session_sends_its_frames, what_is_traced_reads_back};
pub use said::{Said, TraceCause, TraceFault, TraceLine};
pub use telling::{Replies, tell_replies};
pub use tracing::{Traced, trace};
pub use worked::{worked_lines, worked_replies, worked_roles, worked_trace};
