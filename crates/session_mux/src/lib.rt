//! Many sessions in one input (docs/FORMATS.md, "Traces and tagged replies").
#![tactic(auto)]

mod events;
mod laws;
mod muxing;
mod records;
mod sessions;
mod tables;
mod worked;

pub use events::{Event, MuxFault};
pub use laws::{completed_by, fault_is_last, one_reading};
pub use muxing::Mux;
pub use sessions::Form;
pub use worked::{
    worked_bad_records, worked_fault, worked_interleaving, worked_memory, worked_met,
    worked_session, worked_tails,
};
