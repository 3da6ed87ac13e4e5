//! Commands as the bodies of frames, written: the one body that is written for a command reads back as the command.
#![tactic(auto)]

mod content_types;
mod families;
mod field_values;
mod item_values;
mod listing;
mod putting;
mod spelling;
mod worked;
mod writing;

pub use content_types::content_of;
pub use worked::{
    worked_circuits, worked_claims, worked_entities, worked_intercepts, worked_links,
    worked_policies, worked_sides, worked_terminators,
};
pub use writing::write;
