//! Ships a folder as frames: what it keeps from a serial on, record by record, for a copy that follows it (docs/FORMATS.md, "Ship frames").
#![tactic(auto)]

mod faults;
mod judging;
mod laws;
mod records;
mod saying;
mod shipping;
mod worked;

pub use faults::ShipFault;
pub use laws::{
    old_folders_ship_their_state, serials_follow, shipped_frames_are_read_again,
    shipped_leads_to_the_rows,
};
pub use shipping::ship;
pub use worked::{worked_old_shipments, worked_shipments};
