//! One slot of the journal: records behind gates, appended so that a stop at any moment leaves a slot with or without the last
//! one (docs/FORMATS.md, "Slots").
#![tactic(auto)]

mod appending;
mod faults;
mod laws;
mod packing;
mod reading;
mod worked;

pub use appending::{append, put_down};
pub use faults::JournalFault;
pub use laws::{one_reading, reading_goes_on, room_is_kept, stands_through_stops};
pub use packing::{HEADER_LEN, Packed, empty_slot, header};
pub use reading::next_record;
pub use worked::{worked_appends, worked_desks, worked_places, worked_room, worked_slots};
