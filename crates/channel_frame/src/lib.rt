//! One frame of a channel: its bytes, read and written (docs/FORMATS.md, "Channel frame").
#![tactic(auto)]

mod decoding;
mod encoding;
mod frames;
mod fronts;
mod laws;
mod lookups;
mod worked;

pub use decoding::{read_frame, read_frame_with, read_head};
pub use encoding::{encode, encode_behind};
pub use frames::{
    Frame, FrameFault, Frames, Front, Head, Header, Headers, LONGEST_BODY, LONGEST_HEADERS,
};
pub use fronts::{front_of, front_with, head_at_front};
pub use laws::{kinds_of_tails, one_reading, one_spelling, what_stands};
pub use lookups::last_of;
pub use worked::{
    worked_faults, worked_heads, worked_kinds, worked_lookups, worked_readings, worked_spellings,
    worked_unfinished,
};
