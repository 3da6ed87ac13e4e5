//! Frames as lines of text that people can write and read (docs/FORMATS.md, "Lines for people").
#![tactic(auto)]

mod checking;
mod cutting;
mod decoding;
mod encoding;
mod frames;
mod kinds;
mod laws;
mod lines;
mod nearness;
mod reading;
mod telling;
mod told;
mod types;
mod words;
mod worked;

pub use checking::{Checked, check};
pub use cutting::{cut_line, cut_word};
pub use decoding::{Decoded, LineTelling, decode, tell_all};
pub use encoding::{Encoded, encode, put_frame};
pub use frames::{Frames, turn_by};
pub use kinds::{LineKind, Turn};
pub use laws::{
    each_fault_is_told_by_its_line, faultless_where_each_line_says,
    replies_are_told_by_their_requests, what_is_said_is_told_in_full, what_is_told_is_said_again,
};
pub use lines::{Line, LineCause, LineFault, line_words};
pub use reading::{passes, read_line};
pub use telling::put_line;
pub use told::{DecodeCause, DecodeFault, TellCause};
pub use types::name_numbered;
pub use words::number_in;
pub use worked::{
    worked_checks, worked_cuts, worked_frames, worked_lines, worked_tellings, worked_text,
    worked_types,
};
