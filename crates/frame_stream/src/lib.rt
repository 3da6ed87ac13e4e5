//! The frames of one session, whose bytes come in pieces (docs/FORMATS.md, "Channel frame").
#![tactic(auto)]

mod buffers;
mod decoders;
mod faults;
mod laws;
mod worked;

pub use buffers::Buffer;
pub use decoders::Decoder;
pub use faults::StreamFault;
pub use laws::{any_calls, any_cut, what_is_left};
pub use worked::{worked_fault, worked_numbers, worked_pieces};
