//! What tests of whole runs share: frames of requests and replies, laid out by hand, rows of them as text, parts by name, two examples, a small network
//! and a realistic one, folders by their parts, sources and desks over memory, and files of the system that record what is asked of them.
#![tactic(auto)]

mod desks;
mod examples;
mod frames;
mod how;
mod models;
mod networks;
mod parts;
mod recording;
mod repeating;
mod slots;
mod talks;
mod wide;

pub use desks::{desk_of, parts_in, parts_of, source_of, words_of};
pub use frames::{ANN, MADE, push_reply, push_request};
pub use how::How;
pub use models::model;
pub use parts::{bytes_of, folder_of, notes_of};
pub use recording::{Asked, Calls, NONE_FAILS, Name, Recorded, RecordedFile, Spoken};
pub use slots::{ANN_ALONE, ANN_SLOT, BOTH, BOTH_ONCE, BOTH_SLOT, FIRST, NOTHING, OLD_ANN, SECOND};
pub use talks::Talk;
pub use wide::wide_folder;
