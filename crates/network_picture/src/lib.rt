//! A state as a picture in the language of Mermaid (docs/FORMATS.md, "Pictures").
#![tactic(auto)]

mod drawing;
mod picturing;
mod worked;

pub use picturing::{picture, picture_asked};
pub use worked::{worked_marks, worked_pictures};
