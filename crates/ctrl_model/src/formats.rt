use crate::items::Copies;
use std::alloc::AllocError;

/// The format of a folder: of its rows, and of the slots that keep them (docs/FORMATS.md, "Rows"). A folder of the first one
/// keeps no intercepts and no serial.
#[derive(Clone, Copy, PartialEq, Eq)]
pub enum Format {
    One,
    Two,
}

impl Copies for Format {
    fn copy(&self) -> Result<Format, AllocError> {
        Ok(*self)
    }
}
