/// The content type of the pieces of a batch that is applied to no rows.
pub const WHOLE: u32 = 1900;

/// The content type of the pieces of a batch that is applied to the rows of the serial before its own.
pub const NEXT: u32 = 1901;

/// How many bytes a piece has, but for the last one of a batch.
pub(crate) const PIECE: usize = 1_048_576;

/// How many pieces a batch may have.
pub(crate) const MOST_PIECES: u32 = 1_024;

/// The key of the header of the serial.
pub(crate) const SERIAL: u32 = 1000;

/// The key of the header of a piece's number.
pub(crate) const NUMBER: u32 = 1001;

/// The key of the header of the count of pieces.
pub(crate) const COUNT: u32 = 1002;
