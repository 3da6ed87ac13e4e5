ghost use Rattle.std.specs.Prelude.{◌≡◌};
ghost use Rattle.run_notes.specs.Statuses.{number_of};

/// How a run ended (docs/FORMATS.md, "Statuses").
#[derive(Clone, Copy, Debug, PartialEq, Eq)]
pub enum Status {
    /// All was done: an input was read to its end and every frame answered.
    Done,
    /// The words are not in the table of words.
    Usage,
    /// The input is no row of frames.
    BadInput,
    /// The input ends within a frame.
    Truncated,
    /// The source failed.
    ReadFault,
    /// The desk failed to take a reply or a line.
    WriteFault,
    /// The folder's disk failed.
    DiskFault,
    /// The folder stands for no state.
    Damaged,
    /// There is no memory.
    NoMemory,
    /// The input has more bytes than are used.
    InputTooLong,
    /// The folder cannot be compacted within its bounds.
    FolderFull,
}

impl Status {
    /// The number with which the program ends.
    pub fn number(&self) -> u8
        ensures { result ≡ number_of self.now }
    {
        match self {
            Status::Done => 0,
            Status::Usage => 1,
            Status::BadInput => 2,
            Status::Truncated => 3,
            Status::ReadFault => 4,
            Status::WriteFault => 5,
            Status::DiskFault => 6,
            Status::Damaged => 7,
            Status::NoMemory => 8,
            Status::InputTooLong => 9,
            Status::FolderFull => 10,
        }
    }
}
