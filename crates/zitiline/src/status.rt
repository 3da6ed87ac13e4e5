ghost use Rattle.std.specs.Prelude.{◌≡◌};
ghost use Rattle.zitiline.specs.Statuses.{number_of};

/// How a run ended (docs/FORMATS.md, "The words of zitiline").
#[derive(Clone, Copy, Debug, PartialEq, Eq)]
pub enum Status {
    /// The input was read to its end, and all of it said.
    Done,
    /// A request is refused or unanswered, or a reply is to no request. All was said.
    Refused,
    /// The words are none of the eight.
    Usage,
    /// A line is at fault, or no line tells a frame.
    BadInput,
    /// The source failed.
    ReadFault,
    /// The desk failed to take what was said.
    WriteFault,
    /// There is no memory.
    NoMemory,
}

impl Status {
    /// The number with which the program ends.
    pub fn number(&self) -> u8
        ensures { result ≡ number_of self.now }
    {
        match self {
            Status::Done => 0,
            Status::Usage => 1,
            Status::BadInput => 2,
            Status::Refused => 3,
            Status::ReadFault => 4,
            Status::WriteFault => 5,
            Status::NoMemory => 8,
        }
    }
}
