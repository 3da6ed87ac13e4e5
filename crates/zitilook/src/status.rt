ghost use Rattle.std.specs.Prelude.{◌≡◌};
ghost use Rattle.zitilook.specs.Statuses.{number_of};

/// How a run ended (docs/FORMATS.md, "The words of zitilook").
#[derive(Clone, Copy, Debug, PartialEq, Eq)]
pub enum Status {
    /// All that was asked for was said.
    Done,
    /// The words are no line of the table of words.
    Usage,
    /// All that was asked for was said, and something is wrong with the folder.
    Found,
    /// The words name a kind or a record that there is not, or are no names; or a line of the input says no frame.
    Unknown,
    /// Two folders differ, or the commands of the input change something, and that was said.
    Differs,
    /// A command of the input is refused, and the plan was said.
    Refused,
    /// The input failed.
    ReadFault,
    /// The desk failed to take what was said.
    WriteFault,
    /// A call on the disk failed.
    DiskFault,
    /// The folder opens to no state.
    Damaged,
    /// There is no memory.
    NoMemory,
}

impl Status {
    /// The number with which the program ends.
    pub fn number(&self) -> u8
        ensures { result ≡ number_of self.now }
    {
        match self {
            Status::Done => 0,
            Status::Usage => 1,
            Status::Found => 2,
            Status::Unknown | Status::Differs => 2,
            Status::Refused => 3,
            Status::ReadFault => 4,
            Status::WriteFault => 5,
            Status::DiskFault => 6,
            Status::Damaged => 7,
            Status::NoMemory => 8,
        }
    }
}
