use thiserror::Error;

/// Why a row is none of a valid state.
#[derive(Clone, Copy, Debug, PartialEq, Eq, Error)]
pub enum Flaw {
    /// It is no row, or a value of it is out of its range.
    #[error("the row reads no record")]
    NoRecord,
    /// Its key does not come after those before it, or its number is not below the next number of its kind.
    #[error("the order of numbers is broken")]
    OutOfOrder,
    /// A record of its kind has its name.
    #[error("the name is there twice")]
    NameTaken,
    /// What it names or stands on is absent.
    #[error("a reference hangs")]
    Hanging,
    /// A circuit that would not stay.
    #[error("the circuit would not stay")]
    Unsettled,
    /// Its kind, or attributes, would be more than may be.
    #[error("a limit is passed")]
    TooMany,
    /// It is not the count that the policies give, or such a count has no row.
    #[error("the count is not what the policies give")]
    WrongCount,
}
