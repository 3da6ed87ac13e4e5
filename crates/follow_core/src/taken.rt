/// What became of a frame that was shipped.
#[derive(Clone, Copy, PartialEq, Eq)]
pub enum Taken {
    /// The batch was kept: the copy has the rows after it.
    Took,
    /// The batch is kept already.
    Repeat,
    /// The batch comes no later than the last one that was taken, and is kept no more.
    Old,
    /// The frame is a piece of a batch of which pieces are wanting.
    Piece,
    /// The frame is a piece that goes on with no batch in parts.
    Skipped,
    /// The batch leads on from rows that the copy has not.
    Ahead,
    /// The frame is no piece of a batch.
    BadShip,
    /// The batch leads to no state of its serial.
    BadBatch,
    /// Another batch of this sort and serial is kept.
    Differs {
        /// The serial of the rows after it.
        serial: u64,
        /// The first place at which the two differ, or where the shorter one ends.
        at: u32,
    },
    /// The slot has no room for the batch.
    Full,
    /// The mark has no room for a byte.
    MarkFull,
}
