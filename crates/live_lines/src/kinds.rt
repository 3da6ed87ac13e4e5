/// What bytes are, of which lines are told.
#[derive(Clone, Copy, PartialEq, Eq)]
pub enum Kind {
    /// Frames.
    Frames,
    /// Tagged replies.
    Replies,
}
