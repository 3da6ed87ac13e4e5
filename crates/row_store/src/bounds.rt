/// How many bytes the parts of a folder may have.
#[derive(Clone, Copy, PartialEq, Eq)]
pub struct StoreBounds {
    /// Of a slot: 64 to 2^30.
    pub slot: u64,
    /// Of the mark: 1 to 2^20.
    pub mark: u64,
}
