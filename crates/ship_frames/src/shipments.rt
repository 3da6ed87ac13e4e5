use ctrl_model::Bytes;

/// To which rows a batch is applied.
#[derive(Clone, Copy, PartialEq, Eq)]
pub enum Sort {
    /// To no rows: the batch has all of them.
    Whole,
    /// To the rows of the serial before its own.
    Next,
}

/// A batch as it is shipped: its sort, the serial of the rows after it, and its bytes.
#[derive(Drop)]
pub struct Shipment {
    pub sort: Sort,
    pub serial: u64,
    pub bytes: Bytes,
}
