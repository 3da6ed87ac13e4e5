/// Where kept records are sought: behind the gate at a place, before which stands the record of a serial.
#[derive(Clone, Copy, PartialEq, Eq)]
pub struct Sought {
    /// The serial of the first record.
    pub first: u64,
    /// The place of the gate behind the first record.
    pub second: u64,
    /// The place of a gate.
    pub at: u64,
    /// The serial of the record before it.
    pub serial: u64,
}
