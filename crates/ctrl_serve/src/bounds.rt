/// The bounds of a run, in bytes.
#[derive(Clone, Copy, PartialEq, Eq)]
pub struct Bounds {
    /// How much of the input is used: 0 to 2^32.
    pub input: u64,
    /// How long a slot of the journal may grow: 64 to 2^30.
    pub slot: u64,
    /// How long the mark may grow: 1 to 2^20.
    pub mark: u64,
}

impl Bounds {
    /// The bounds of the program: 2^32 bytes of input, 2^30 of a slot and 2^20 of the mark.
    pub const PROGRAM: Bounds = Bounds {
        input: 4_294_967_296,
        slot: 1_073_741_824,
        mark: 1_048_576,
    };
}
