use crate::links::LinkRow;
use ctrl_model::LinkNo;

/// One change of the links or of the least router cost.
#[derive(Drop)]
pub enum LinkChange {
    /// One more link.
    Add(LinkRow),
    /// Another cost, other latencies of the two ends, and whether a link is up.
    Set {
        no: LinkNo,
        cost: u32,
        latency_a: u32,
        latency_b: u32,
        up: bool,
    },
    /// A link goes.
    Remove(LinkNo),
    /// Another least cost of entering a router.
    SetLeast(u32),
}
