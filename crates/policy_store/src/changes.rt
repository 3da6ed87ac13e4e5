use crate::records::Policy;
use ctrl_model::Kind;

/// One change of the policies.
#[derive(Drop)]
pub enum PolicyChange {
    /// One more policy.
    Add {
        kind: Kind,
        policy: Policy,
    },
    /// Other parts of a policy, under its name.
    Replace {
        kind: Kind,
        number: u32,
        policy: Policy,
    },
    /// A policy goes.
    Remove {
        kind: Kind,
        number: u32,
    },
}
