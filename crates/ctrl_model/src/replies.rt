use crate::claims::Explanation;
use crate::items::{Copies, Items};
use crate::numbering::{CircuitNo, Numbers, TermNo};
use crate::refusals::Refusal;
use crate::texts::{Bytes, Name, Names};
use std::alloc::AllocError;

/// A name and how many policies grant it.
#[derive(Drop)]
pub struct Tally {
    pub name: Name,
    pub count: u32,
}

impl Copies for Tally {
    fn copy(&self) -> Result<Tally, AllocError> {
        let name = self.name.copy()?;
        Ok(Tally {
            name,
            count: self.count,
        })
    }
}

/// A list of tallies.
pub type Tallies = Items<Tally>;

/// The reply to a command (docs/FORMATS.md, "Replies").
#[derive(Drop)]
pub enum Reply {
    /// To Hello.
    Empty,
    /// The command was carried out, and there is nothing to show.
    Done,
    /// A record was made, with this number within its kind.
    Made {
        no: u32,
    },
    /// A circuit was granted.
    Circuit {
        circuit: CircuitNo,
        ingress: Name,
        links: Numbers,
        terminator: TermNo,
        total: u32,
    },
    /// The route that a circuit would get, with what shows that it is the least.
    Explained {
        ingress: Name,
        claim: Explanation,
    },
    /// Whether a claimed route is certified.
    Verified {
        certified: bool,
    },
    /// The services that an identity may dial.
    Services {
        names: Names,
    },
    /// What an identity is granted, each with its count.
    Grants {
        bind: Tallies,
        dial: Tallies,
        routers: Tallies,
    },
    /// A circuit.
    Shown {
        identity: Name,
        ingress: Name,
        links: Numbers,
        service: Name,
        terminator: TermNo,
    },
    /// How many there are of each kind, and of granted pairs.
    Counts {
        circuits: u32,
        grants: u64,
        identities: u32,
        links: u32,
        policies: u32,
        routers: u32,
        services: u32,
        terminators: u32,
    },
    /// The service that a destination belongs to, with the address and the ports of its intercept that say so.
    Picked {
        address: Bytes,
        low: u32,
        high: u32,
        service: Name,
    },
    /// The services that claim what a service claims.
    Clashes {
        names: Names,
    },
    /// The command was refused, and nothing changed.
    Refused(Refusal),
}
