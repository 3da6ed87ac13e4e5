//! The words of the controller: names and lists of them, commands, replies and refusals, and the definitions of what the
//! controller is. Every other crate cites these definitions, so they are what a reader must believe.
#![tactic(auto)]

mod addresses;
mod claims;
mod commands;
mod formats;
mod intercepts;
mod items;
mod kinds;
mod limits;
mod numbering;
mod refusals;
mod replies;
mod texts;
mod value_kinds;

pub use addresses::{Address, AddressFault, Addresses};
pub use claims::{Explanation, Potentials, Reach, Reaches};
pub use commands::Command;
pub use formats::Format;
pub use intercepts::{Intercept, PortRange, PortRanges, ProtocolSet};
pub use items::{Copies, Items};
pub use kinds::{Kind, Precedence, Relation, Role, RouterSeen, Semantic, Side, Who};
pub use limits::{
    LAST_SERIAL, LONGEST_HOST, LONGEST_LABEL, LONGEST_NAME, LONGEST_PATH, MOST_ATTRIBUTES,
    MOST_BITS, MOST_CLAIMED, MOST_COST, MOST_ENTRIES, MOST_LATENCY, MOST_PORT, MOST_ROUTERS, limit,
};
pub use numbering::{
    CircuitNo, IdentityNo, LinkNo, Numbers, PolicyNo, RouterNo, ServiceNo, TermNo,
};
pub use refusals::{Denial, Field, Reason, Refusal};
pub use replies::{Reply, Tallies, Tally};
pub use texts::{Bytes, Instance, Name, NameFault, Names};
pub use value_kinds::ValueKind;
