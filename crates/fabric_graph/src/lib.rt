//! The links of a fabric by name and by number, the least router cost, the graph of the usable links, and the hops over them.
#![tactic(auto)]

mod after;
mod changes;
mod ends;
mod fabric;
mod hopping;
mod links;
mod state_laws;
mod steps;
mod worked;

pub use after::FabricAfter;
pub use changes::LinkChange;
pub use fabric::{Fabric, FabricFault};
pub use hopping::Hop;
pub use links::{LinkRow, LinkView};
pub use state_laws::fabric_of_a_state;
pub use steps::connected_place;
pub use worked::{graph_of_a_line, links_and_numbers, links_as_they_will_be};
