//! What settles after a change of a valid state, by what the change takes away: the links and terminators that go, and the circuits
//! that do not stay as they are.
#![tactic(auto)]

mod endings;
mod falling;

pub use endings::{what_ends_with_a_change, what_ends_with_nothing};
pub use falling::{Fallen, Standing, nothing, settled_by_entity, settled_by_link, settled_by_term};
