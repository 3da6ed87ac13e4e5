//! The store of granted circuits, and what commands change in it.
#![tactic(auto)]

mod after;
mod applying;
mod changes;
mod ends;
mod grants;
mod losses;
mod moves;
mod store;
mod worked;

pub use after::CircuitsAfter;
pub use applying::apply_circuit_change;
pub use changes::CircuitChange;
pub use grants::{Circuit, CircuitView};
pub use losses::Loss;
pub use moves::{Move, Moves};
pub use store::{CircuitFault, Circuits};
pub use worked::{
    circuits_as_they_will_be, circuits_by_number, circuits_that_are_moved,
    numbers_that_are_given_links,
};
