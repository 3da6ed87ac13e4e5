use crate::grants::Circuit;
use ctrl_model::CircuitNo;

/// One change of the circuits.
#[derive(Drop)]
pub enum CircuitChange {
    /// One more circuit.
    Add(Circuit),
    /// A circuit goes.
    Remove(CircuitNo),
}
