//! What a circuit request is answered: the least route, or the first rule that fails; the explanation of a route; whether a
//! claimed route is justified; and the commands on circuits, planned.
#![tactic(auto)]

mod beating;
mod circuit_asking;
mod circuit_names;
mod circuit_parts;
mod circuit_planning;
mod deciding;
mod explaining;
mod ingresses;
mod numbers;
mod offers;
mod places;
mod reaching;
mod settling;
mod tight;
mod values;
mod verifying;
mod views;

pub use circuit_parts::Parts;
pub use circuit_planning::plan_circuit_command;
pub use deciding::decide;
pub use explaining::explain;
pub use verifying::verify;
pub use views::{Ask, DecideFault, Route, View, Wanted};
