//! The store of the intercepts of services: which service a destination belongs to, and which services clash. What a change makes of
//! them.
#![tactic(auto)]

mod changes;
mod clashing;
mod hits;
mod laws;
mod nearness;
mod store;
mod worked;

pub use changes::InterceptChange;
pub use hits::Picked;
pub use laws::{mutual_clashes, no_order_of_services};
pub use store::Intercepts;
pub use worked::{intercepts_by_service, services_that_are_picked, services_that_clash};
