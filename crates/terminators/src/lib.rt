//! The store of terminators: where services are offered, and which of the offers a request may take.
#![tactic(auto)]

mod admitting;
mod after;
mod changes;
mod kept;
mod naming;
mod offers;
mod routers;
mod store;
mod worked;

pub use admitting::{Grants, is_in_service, is_shared};
pub use after::TerminatorsAfter;
pub use changes::TermChange;
pub use offers::{Term, TermView};
pub use routers::{is_connected, router_at};
pub use store::{TermFault, Terminators};
pub use worked::{
    admissible_offers, loads_of_offers, offers_as_they_will_be, offers_by_number,
    whether_an_offer_may_be_added,
};
