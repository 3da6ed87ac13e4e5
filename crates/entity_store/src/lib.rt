//! The store of identities, services and edge routers: by name and by number, with the uses of attributes and their rows of bits.
#![tactic(auto)]

mod after;
mod changed_routers;
mod changes;
mod entities;
mod held_names;
mod kind_rows;
mod kind_tables;
mod listing;
mod records;
mod turns;
mod worked;

pub use after::EntitiesAfter;
pub use changes::EntityChange;
pub use entities::{Entities, EntityFault};
pub use kind_rows::Lanes;
pub use records::{EntityView, RouterView};
pub use worked::{attributes_in_use, names_and_numbers};
