//! The stores of a core, a change of one family, the record that a row says and a change adds, the next numbers, the setting and the intercepts after
//! it, the serial that is kept with it, the loads of terminators, and the steps that counts take.
#![tactic(auto)]

mod adding;
mod change_parts;
mod changes;
mod claims;
mod loads;
mod new_records;
mod next_rows;
mod said_records;
mod serials;
mod settled;
mod skipping;
mod stepping;
mod stores;

pub use adding::{KINDS, forgotten};
pub use changes::{
    Change, Draft, circuit_change, entity_change, intercept_change, link_change, policy_change,
    term_change,
};
pub use claims::{claim_gone, forget_claim};
pub use loads::{Loads, count_loads, loads_after};
pub use new_records::{NewRecord, new_in};
pub use next_rows::{least_change, next_changes};
pub use serials::with_serial;
pub use settled::{Settled, take_out};
pub use skipping::skip;
pub use stepping::apply_steps;
pub use stores::{Grants, Stores};
