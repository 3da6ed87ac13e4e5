//! Who may send a command: an admin every one, a router or an identity session what concerns it alone.
#![tactic(auto)]

mod permits;
mod worked;

pub use permits::permitted;
pub use worked::{worked_everyone, worked_hosts, worked_identities, worked_others, worked_routers};
