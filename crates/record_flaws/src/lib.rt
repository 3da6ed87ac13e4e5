//! Why a record cannot join a state that stores keep: what is told of it alone, and beside entities, links, terminators and
//! intercepts.
#![tactic(auto)]

mod claims;
mod coming;
mod entities;
mod links;
mod soundness;
mod terms;
mod worked;

pub use claims::{claim_flaw, serial_flaw};
pub use coming::{Coming, Findings};
pub use entities::{plain_flaw, router_flaw};
pub use links::link_flaw;
pub use soundness::is_sound_row;
pub use terms::term_flaw;
pub use worked::worked_flaws;
