//! Which circuits stay beside the entities, links and terminators, by what granted them and by their path; over which links others go
//! on; and the changes of the rows of circuits.
#![tactic(auto)]

mod alone;
mod counting;
mod emptying;
mod going;
mod granting;
mod judging;
mod laws;
mod looking;
mod paths;
mod rerouting;
mod rows;
mod settling;
mod staying;
mod worked;

pub use alone::{stays_here, would_stay};
pub use counting::grants_after;
pub use emptying::{Pairs, emptied_pairs, has_no_pair};
pub use going::{Remaining, going_after, judged, remaining_of};
pub use granting::{GrantsAfter, is_granted};
pub use judging::{Judged, judge};
pub use laws::{as_a_state_settles, what_becomes_of_circuits, where_circuits_differ};
pub use looking::{Look, goes_none, going_by, looked_at};
pub use rerouting::{least_path, search_of};
pub use rows::circuit_changes;
pub use settling::{going_among, revoked_among, settle};
pub use staying::Present;
pub use worked::{circuits_on_a_line, circuits_that_go_on};
