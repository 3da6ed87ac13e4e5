//! Counted pairs: how many policies grant each pair, kept as a map, and the steps by which a change moves the counts.
#![tactic(auto)]

mod after;
mod applying;
mod counts;
mod deltas;
mod laws;
mod rows;
mod worked;

pub use after::CountedAfter;
pub use applying::apply_changes;
pub use counts::Counted;
pub use deltas::{Cross, Delta, Turn, deltas_entity, deltas_policy};
pub use laws::{applied_deltas, one_list_of_counts, steps_of_a_policy};
pub use worked::{
    a_policy_that_moves, a_raise_and_a_lower, an_entity_on_a_side, counts_after_some_steps,
    counts_of_two_pairs, repeated_members,
};
