//! Worked examples of bodies: the command that each spells, or the first cause why it spells none.
#![tactic(auto)]

mod worked;

pub use worked::{
    worked_bodies, worked_causes, worked_circuits, worked_claims, worked_first_causes,
    worked_intercept_causes, worked_intercepts, worked_links, worked_lists, worked_policies,
    worked_policy_causes, worked_shows, worked_sides, worked_spelled, worked_terminators,
};
