//! Examples of runs and of words, worked by hand or taken from no program, which the checker computes.
#![tactic(auto)]

mod worked;

pub use worked::{
    worked_answers, worked_circuits, worked_counts, worked_following, worked_networks,
    worked_numbers, worked_policies, worked_readings, worked_runs, worked_sessions, worked_stops,
    worked_uncompacted, worked_words,
};
