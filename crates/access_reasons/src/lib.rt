//! Why an identity can or cannot reach a service, and who can reach one: a finding for each rule of a circuit request, with what meets it
//! or fails it by name, and its line of text.
#![tactic(auto)]

mod dialing;
mod ending;
mod entering;
mod findings;
mod laws;
mod lending;
mod naming;
mod reasoning;
mod searching;
mod telling;
mod viewing;
mod worked;

pub use dialing::who;
pub use findings::{Finding, Findings, Part, Sides, Standing};
pub use laws::{admissible_terminators_are_in_service, the_first_failing_finding_denies};
pub use lending::Stores;
pub use reasoning::why;
pub use telling::lines;
pub use worked::{
    worked_absence, worked_broken_ways, worked_dialers, worked_missing_grants, worked_reach,
};
