//! The advice on an identity and a service: what is granted, where a circuit may enter and end, what each policy says, and the first
//! rule that denies it; and its report, one line of JSON.
#![tactic(auto)]

mod advised;
mod advising;
mod entering;
mod laws;
mod marking;
mod offering;
mod reporting;
mod worked;

pub use advised::{Advice, Marked, Marks};
pub use advising::advise;
pub use laws::{policies_with_both_marks_are_counted, the_rule_denies_a_circuit};
pub use reporting::report;
pub use worked::{worked_absent_names, worked_advice, worked_denied_pairs, worked_reports};
