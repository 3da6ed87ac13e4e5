//! The store of the three kinds of policies: by name and by number; what a change of them is, and the lists of steps that grant
//! counts take.
#![tactic(auto)]

mod changes;
mod copying;
mod counting;
mod naming;
mod policies;
mod records;
mod steps;
mod worked;

pub use changes::PolicyChange;
pub use copying::{copy_policy, policy_of};
pub use counting::count_all_policies;
pub use naming::policy_names;
pub use policies::{Policies, PolicyFault};
pub use records::{Hand, Policy, forget_on_side};
pub use steps::GrantSteps;
pub use worked::{
    changes_of_policies, names_and_numbers_of_policies, replaced_and_forgotten,
    sides_and_relations, steps_that_rise,
};
