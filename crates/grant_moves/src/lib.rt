//! Laws of what a change of an entity or of a policy does to the counts of grants: which steps lead from the counts before it to the counts after it.
#![tactic(auto)]

mod laws;
mod worked;

pub use laws::{
    counts_have_room, entity_changes_lead, forgotten_names_leave_counts, granted_pairs_are_counts,
    leads_to_equal_counts, policies_bound_counts, policy_changes_lead, rows_of_two_sides,
    unchanged_counts_lead,
};
pub use worked::{
    a_policy_and_its_product, an_entity_and_its_turns, changes_of_two_policies, sides_of_relations,
};
