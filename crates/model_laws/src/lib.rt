//! Laws of the controller's definitions, and worked examples that the checker computes from them: what a reader who would not
//! take a definition on trust looks at first. Of it only the plan of a command runs.
#![tactic(auto)]

mod intercept_laws;
mod plans;
mod route_laws;
mod state_laws;
mod validity;
mod worked;
mod worked_addresses;
mod worked_intercepts;
mod worked_laws;
mod worked_picks;
mod worked_requests;
mod worked_serials;
mod worked_validity;

pub use intercept_laws::{addresses_are_read_back, each_hit, one_hit_a_rank, the_picked_hit};
pub use plans::{Plan, told_changes};
pub use route_laws::{
    claimed_route, each_path, explanations_are_justified, mirrored_walks, no_better, plain_path,
    the_best, the_denial, the_least_path, the_rule,
};
pub use state_laws::{
    absent_pairs_count_nothing, changes_are_counted, circuits_are_revoked, each_circuit_is_judged,
    names_find_their_records, next_numbers_have_an_end, numbers_are_given_once, numbers_never_fall,
    one_record_a_name, refused_leaves_the_state, repairing_removes_and_reroutes, rerouted_circuits,
    same_states_are_equal_states, serials_and_intercepts_stay, settled_once, untouched_tables,
};
pub use validity::{granted_circuits_stay_granted, valid_stays_valid};
pub use worked::{
    a_circuit_on_a_line, a_nearer_terminator, absent_in_role_lists, circuits_from_before,
    circuits_that_go_another_way, circuits_that_stay, claims_beside_others, claims_of_a_line,
    counted_grants, deleted_and_made_again, denials, equal_paths, equal_totals, forgotten_names,
    full_kinds, hosts, limit_of_attributes, limits_and_links, limits_of_kinds, load_on_terminators,
    names_and_words, new_records, no_traversal, own_and_others, permissions, precedences, ranges,
    ranges_of_claims, revoked_circuits, role_lists, settled_circuits, shown_grants, sides,
    spelled_commands, unknown_names, updates,
};
pub use worked_addresses::{hosts_of_bytes, own_spellings, ranges_of_bytes, spelled_addresses};
pub use worked_intercepts::{
    clashing_services, forms_of_intercepts, narrow_ranges, near_addresses, picked_hits,
};
pub use worked_laws::{
    lists_of_numbers, plain_paths_of_a_line, ranks_and_small_costs, records_of_no_valid_state,
    touched_records, words_of_fields,
};
pub use worked_picks::{
    commands_on_intercepts, listed_clashes, picked_services, set_intercepts,
    spelled_intercept_commands,
};
pub use worked_requests::{
    candidates_of_a_line, ends_without_traversal, listed_services_and_refused_explanations,
    named_instances_and_ingresses,
};
pub use worked_serials::{counted_changes, same_parts};
pub use worked_validity::{attributes_of_all_kinds, states_that_are_not_valid};
