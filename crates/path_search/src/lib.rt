//! The search for least paths in a graph: the least cost from each place to a target, and the first of the least paths.
#![tactic(auto)]

mod laws;
mod relaxing;
mod searching;
mod visiting;
mod waiting;
mod walking;
mod worked;

pub use laws::least_paths_of_a_network;
pub use relaxing::{arrivals, least, least_over};
pub use searching::visit_exits;
pub use visiting::CostSearch;
pub use walking::walk;
pub use worked::{bound_of_three, least_costs_of_a_row, lesser_links_first};
