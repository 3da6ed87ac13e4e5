//! A graph of places and steps, and the check of a path's certificate: potentials which show that no path is cheaper.
#![tactic(auto)]

mod checking;
mod graph;
mod listing;
mod sweeping;
mod worked;

pub use checking::{check, improves, is_tight, reach};
pub use graph::{Graph, Step};
pub use listing::{StepEnd, StepLists};
pub use worked::{
    line_of_three, middle_not_through, row_for_a_line, shorter_way_beside, steps_at_a_place,
    target_not_through, two_ways_and_none,
};
