//! The rows of a folder, read and numbered for a state that is built of them, and laws that this finds exactly the rows of a valid state.
#![tactic(auto)]

mod counting;
mod faults;
mod laws;
mod loading;
mod nexts;
mod told_counts;

pub use counting::{count_flaw, lacks_counts};
pub use faults::CoreFault;
pub use laws::{
    loaded_rows_are_those_of_their_state, next_numbers_in_rows, refused_rows_are_of_no_state,
    rows_of_valid_states_load,
};
pub use loading::read_rows;
pub use nexts::next_in;
pub use state_building::Flaw;
pub use told_counts::told_counts_are_those_of_the_state;
