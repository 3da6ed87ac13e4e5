//! Laws of rows, of their difference, of batches and of covers: what a reader who would not take those definitions on trust looks
//! at first. Nothing here runs.
#![tactic(auto)]

mod batch_laws;
mod cover_laws;
mod difference_laws;
mod key_laws;
mod state_rows;
mod touched_keys;
mod worked;

pub use batch_laws::{
    batches_between_states, batches_of_all_rows, batches_of_spelled_rows, empty_batches,
};
pub use cover_laws::{
    changes_at_keys, covered_keys_rise, covers_join, covers_make_the_batch,
    same_tables_need_no_change,
};
pub use difference_laws::{
    batches_lead_on, no_difference, rows_stay_rising, same_answers, the_difference,
    true_differences,
};
pub use key_laws::{bytes_keep_the_order, keys_are_ordered};
pub use state_rows::{
    counts_are_few, equal_rows_equal_states, narrowed_rows, records_fit, rows_at_keys,
    rows_have_their_form, rows_rise,
};
pub use touched_keys::{
    counts_are_covered, intercepts_and_the_serial_are_covered, many_records_are_touched,
    next_numbers_are_covered, one_record_is_touched, records_are_covered, the_setting_is_covered,
};
pub use worked::{worked_batches, worked_changes, worked_keys};
