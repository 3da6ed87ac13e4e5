//! The top call of the controller. By the words it reads the input, answers each whole frame and says the replies, by the controller or a
//! follower; or it looks at the folder, ships or compacts it, or answers a generated load.
#![tactic(auto)]

mod bounds;
mod command_line;
mod controller;
mod ending;
mod folder;
mod following;
mod laws;
mod loads;
mod looking;
mod shipping;
mod top;

pub use bounds::Bounds;
pub use command_line::Form;
pub use ending::ends;
pub use laws::{
    a_decided_input_decides_its_events, a_run_goes_on_from_a_stop, a_told_failure_is_the_status,
    circuits_stand_on_what_grants_them, cut_plain_runs_note_one_line, cut_runs_say_fronts,
    damage_changes_nothing, done_compacts_all, done_keeps_all, done_says_all, done_says_the_line,
    nearness_hangs_on_what_was_said, nothing_is_counted_without_a_folder, numbers_have_one_word,
    plain_input_is_one_session, runs_are_complete, runs_without_compact_leave_the_other_slot,
    slots_keep_their_bound, stops_keep_what_was_acknowledged, truncated_says_all,
};
pub use run_notes::Status;
pub use top::{run, run_within};
