//! Laws of following: what a copy of a leader's folder is behind any frames of the leader's history (docs/RULES.md, "Following"). Nothing here runs.
#![tactic(auto)]

mod laws;
mod worked;

pub use laws::{
    any_frames_lead_to_some_state_of_the_leader, frames_in_order_lead_to_the_leader,
    opened_folders_can_be_followed,
};
pub use worked::worked_histories;
