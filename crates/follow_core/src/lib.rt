//! Follows a leader: takes what was shipped of its folder, frame by frame, into a folder of its own, which is always some state of the leader
//! (docs/RULES.md, "Following").
#![tactic(auto)]

mod comparing;
mod deciding;
mod faults;
mod follower;
mod judging;
mod keeping;
mod receiving;
mod replies;
mod seeking;
mod sought;
mod taken;
mod taking;
mod worked;

pub use faults::FollowFault;
pub use follower::Follower;
pub use replies::{worked_replies, write_taken};
pub use sought::Sought;
pub use taken::Taken;
pub use worked::{worked_bad_frames, worked_copies, worked_frames, worked_refusals};
