//! Role entries and sides: what an entry says, which side a role list is, and which entities a side matches.
#![tactic(auto)]

mod laws;
mod matching;
mod names;
mod roles;
mod row_matching;
mod sides;
mod worked;

pub use laws::{one_spelling_a_role, roles_are_read_by_their_spelling};
pub use matching::matches;
pub use names::keep_name;
pub use roles::{RoleFault, is_role, read_role};
pub use row_matching::match_all;
pub use sides::side_of;
pub use worked::{worked_matches, worked_roles, worked_sides};
