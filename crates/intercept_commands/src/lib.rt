//! The commands on intercepts: planned and made.
#![tactic(auto)]

mod applying;
mod laws;
mod planning;
mod rows;
mod showing;
mod worked;

pub use applying::apply_intercept_change;
pub use intercepts::InterceptChange;
pub use laws::the_same_intercept_again;
pub use planning::plan_intercept_command;
pub use rows::intercept_changes;
pub use worked::changed_intercepts;
