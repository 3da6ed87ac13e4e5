//! Commands as the bodies of frames: which command a body spells under a content type, or the first cause why it spells none.
#![tactic(auto)]

mod attribute_lists;
mod body_forms;
mod body_kinds;
mod command_parts;
mod command_values;
mod content_types;
mod laws;
mod reading;
mod role_lists;

pub use body_forms::fields_of;
pub use laws::{the_first_cause, what_a_body_spells};
pub use reading::{CodecFault, read};
