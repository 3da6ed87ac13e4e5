//! What the desks are made of: outlets, a drive for the folder, and for desks over memory their calls, the log of these and what a stop
//! leaves of it.
//!
//! An outlet tells what its writer tells. The drive over the three files of a folder tells nothing. What is over memory tells all its
//! contents, and fails at the calls that it is told to.
#![tactic(auto)]

mod answers;
mod drive;
mod failing_calls;
mod folder;
mod laws;
mod mem_calls;
mod mem_log;
mod mem_parts;
mod mem_source;
mod outlets;
mod stopping;

pub use answers::{counted, given};
pub use drive::Drive;
pub use failing_calls::is_next_listed;
pub use folder::{Folder, Paths};
pub use laws::{nothing_or_all_is_kept, pending_until_synced};
pub use mem_calls::{cut_part, len_of, note_bytes, read_part, say_bytes, sync_part, write_part};
pub use mem_log::{Call, Log};
pub use mem_parts::Images;
pub use mem_source::MemSource;
pub use outlets::{Outlet, Writes, write_whole};
pub use stopping::{Keeping, Stop, chosen, stop_at};
