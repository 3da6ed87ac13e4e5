//! The desks that there are: over writers and a drive for the folder, and over memory.
//!
//! The desk of the program tells of replies and notes what its writers tell, and of the folder what its drive tells. A desk over memory
//! is a drive too; it tells all its contents, and fails exactly where its list or its room says.
#![tactic(auto)]

mod files;
mod mem_desk;
mod mem_drive;

pub use desk_base::{
    Drive, Folder, Images, MemSource, Outlet, Paths, Writes, nothing_or_all_is_kept,
    pending_until_synced,
};
pub use files::{FileDesk, FileSource};
pub use mem_desk::{MemDesk, Room};
