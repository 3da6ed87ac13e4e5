ghost use Rattle.std.specs.Prelude.{◌≡◌, true, IfOk, [], Some};
ghost use Rattle.ziti_desk.specs.MemEvents.{image_of};
ghost use Rattle.memory_runs.specs.WholeReplays.{IsNew};

use std::alloc::{AllocError, Global};
use ziti_desk::{FileDesk, Images, MemDesk, Room, Writes};
use ziti_outside::Desk;

/// The program's desk over memory: its folder is a drive in memory, and replies and notes go to bytes.
pub type MemoryDesk = FileDesk<MemDesk, Writes<Vec<u8>>, Writes<Vec<u8>>>;

/// A desk over memory whose folder has these bytes, of which no call was made.
pub fn new_desk(alloc: Global, folder: Images, room: Room) -> Result<MemDesk, AllocError>
    ensures new { IfOk result (λ d. IsNew true (⟦<MemDesk as Desk>⟧.seen d) (⟦<MemDesk as Desk>⟧.stopped d)) }
    ensures reads { IfOk result (λ d. (⟦<MemDesk as Desk>⟧.seen d).reads ≡ image_of folder) }
{
    MemDesk::new(alloc, folder, room, Vec::new(alloc))
}

/// The program's desk over memory, whose folder has these bytes, and of which no call was made.
pub fn program_desk(alloc: Global, folder: Images, room: Room) -> Result<MemoryDesk, AllocError>
    ensures new { IfOk result (λ d. IsNew true (⟦<MemoryDesk as Desk>⟧.seen d) (⟦<MemoryDesk as Desk>⟧.stopped d)) }
    ensures reads { IfOk result (λ d. (⟦<MemoryDesk as Desk>⟧.seen d).reads ≡ image_of folder) }
{
    let drive = new_desk(alloc, folder, room)?;
    let replies = Writes::new(Vec::new(alloc));
    let notes = Writes::new(Vec::new(alloc));
    Ok(FileDesk::new(drive, replies, notes))
}
