//! The desk of the program over the drive in memory: it keeps what the one in memory keeps.

ghost use Rattle.std.specs.Prelude.{◌≡◌, IsTrue, length};

use crate::checks::{are_bytes, is_done, is_refused};
use sample_runs::{FIRST, desk_of};
use std::alloc::{AllocError, Global};
use std::process::Abort;
use std::test::Fail;
use ziti_desk::{FileDesk, MemDesk, Room, Writes};
use ziti_outside::{Desk, Part};

/// Room for some bytes and calls.
const ROOM: Room = Room {
    file_bytes: 64,
    said_bytes: 16,
    noted_bytes: 16,
    log_bytes: 4_096,
};

// A part has so many bytes.
fn has_len<D: Desk>(rt: &impl Abort, desk: &mut D, part: Part, wanted: u64)
    ensures { IsTrue D.tells → length ((D.seen desk.new).reads part) ≡ wanted }
{
    assert_eq!(rt; desk.len(part), Ok(wanted));
}

// Writes to the first slot, says, syncs and cuts.
fn does_some<D: Desk>(rt: &impl Abort, desk: &mut D) {
    let mut buf = [0u8; 2];
    has_len(rt, desk, Part::Zero, 3);
    is_done(rt, desk.write_at(Part::Zero, 1, b"78"));
    is_done(rt, desk.say(b"56"));
    is_done(rt, desk.sync(Part::Zero));
    has_len(rt, desk, Part::Zero, 3);
    is_done(rt, desk.cut(Part::Zero, 2));
    is_done(rt, desk.note(b"n"));
    has_len(rt, desk, Part::Zero, 2);
    is_done(rt, desk.read_at(Part::Zero, 0, &mut buf));
    are_bytes(rt, &buf, b"17");
    is_refused(rt, desk.read_at(Part::One, 0, &mut buf));
}

// The drive reads so, has seen these calls, and a stop that keeps nothing pending finds the slot as it was synced.
fn has_kept(rt: &impl Abort, alloc: Global, drive: &MemDesk) -> Result<(), AllocError> {
    are_bytes(rt, drive.part(Part::Zero), b"17");
    are_bytes(rt, drive.part(Part::Mark), FIRST);
    are_bytes(rt, drive.said(), b"");
    assert!(rt; drive.moments() == 3);
    if drive.moments() == 3 {
        let (image, taken) = drive.stopped(alloc, 3, 0)?;
        are_bytes(rt, image.zero.as_slice(), b"178");
        are_bytes(rt, taken.as_slice(), b"");
    }
    Ok(())
}

fn keeps_parts(
    rt: &impl Abort,
    alloc: Global,
    said: &mut Vec<u8>,
    noted: &mut Vec<u8>,
) -> Result<(), AllocError> {
    let drive = desk_of(alloc, ROOM, [b"123", b"", FIRST], &[])?;
    let mut desk = FileDesk::new(drive, Writes::new(said), Writes::new(noted));
    does_some(rt, &mut desk);
    has_kept(rt, alloc, desk.folder())
}

#[test]
fn keeps_parts_on_a_drive_in_memory(rt: HostRuntime) -> Result<(), Fail> {
    let mut said = Vec::new(rt.alloc());
    let mut noted = Vec::new(rt.alloc());
    keeps_parts(&rt, rt.alloc(), &mut said, &mut noted)?;
    are_bytes(&rt, said.as_slice(), b"56");
    are_bytes(&rt, noted.as_slice(), b"n");
    Ok(())
}
