//! Replays in memory of the frame that creates the first identity, compared with bytes that were worked by hand.

use crate::replays::{Replayed, replay_from_nothing, replay_in_memory, stop_in_memory};
use ctrl_serve::Status;
use session_mux::Form;
use std::alloc::{AllocError, Global};
use std::process::Abort;
use std::test::Fail;
use ziti_desk::{Images, Room};

/// Room for a small folder and the log of its calls.
const ROOM: Room = Room {
    file_bytes: 4_096,
    said_bytes: 4_096,
    noted_bytes: 4_096,
    log_bytes: 65_536,
};

/// A frame that creates ann: content type 1000, sequence 7, no headers.
const ANN: &[u8] = b"\x03\x06\x09\x0c\xe8\x03\0\0\x07\0\0\0\0\0\0\0\x0e\0\0\0{\"name\":\"ann\"}";

/// Its reply: content type 2, reply for 7, success, the number 1; and the reply to a second such frame: the name exists.
const MADE: &[u8] =
    b"\x03\x06\x09\x0c\x02\0\0\0\0\0\0\0\x15\0\0\0\x08\0\0\0\x01\0\0\0\x04\0\0\0\x07\0\0\0\x02\0\0\0\x01\0\0\0\x01{\"no\":1}";

const EXISTS: &[u8] =
    b"\x03\x06\x09\x0c\x02\0\0\0\0\0\0\0\x15\0\0\0\x1b\0\0\0\x01\0\0\0\x04\0\0\0\x07\0\0\0\x02\0\0\0\x01\0\0\0\0{\"code\":20,\"name\":\"Exists\"}";

/// The slot that keeps ann: its header, an open gate, the next number of identities, the identity and the serial 1, and a closed gate.
const SLOT: &[u8] =
    b"ZCTL\x02\0\0\0\x01\x2b\0\0\0\x01\x02\x01\x01\x04\0\0\0\x02\0\0\0\x01\x05\x03\0\0\0\x01\x05\0\0\0\x03ann\0\x01\x01\x11\x08\0\0\0\x01\0\0\0\0\0\0\0\0";

/// The same in the first format, which has no serial.
const OLD_SLOT: &[u8] =
    b"ZCTL\x01\0\0\0\x01\x1c\0\0\0\x01\x02\x01\x01\x04\0\0\0\x02\0\0\0\x01\x05\x03\0\0\0\x01\x05\0\0\0\x03ann\0\0";

/// The second slot once that was migrated: the same bytes behind the header of the second format.
const MIGRATED_SLOT: &[u8] =
    b"ZCTL\x02\0\0\0\x01\x1c\0\0\0\x01\x02\x01\x01\x04\0\0\0\x02\0\0\0\x01\x05\x03\0\0\0\x01\x05\0\0\0\x03ann\0\0";

fn folder_of(alloc: Global, zero: &[u8], mark: &[u8]) -> Result<Images, AllocError> {
    let mut folder = Images::empty(alloc);
    folder.zero.extend_from_slice(zero)?;
    folder.mark.extend_from_slice(mark)?;
    Ok(folder)
}

// Bytes are the wanted ones. It is proved once, and a test that makes it is short.
fn are_bytes(rt: &impl Abort, found: &[u8], wanted: &[u8]) {
    assert_eq!(rt; found, wanted);
}

// The folder keeps ann in its first slot.
fn keeps_ann(rt: &impl Abort, folder: &Images) {
    are_bytes(rt, folder.zero.as_slice(), SLOT);
    are_bytes(rt, folder.one.as_slice(), b"");
    are_bytes(rt, folder.mark.as_slice(), b"\0");
}

// A replay ended so, and said and noted this.
fn told(rt: &impl Abort, replayed: &Replayed, status: Status, said: &[u8], noted: &str) {
    assert_eq!(rt; replayed.status, status);
    are_bytes(rt, replayed.said.as_slice(), said);
    are_bytes(rt, replayed.noted.as_slice(), noted.as_bytes());
}

#[test]
fn keeps_the_first_identity(rt: HostRuntime) -> Result<(), Fail> {
    let replayed = replay_from_nothing(rt.alloc(), Form::Plain, ANN, ROOM)?;
    told(&rt, &replayed, Status::Done, MADE, "");
    keeps_ann(&rt, &replayed.folder);
    Ok(())
}

#[test]
fn goes_on_from_a_folder(rt: HostRuntime) -> Result<(), Fail> {
    let folder = folder_of(rt.alloc(), SLOT, b"\0")?;
    let replayed = replay_in_memory(rt.alloc(), Form::Plain, ANN, folder, ROOM)?;
    told(&rt, &replayed, Status::Done, EXISTS, "");
    keeps_ann(&rt, &replayed.folder);
    Ok(())
}

#[test]
fn migrates_a_folder_of_the_first_format(rt: HostRuntime) -> Result<(), Fail> {
    let folder = folder_of(rt.alloc(), OLD_SLOT, b"\0")?;
    let replayed = replay_in_memory(rt.alloc(), Form::Plain, b"", folder, ROOM)?;
    told(&rt, &replayed, Status::Done, b"", "");
    are_bytes(&rt, replayed.folder.zero.as_slice(), b"");
    are_bytes(&rt, replayed.folder.one.as_slice(), MIGRATED_SLOT);
    are_bytes(&rt, replayed.folder.mark.as_slice(), b"\0\0");
    Ok(())
}

#[test]
fn tells_a_damaged_folder(rt: HostRuntime) -> Result<(), Fail> {
    let folder = folder_of(rt.alloc(), b"ZCTL", b"\0")?;
    let replayed = replay_in_memory(rt.alloc(), Form::Plain, ANN, folder, ROOM)?;
    told(
        &rt,
        &replayed,
        Status::Damaged,
        b"",
        "zitictl: damaged: file 0 at 0\n",
    );
    Ok(())
}

#[test]
fn reads_a_trace(rt: HostRuntime) -> Result<(), Fail> {
    let replayed = replay_from_nothing(rt.alloc(), Form::Trace, b"\x09", ROOM)?;
    told(
        &rt,
        &replayed,
        Status::BadInput,
        b"",
        "zitictl: trace: BadRecord at 0\n",
    );
    Ok(())
}

#[test]
fn finds_the_identity_behind_its_reply(rt: HostRuntime) -> Result<(), Fail> {
    let folder = Images::empty(rt.alloc());
    let (left, taken) = stop_in_memory(rt.alloc(), Form::Plain, ANN, folder, ROOM, u64::MAX, 0)?;
    are_bytes(&rt, taken.as_slice(), MADE);
    keeps_ann(&rt, &left);
    Ok(())
}

#[test]
fn finds_nothing_at_first(rt: HostRuntime) -> Result<(), Fail> {
    let folder = Images::empty(rt.alloc());
    let (left, taken) = stop_in_memory(rt.alloc(), Form::Plain, ANN, folder, ROOM, 0, 0)?;
    are_bytes(&rt, taken.as_slice(), b"");
    are_bytes(&rt, left.mark.as_slice(), b"");
    Ok(())
}
