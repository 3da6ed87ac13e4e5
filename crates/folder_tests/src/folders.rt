//! The folder over real files and over memory: what is written is read, and what the system refuses is a fault.

use crate::checks::{are_bytes, has_len, is_done, is_refused};
use crate::stops::{Call, does};
use std::process::Abort;
use std::test::Fail;
use std::{fs, io};
use ziti_desk::{FileDesk, Folder, Images, MemDesk, Paths, Room, Writes};
use ziti_outside::{Desk, Part};

/// Folders in the working folder, one for each test that has files.
const KEEPING: Paths<'static> = Paths {
    folder: "keeping",
    zero: "keeping/ziti.0",
    one: "keeping/ziti.1",
    mark: "keeping/ziti.mark",
};

const REFUSING: Paths<'static> = Paths {
    folder: "refusing",
    zero: "refusing/ziti.0",
    one: "refusing/ziti.1",
    mark: "refusing/ziti.mark",
};

const NO_FOLDER: Paths<'static> = Paths {
    folder: "no_folder",
    zero: "no_folder/ziti.0",
    one: "no_folder/ziti.1",
    mark: "no_folder/ziti.mark",
};

const GUARDED: Paths<'static> = Paths {
    folder: "guarded",
    zero: "guarded/ziti.0",
    one: "guarded/ziti.1",
    mark: "guarded/ziti.mark",
};

/// A place of the system's own in which no user may make a file.
const SYSTEM: Paths<'static> = Paths {
    folder: "/proc/self",
    zero: "/proc/self/ziti.0",
    one: "/proc/self/ziti.1",
    mark: "/proc/self/ziti.mark",
};

/// What is done with a desk over files.
#[derive(Clone, Copy)]
enum Deed {
    Keeps,
    RefusesTwice,
    RefusesAll,
    WritesIfLet,
    RefusesTheFirst,
}

fn starts_empty<D: Desk>(rt: &impl Abort, desk: &mut D) {
    let mut buf = [0u8; 4];
    has_len(rt, desk, Part::Zero, 0);
    is_done(rt, desk.sync(Part::Zero));
    is_done(rt, desk.cut(Part::Zero, 0));
    is_refused(rt, desk.read_at(Part::Zero, 0, &mut buf));
}

fn writes<D: Desk>(rt: &impl Abort, desk: &mut D) {
    assert_eq!(rt; desk.write_at(Part::Zero, 0, b"abcdef"), Ok(()));
    is_done(rt, desk.write_at(Part::Zero, 4, b"EFGH"));
    is_done(rt, desk.sync(Part::Zero));
}

fn reads<D: Desk>(rt: &impl Abort, desk: &mut D) {
    let mut buf = [0u8; 4];
    is_done(rt, desk.read_at(Part::Zero, 2, &mut buf));
    are_bytes(rt, &buf, b"cdEF");
}

fn cuts<D: Desk>(rt: &impl Abort, desk: &mut D) {
    let mut buf = [0u8; 4];
    has_len(rt, desk, Part::Zero, 8);
    is_done(rt, desk.cut(Part::Zero, 5));
    is_refused(rt, desk.read_at(Part::Zero, 2, &mut buf));
    has_len(rt, desk, Part::Zero, 5);
    has_len(rt, desk, Part::One, 0);
}

fn keeps_parts<D: Desk>(rt: &impl Abort, desk: &mut D) {
    starts_empty(rt, desk);
    writes(rt, desk);
    reads(rt, desk);
    cuts(rt, desk);
}

/// Room for two parts of 8 bytes, 4 bytes of replies and of notes, and some calls.
const LITTLE_ROOM: Room = Room {
    file_bytes: 16,
    said_bytes: 4,
    noted_bytes: 4,
    log_bytes: 4_096,
};

// Replies and notes are taken while they have room.
#[test]
fn keeps_parts_in_memory(rt: HostRuntime) -> Result<(), Fail> {
    let images = Images::empty(rt.alloc());
    let mut desk = MemDesk::new(rt.alloc(), images, LITTLE_ROOM, Vec::new(rt.alloc()))?;
    keeps_parts(&rt, &mut desk);
    does(
        &rt,
        &mut desk,
        &[
            (Call::Reads(Part::Zero, b"abcdE"), true),
            (Call::Say(b"four"), true),
            (Call::Say(b"5"), false),
            (Call::Note(b"no"), true),
            (Call::Said(b"four"), true),
            (Call::Noted(b"no"), true),
        ],
    );
    Ok(())
}

// The folder is absent: its parts have no bytes, and none can be written.
fn refuses_an_absent_folder<D: Desk>(rt: &impl Abort, desk: &mut D) {
    has_len(rt, desk, Part::Mark, 0);
    is_refused(rt, desk.write_at(Part::Mark, 0, b"a"));
}

// A folder stands in the place of the mark.
fn refuses_no_file<D: Desk>(rt: &impl Abort, desk: &mut D) {
    assert!(rt; desk.len(Part::Mark).is_err());
    is_refused(rt, desk.write_at(Part::Mark, 0, b"a"));
    is_refused(rt, desk.sync(Part::Mark));
}

fn refuses_twice<D: Desk>(rt: &impl Abort, host: &HostRuntime, desk: &mut D) -> io::Result<()> {
    refuses_an_absent_folder(rt, desk);
    fs::create_dir(host, REFUSING.folder)?;
    fs::create_dir(host, REFUSING.mark)?;
    refuses_no_file(rt, desk);
    Ok(())
}

/// Every call is refused.
fn refuses_all<D: Desk>(rt: &impl Abort, desk: &mut D) {
    let mut buf = [0u8; 1];
    assert!(rt; desk.len(Part::Zero).is_err());
    is_refused(rt, desk.read_at(Part::One, 0, &mut buf));
    is_refused(rt, desk.write_at(Part::Mark, 0, b"a"));
    is_refused(rt, desk.cut(Part::Zero, 0));
    is_refused(rt, desk.sync(Part::One));
}

/// The system refuses the first write, unless the user may write everywhere. Then a later call finds what it wrote.
fn writes_if_let<D: Desk>(rt: &impl Abort, desk: &mut D) {
    let wrote = desk.write_at(Part::Mark, 0, b"a").is_ok();
    has_len(rt, desk, Part::Mark, u64::from(wrote));
    is_done(rt, desk.sync(Part::Mark));
}

fn refuses_the_first<D: Desk>(rt: &impl Abort, desk: &mut D) {
    has_len(rt, desk, Part::Zero, 0);
    is_refused(rt, desk.write_at(Part::Zero, 0, b"a"));
    has_len(rt, desk, Part::Zero, 0);
}

fn makes<D: Desk>(rt: &impl Abort, host: &HostRuntime, desk: &mut D, deed: Deed) -> io::Result<()> {
    match deed {
        Deed::Keeps => keeps_parts(rt, desk),
        Deed::RefusesTwice => return refuses_twice(rt, host, desk),
        Deed::RefusesAll => refuses_all(rt, desk),
        Deed::WritesIfLet => writes_if_let(rt, desk),
        Deed::RefusesTheFirst => refuses_the_first(rt, desk),
    }
    Ok(())
}

// A deed is done with a desk over the files of a folder.
fn over_files(rt: &impl Abort, host: &HostRuntime, paths: Paths<'_>, deed: Deed) -> io::Result<()> {
    let mut said = Vec::new(host.alloc());
    let mut noted = Vec::new(host.alloc());
    let replies = Writes::new(&mut said);
    let notes = Writes::new(&mut noted);
    let mut desk = FileDesk::new(Folder::new(host, paths), replies, notes);
    makes(rt, host, &mut desk, deed)
}

// The first file has what was kept, and there is no second.
fn has_one_file(rt: &impl Abort, host: &HostRuntime) -> io::Result<()> {
    let kept = fs::read(host, KEEPING.zero)?;
    are_bytes(rt, kept.as_slice(), b"abcdE");
    assert!(rt; fs::read(host, KEEPING.one).is_err());
    Ok(())
}

#[test]
fn keeps_parts_in_real_files(rt: HostRuntime) -> Result<(), Fail> {
    fs::create_dir(&rt, KEEPING.folder)?;
    over_files(&rt, &rt, KEEPING, Deed::Keeps)?;
    has_one_file(&rt, &rt)?;
    fs::remove_dir_all(&rt, KEEPING.folder)?;
    Ok(())
}

#[test]
fn counts_what_the_system_refuses(rt: HostRuntime) -> Result<(), Fail> {
    over_files(&rt, &rt, REFUSING, Deed::RefusesTwice)?;
    fs::remove_dir_all(&rt, REFUSING.folder)?;
    Ok(())
}

// A file stands in the place of the folder.
#[test]
fn counts_what_a_wrong_folder_refuses(rt: HostRuntime) -> Result<(), Fail> {
    fs::write(&rt, NO_FOLDER.folder, b"no folder")?;
    over_files(&rt, &rt, NO_FOLDER, Deed::RefusesAll)?;
    fs::remove_file(&rt, NO_FOLDER.folder)?;
    Ok(())
}

/// Lets nobody write to a folder, or everybody.
fn guard(rt: &HostRuntime, path: &str, guarded: bool) -> io::Result<()> {
    let mut permissions = fs::metadata(rt, path)?.permissions();
    permissions.set_readonly(guarded);
    fs::set_permissions(rt, path, permissions)
}

#[test]
fn counts_what_a_guarded_folder_refuses(rt: HostRuntime) -> Result<(), Fail> {
    fs::create_dir(&rt, GUARDED.folder)?;
    guard(&rt, GUARDED.folder, true)?;
    over_files(&rt, &rt, GUARDED, Deed::WritesIfLet)?;
    guard(&rt, GUARDED.folder, false)?;
    fs::remove_dir_all(&rt, GUARDED.folder)?;
    Ok(())
}

#[test]
fn counts_what_the_systems_folder_refuses(rt: HostRuntime) -> Result<(), Fail> {
    over_files(&rt, &rt, SYSTEM, Deed::RefusesTheFirst)?;
    Ok(())
}
