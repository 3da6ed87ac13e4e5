//! What each call on a folder asks of its files.

ghost use Rattle.std.specs.Prelude.{◌≡◌, IsTrue, length};

use crate::checks::{are_bytes, are_calls, is_done, is_refused};
use sample_runs::{Asked, Calls, NONE_FAILS, Name, Recorded};
use std::alloc::{AllocError, Global};
use std::process::Abort;
use std::test::Fail;
use std::{fs, io};
use ziti_desk::{Drive, Folder, Paths};
use ziti_outside::Part;

/// Folders in the working folder, one for each test.
const MADE: Paths<'static> = Paths {
    folder: "made",
    zero: "made/ziti.0",
    one: "made/ziti.1",
    mark: "made/ziti.mark",
};

const LOOKED_AT: Paths<'static> = Paths {
    folder: "looked_at",
    zero: "looked_at/ziti.0",
    one: "looked_at/ziti.1",
    mark: "looked_at/ziti.mark",
};

const REFUSED: Paths<'static> = Paths {
    folder: "refused",
    zero: "refused/ziti.0",
    one: "refused/ziti.1",
    mark: "refused/ziti.mark",
};

const PARTS: [(Part, Name); 3] = [
    (Part::Zero, Name::Zero),
    (Part::One, Name::One),
    (Part::Mark, Name::Mark),
];

// The files of the working folder have the names of the program's, and each the bytes of its part.
fn has_named(rt: &impl Abort, host: &HostRuntime) -> io::Result<()> {
    for (path, wanted) in [("ziti.0", b"0"), ("ziti.1", b"1"), ("ziti.mark", b"m")] {
        let kept = fs::read(host, path)?;
        are_bytes(rt, kept.as_slice(), wanted.as_slice());
        fs::remove_file(host, path)?;
    }
    Ok(())
}

fn writes_three<F: Drive>(rt: &impl Abort, folder: &mut F) {
    is_done(rt, folder.write_at(Part::Zero, 0, b"0"));
    is_done(rt, folder.write_at(Part::One, 0, b"1"));
    is_done(rt, folder.write_at(Part::Mark, 0, b"m"));
}

#[test]
fn keeps_three_files_by_their_names(rt: HostRuntime) -> Result<(), Fail> {
    writes_three(&rt, &mut Folder::new(&rt, Paths::WORKING_FOLDER));
    has_named(&rt, &rt)?;
    Ok(())
}

// These were the calls.
fn were(rt: &impl Abort, alloc: Global, calls: &Calls, wanted: &[Asked]) -> Result<(), AllocError> {
    let all = calls.all(alloc)?;
    are_calls(rt, all.as_slice(), wanted);
    Ok(())
}

// A part has so many bytes.
fn has_len<F: Drive>(rt: &impl Abort, folder: &mut F, part: Part, wanted: u64)
    ensures { IsTrue F.tells → length (F.reads folder.new part) ≡ wanted }
{
    assert_eq!(rt; folder.len(part), Ok(wanted));
}

// Writes a part that is absent, syncs it, cuts it and syncs it again.
fn writes_a_part<F: Drive>(rt: &impl Abort, folder: &mut F, part: Part) {
    is_done(rt, folder.write_at(part, 0, b"abc"));
    is_done(rt, folder.sync(part));
    has_len(rt, folder, part, 3);
    is_done(rt, folder.cut(part, 2));
    is_done(rt, folder.sync(part));
}

/// The file of a part is made, and its folder is synced before its first byte is written; it is synced where it is asked to be.
const fn first_calls(name: Name) -> [Asked; 10] {
    [
        Asked::Open(name),
        Asked::Make(name),
        Asked::Look(Name::Folder),
        Asked::Sync(Name::Folder),
        Asked::Seek(name, 0),
        Asked::Write(name, 3),
        Asked::Sync(name),
        Asked::Len(name),
        Asked::Cut(name, 2),
        Asked::Sync(name),
    ]
}

fn writes_recorded<'c>(rt: &impl Abort, host: &'c HostRuntime, calls: &'c Calls, part: Part) {
    let files = Recorded { host, calls };
    writes_a_part(rt, &mut Folder::new(&files, MADE), part);
}

fn makes_a_part(
    rt: &impl Abort,
    host: &HostRuntime,
    part: Part,
    name: Name,
) -> Result<(), AllocError> {
    let calls = Calls::new(host.alloc(), NONE_FAILS);
    writes_recorded(rt, host, &calls, part);
    were(rt, host.alloc(), &calls, &first_calls(name))
}

// The three files have what was written to each.
fn has_files(rt: &impl Abort, host: &HostRuntime) -> io::Result<()> {
    for path in [MADE.zero, MADE.one, MADE.mark] {
        let kept = fs::read(host, path)?;
        are_bytes(rt, kept.as_slice(), b"ab");
    }
    Ok(())
}

#[test]
fn syncs_the_folder_of_what_it_makes(rt: HostRuntime) -> Result<(), Fail> {
    fs::create_dir(&rt, MADE.folder)?;
    for (part, name) in PARTS {
        makes_a_part(&rt, &rt, part, name)?;
    }
    has_files(&rt, &rt)?;
    fs::remove_dir_all(&rt, MADE.folder)?;
    Ok(())
}

// A part of three bytes is looked at, and then synced; so is one that is absent.
fn looks_and_syncs<F: Drive>(rt: &impl Abort, folder: &mut F) {
    let mut buf = [0u8; 2];
    has_len(rt, folder, Part::Zero, 3);
    is_done(rt, folder.read_at(Part::Zero, 1, &mut buf));
    are_bytes(rt, &buf, b"bc");
    is_refused(rt, folder.read_at(Part::Zero, 2, &mut buf));
    has_len(rt, folder, Part::Mark, 0);
    is_done(rt, folder.sync(Part::Zero));
    is_done(rt, folder.sync(Part::Mark));
}

/// A file is opened for reading alone until it is synced, when its folder is synced too; an absent one is not made.
const LOOKED: &[Asked] = &[
    Asked::Look(Name::Zero),
    Asked::Len(Name::Zero),
    Asked::Seek(Name::Zero, 1),
    Asked::Read(Name::Zero),
    Asked::Seek(Name::Zero, 2),
    Asked::Read(Name::Zero),
    Asked::Read(Name::Zero),
    Asked::Look(Name::Mark),
    Asked::Open(Name::Zero),
    Asked::Look(Name::Folder),
    Asked::Sync(Name::Folder),
    Asked::Sync(Name::Zero),
    Asked::Open(Name::Mark),
];

#[test]
fn looks_without_a_sync(rt: HostRuntime) -> Result<(), Fail> {
    fs::create_dir(&rt, LOOKED_AT.folder)?;
    fs::write(&rt, LOOKED_AT.zero, b"abc")?;
    let calls = Calls::new(rt.alloc(), NONE_FAILS);
    let files = Recorded {
        host: &rt,
        calls: &calls,
    };
    looks_and_syncs(&rt, &mut Folder::new(&files, LOOKED_AT));
    were(&rt, rt.alloc(), &calls, LOOKED)?;
    fs::remove_dir_all(&rt, LOOKED_AT.folder)?;
    Ok(())
}

// How many of the four calls failed that make a part, sync it, cut it and sync it again.
fn refused<F: Drive>(folder: &mut F) -> u32 {
    let mut count = 0u32;
    for answer in [
        folder.write_at(Part::Zero, 0, b"abc"),
        folder.sync(Part::Zero),
        folder.cut(Part::Zero, 0),
        folder.sync(Part::Zero),
    ] {
        count = count.wrapping_add(u32::from(answer.is_err()));
    }
    count
}

fn refused_recorded<'c>(host: &'c HostRuntime, calls: &'c Calls) -> u32 {
    let files = Recorded { host, calls };
    refused(&mut Folder::new(&files, REFUSED))
}

fn fails_once(rt: &impl Abort, host: &HostRuntime, failing: usize) -> io::Result<()> {
    fs::create_dir(host, REFUSED.folder)?;
    let calls = Calls::new(host.alloc(), failing);
    assert!(rt; refused_recorded(host, &calls) == 1, "{failing}");
    fs::remove_dir_all(host, REFUSED.folder)
}

// Each of the nine refusals of the system is a fault of just the call in which it came.
#[test]
fn fails_at_each_refusal(rt: HostRuntime) -> Result<(), Fail> {
    for failing in 0usize..9 {
        fails_once(&rt, &rt, failing)?;
    }
    Ok(())
}
