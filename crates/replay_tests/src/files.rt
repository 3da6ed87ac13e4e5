//! Runs over the files of the working folder: what they ask of the system in which order, and what the files have behind each.

use crate::checks::{are_bytes, holds, is_status};
use ctrl_serve::{Status, run};
use sample_runs::{
    Asked, Calls, NONE_FAILS, Name, Recorded, Spoken, bytes_of, folder_of, parts_in, source_of,
    words_of,
};
use std::alloc::{AllocError, Global};
use std::io::Write;
use std::process::Abort;
use std::rt::Files;
use std::test::Fail;
use std::{fs, io};
use ziti_desk::{FileDesk, Folder, Paths, Writes};
use ziti_outside::Desk;

/// A run over the files, one behind the other: its words, its input and what is said, as their parts, and the folder behind it, or none where there is no
/// file. Whether it looks alone; else each write is synced at once, and at last there may be a cut that is not.
#[derive(Clone, Copy)]
struct Step {
    words: &'static [&'static str],
    input: &'static str,
    said: &'static str,
    behind: Option<&'static str>,
    looks: bool,
    cuts: bool,
}

/// Looks at the working folder make no file. A folder is begun, compacted, goes on, and is looked at.
const STEPS: &[Step] = &[
    Step {
        words: &["audit"],
        input: "-",
        said: "NOTHING",
        behind: None,
        looks: true,
        cuts: false,
    },
    Step {
        words: &["advise", "ann", "web"],
        input: "-",
        said: "NO_ONE",
        behind: None,
        looks: true,
        cuts: false,
    },
    Step {
        words: &["replay"],
        input: "ANN",
        said: "MADE",
        behind: Some("ANN_SLOT - FIRST"),
        looks: false,
        cuts: false,
    },
    Step {
        words: &["compact"],
        input: "-",
        said: "-",
        behind: Some("- ANN_SLOT SECOND"),
        looks: false,
        cuts: true,
    },
    Step {
        words: &["replay"],
        input: "BOB",
        said: "BOB_MADE",
        behind: Some("- HEADER+ANN_KEPT+BOB_KEPT+\\0 SECOND"),
        looks: false,
        cuts: false,
    },
    Step {
        words: &["audit"],
        input: "-",
        said: "BOTH",
        behind: Some("- HEADER+ANN_KEPT+BOB_KEPT+\\0 SECOND"),
        looks: true,
        cuts: false,
    },
];

// Runs words on an input and a desk, which ends as done.
fn runs<D: Desk>(
    rt: &impl Abort,
    alloc: Global,
    words: &[&str],
    input: &[u8],
    desk: &mut D,
) -> Result<(), AllocError> {
    let mut source = source_of(alloc, input, 65_536, &[])?;
    let words = words_of(alloc, words)?;
    let status = run(alloc, &words, &mut source, desk);
    is_status(rt, "files", status, Status::Done);
    Ok(())
}

// Runs words over the files of the working folder and two writers.
fn runs_over<R: Files, W: Write, N: Write>(
    rt: &impl Abort,
    alloc: Global,
    words: &[&str],
    input: &[u8],
    files: &R,
    said: &mut W,
    noted: &mut N,
) -> Result<(), AllocError> {
    let folder = Folder::new(files, Paths::WORKING_FOLDER);
    let mut desk = FileDesk::new(folder, Writes::new(said), Writes::new(noted));
    runs(rt, alloc, words, input, &mut desk)
}

// Runs words over recorded files. These replies are said, and nothing is noted.
fn says(
    rt: &impl Abort,
    host: &HostRuntime,
    calls: &Calls,
    words: &[&str],
    input: &[u8],
    said: &[u8],
) -> Result<(), AllocError> {
    let files = Recorded { host, calls };
    let mut noted = Vec::new(host.alloc());
    let mut spoken = Spoken {
        bytes: Vec::new(host.alloc()),
        calls,
    };
    runs_over(
        rt,
        host.alloc(),
        words,
        input,
        &files,
        &mut spoken,
        &mut noted,
    )?;
    are_bytes(rt, "said", spoken.bytes.as_slice(), said);
    are_bytes(rt, "noted", noted.as_slice(), b"");
    Ok(())
}

// A write is followed by a sync of its file at once, before anything is said.
fn syncs_each_write(rt: &impl Abort, all: &[Asked]) {
    let mut written = None;
    for asked in all {
        if let Some(name) = written {
            holds(rt, "a sync", *asked == Asked::Sync(name));
        }
        written = match *asked {
            Asked::Write(name, _) => Some(name),
            _ => None,
        };
    }
    holds(rt, "a sync", written.is_none());
}

// Nothing is opened for writing, made, written, cut or synced.
fn looks_alone(rt: &impl Abort, all: &[Asked]) {
    for asked in all {
        let looks = matches!(
            asked,
            Asked::Look(_) | Asked::Len(_) | Asked::Seek(_, _) | Asked::Read(_) | Asked::Say(_)
        );
        holds(rt, "a look", looks && *asked != Asked::Look(Name::Folder));
    }
}

// The calls of a step were in order. The slot that stood is cut at last.
fn are_ordered(rt: &impl Abort, all: &[Asked], step: &Step) {
    if step.looks {
        looks_alone(rt, all);
    } else {
        syncs_each_write(rt, all);
    }
    let is_cut = all.last() == Some(&Asked::Cut(Name::Zero, 0));
    holds(rt, "a cut", is_cut == step.cuts);
}

fn asks(
    rt: &impl Abort,
    host: &HostRuntime,
    step: &Step,
    input: &[u8],
    said: &[u8],
) -> Result<(), AllocError> {
    let calls = Calls::new(host.alloc(), NONE_FAILS);
    says(rt, host, &calls, step.words, input, said)?;
    let all = calls.all(host.alloc())?;
    are_ordered(rt, all.as_slice(), step);
    Ok(())
}

/// The files of the working folder.
const PATHS: [&str; 3] = ["ziti.0", "ziti.1", "ziti.mark"];

// A file of the working folder has these bytes; one that is wanted to have none may be absent.
fn has_file(rt: &impl Abort, host: &HostRuntime, path: &str, wanted: &[u8]) {
    match fs::read(host, path) {
        Ok(found) => are_bytes(rt, path, found.as_slice(), wanted),
        Err(_) => are_bytes(rt, path, b"", wanted),
    }
}

fn has_files(rt: &impl Abort, host: &HostRuntime, wanted: [&[u8]; 3]) {
    has_file(rt, host, "ziti.0", wanted[0]);
    has_file(rt, host, "ziti.1", wanted[1]);
    has_file(rt, host, "ziti.mark", wanted[2]);
}

// The working folder has no file of the controller.
fn has_no_file(rt: &impl Abort, host: &HostRuntime) {
    for path in PATHS {
        holds(rt, path, fs::read(host, path).is_err());
    }
}

// The files are those of a folder, or there is none.
fn is_left(rt: &impl Abort, host: &HostRuntime, behind: Option<&str>) -> Result<(), AllocError> {
    let Some(parts) = behind else {
        has_no_file(rt, host);
        return Ok(());
    };
    let folder = folder_of(host.alloc(), parts)?;
    has_files(rt, host, parts_in(&folder));
    Ok(())
}

fn makes(rt: &impl Abort, host: &HostRuntime, step: &Step) -> Result<(), AllocError> {
    let input = bytes_of(host.alloc(), step.input)?;
    let said = bytes_of(host.alloc(), step.said)?;
    asks(rt, host, step, input.as_slice(), said.as_slice())?;
    is_left(rt, host, step.behind)
}

fn removes(host: &HostRuntime) -> io::Result<()> {
    for path in PATHS {
        fs::remove_file(host, path)?;
    }
    Ok(())
}

#[test]
fn keeps_a_folder_of_files(rt: HostRuntime) -> Result<(), Fail> {
    has_no_file(&rt, &rt);
    for step in STEPS {
        makes(&rt, &rt, step)?;
    }
    removes(&rt)?;
    Ok(())
}
