//! Runs that ship in which each call fails in turn. What is shipped of folders stands among the cases on folders.

use crate::checks::{desk_on, has_parts, has_told, holds, is_status, run_words};
use ctrl_serve::Status;
use sample_runs::{How, bytes_of, folder_of, parts_in};
use std::alloc::{AllocError, Global};
use std::process::Abort;
use std::test::Fail;
use ziti_desk::MemDesk;

/// A folder, what is shipped of it whole, how many bytes of it end with a whole frame, and the least number of the reads.
type Trial = (&'static str, &'static str, &'static [usize], usize);

const TRIALS: &[Trial] = &[
    ("- - -", "-", &[0], 1),
    ("OLD_ANN - FIRST", "SHIP_OLD_ANN", &[0, 88], 4),
    (
        r"HEADER+ANN_KEPT+BOB_KEPT+\0 - FIRST",
        "SHIP_ANN SHIP_BOB_SECOND",
        &[0, 103, 206],
        8,
    ),
];

// What was said at a fault is the first frames, each whole, and how it ended was noted.
fn check_told(rt: &impl Abort, desk: &MemDesk, status: Status, all: &[u8], ends: &[usize]) {
    let said = desk.said();
    holds(rt, "whole frames", ends.contains(&said.len()));
    holds(rt, "a front", all.starts_with(said));
    match status {
        Status::DiskFault => has_told(rt, "disk", desk, said, b"zitictl: disk fault\n"),
        Status::WriteFault => has_told(rt, "say", desk, said, b"zitictl: write fault\n"),
        _ => has_told(rt, "whole", desk, all, b""),
    }
}

fn ends_on(
    rt: &impl Abort,
    alloc: Global,
    all: &[u8],
    ends: &[usize],
    desk: &mut MemDesk,
) -> Result<Status, AllocError> {
    let status = run_words(alloc, "ship,0", How::AMPLE, b"left", desk)?;
    check_told(rt, desk, status, all, ends);
    Ok(status)
}

// Ships a folder whole where one call of the desk fails. The folder stays.
fn fails_at(
    rt: &impl Abort,
    alloc: Global,
    parts: [&[u8]; 3],
    all: &[u8],
    ends: &[usize],
    call: u32,
) -> Result<Status, AllocError> {
    let mut desk = desk_on(alloc, parts, &[call])?;
    let status = ends_on(rt, alloc, all, ends, &mut desk)?;
    has_parts(rt, "failing", &desk, parts);
    Ok(status)
}

// Each call fails in turn, until there is no such call. Answers how many reads there are, and how many says.
fn fails_in_turn(
    rt: &impl Abort,
    alloc: Global,
    parts: [&[u8]; 3],
    all: &[u8],
    ends: &[usize],
) -> Result<[usize; 2], AllocError> {
    let mut counts = [0usize; 2];
    for call in 0u32..64 {
        match fails_at(rt, alloc, parts, all, ends, call)? {
            Status::DiskFault => counts[0] = counts[0].saturating_add(1),
            Status::WriteFault => counts[1] = counts[1].saturating_add(1),
            status => {
                is_status(rt, "whole", status, Status::Done);
                break;
            }
        }
    }
    Ok(counts)
}

// There are so many reads at least, and a say for each frame.
fn check_counts(
    rt: &impl Abort,
    alloc: Global,
    trial: &Trial,
    parts: [&[u8]; 3],
    all: &[u8],
) -> Result<(), AllocError> {
    let (_, _, ends, least) = *trial;
    let [reads, says] = fails_in_turn(rt, alloc, parts, all, ends)?;
    holds(rt, "reads", reads >= least && reads < 60);
    holds(rt, "says", says.saturating_add(1) == ends.len());
    Ok(())
}

fn check_trial(rt: &impl Abort, alloc: Global, trial: &Trial) -> Result<(), AllocError> {
    let (folder, shipped, _, _) = *trial;
    let folder = folder_of(alloc, folder)?;
    let all = bytes_of(alloc, shipped)?;
    check_counts(rt, alloc, trial, parts_in(&folder), all.as_slice())
}

#[test]
fn ends_at_each_failing_call(rt: HostRuntime) -> Result<(), Fail> {
    for trial in TRIALS {
        check_trial(&rt, rt.alloc(), trial)?;
    }
    Ok(())
}
