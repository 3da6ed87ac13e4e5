//! Runs in which each call of the desk fails in turn: how they end, what is said and noted, and to what the folder then opens.

use crate::checks::{desk_on, has_told, holds, identities_in, is_status, run_words};
use crate::stops::CHOICES;
use ctrl_serve::Status;
use sample_runs::{How, bytes_of, folder_of, parts_in, parts_of};
use std::alloc::{AllocError, Global};
use std::process::Abort;
use std::test::Fail;
use ziti_desk::{Images, MemDesk};

/// Words, the folder, the input and what the whole run says, as their parts; and how many identities the folder keeps before the run and behind it, the least
/// number of its calls on the disk, which are reads and lengths, writes, cuts and syncs, and how often it says.
type Trial = (
    &'static [&'static str],
    [&'static str; 3],
    [usize; 2],
    [usize; 2],
);

const TRIALS: &[Trial] = &[
    // Ann's frame on an empty folder, which is created by two writes and two syncs, and takes her record by as many.
    (&["replay"], ["- - -", "ANN", "MADE"], [0, 1], [8, 1]),
    // Bob's frame on ann's folder: two syncs where it is opened, two writes and two syncs.
    (
        &["replay"],
        ["ANN_SLOT - FIRST", "BOB", "BOB_MADE"],
        [1, 2],
        [6, 1],
    ),
    // Ann's frame of a session.
    (
        &["replay", "--sessions"],
        ["- - -", "OPEN_0 ANN_OF_0 CLOSE_0", "MADE_OF_0"],
        [0, 1],
        [8, 1],
    ),
    // A look at ann's folder: the length of the mark, and that and the bytes of the slot.
    (
        &["audit"],
        ["ANN_SLOT - FIRST", "-", "ANN_ALONE"],
        [1, 1],
        [3, 1],
    ),
    // Advice by it.
    (
        &["advise", "ann", "web"],
        ["ANN_SLOT - FIRST", "-", "NO_SERVICE"],
        [1, 1],
        [3, 1],
    ),
    // Its compaction: two syncs where it is opened, two writes, two syncs and a cut.
    (&["compact"], ["ANN_SLOT - FIRST", "-", "-"], [1, 1], [7, 0]),
    // The migration of her folder of the first format takes as many; and so it is with bob's frame behind it, and with a compaction.
    (&["replay"], ["OLD_ANN - FIRST", "-", "-"], [1, 1], [7, 0]),
    (
        &["replay"],
        ["OLD_ANN - FIRST", "BOB", "BOB_MADE"],
        [1, 2],
        [11, 1],
    ),
    (&["compact"], ["OLD_ANN - FIRST", "-", "-"], [1, 1], [12, 0]),
    // What is followed: ann's record on an empty folder, bob's on hers, and one of both in its place, which is written to the other slot.
    (&["follow"], ["- - -", "SHIP_ANN", "TOOK_1"], [0, 1], [8, 1]),
    (
        &["follow"],
        ["ANN_SLOT - FIRST", "SHIP_BOB", "TOOK_2"],
        [1, 2],
        [6, 1],
    ),
    (
        &["follow"],
        ["ANN_SLOT - FIRST", "SHIP_BOTH", "TOOK_2"],
        [1, 2],
        [7, 1],
    ),
];

/// The bytes of a trial: the folder, the input, and what the whole run says.
#[derive(Drop)]
struct Given {
    folder: Images,
    input: Vec<u8>,
    said: Vec<u8>,
}

// What is said and noted at a status: at a fault nothing is said.
fn check_told(rt: &impl Abort, desk: &MemDesk, status: Status, said: &[u8]) {
    match status {
        Status::DiskFault => has_told(rt, "disk", desk, b"", b"zitictl: disk fault\n"),
        Status::WriteFault => has_told(rt, "say", desk, b"", b"zitictl: write fault\n"),
        _ => has_told(rt, "whole", desk, said, b""),
    }
}

// A folder of these parts opens, and keeps as many identities as behind the run, or, where the disk failed, as before it.
fn is_kept(
    rt: &impl Abort,
    alloc: Global,
    kept: [usize; 2],
    status: Status,
    parts: [&[u8]; 3],
) -> Result<(), AllocError> {
    let [before, behind] = kept;
    let found = identities_in(rt, alloc, parts)?;
    let is_before = status == Status::DiskFault && found == before;
    holds(rt, "kept", found == behind || is_before);
    Ok(())
}

// So does the one that a stop leaves behind all calls.
fn is_left(
    rt: &impl Abort,
    alloc: Global,
    kept: [usize; 2],
    status: Status,
    desk: &MemDesk,
    choice: u64,
) -> Result<(), AllocError> {
    let (images, _) = desk.stopped(alloc, desk.moments(), choice)?;
    is_kept(rt, alloc, kept, status, parts_in(&images))
}

// A run ended with a status on a desk.
fn has_ended(
    rt: &impl Abort,
    alloc: Global,
    kept: [usize; 2],
    status: Status,
    desk: &MemDesk,
) -> Result<(), AllocError> {
    is_kept(rt, alloc, kept, status, parts_of(desk))?;
    for choice in CHOICES {
        is_left(rt, alloc, kept, status, desk, choice)?;
    }
    Ok(())
}

// Makes a trial on a desk.
fn ends_on(
    rt: &impl Abort,
    alloc: Global,
    trial: &Trial,
    given: &Given,
    desk: &mut MemDesk,
) -> Result<Status, AllocError> {
    let (words, _, kept, _) = *trial;
    let status = run_words(alloc, words, How::AMPLE, given.input.as_slice(), desk)?;
    check_told(rt, desk, status, given.said.as_slice());
    has_ended(rt, alloc, kept, status, desk)?;
    Ok(status)
}

// Makes a trial in which one call of the desk fails.
fn fails_at(
    rt: &impl Abort,
    alloc: Global,
    trial: &Trial,
    given: &Given,
    call: u32,
) -> Result<Status, AllocError> {
    let mut desk = desk_on(alloc, parts_in(&given.folder), &[call])?;
    ends_on(rt, alloc, trial, given, &mut desk)
}

// Each call of the desk fails in turn, until there is no such call: first all those on the disk, then the say. Where that fails the
// folder is as behind the whole run. Answers how many of either there are.
fn fails_in_turn(
    rt: &impl Abort,
    alloc: Global,
    trial: &Trial,
    given: &Given,
) -> Result<[usize; 2], AllocError> {
    let mut counts = [0usize; 2];
    for call in 0u32..64 {
        match fails_at(rt, alloc, trial, given, call)? {
            Status::DiskFault => counts[0] = counts[0].saturating_add(1),
            Status::WriteFault => counts[1] = counts[1].saturating_add(1),
            status => {
                is_status(rt, "whole", status, Status::Done);
                break;
            }
        }
    }
    Ok(counts)
}

// So many calls on the disk there are at least, and so many says.
fn check_given(
    rt: &impl Abort,
    alloc: Global,
    trial: &Trial,
    given: &Given,
) -> Result<(), AllocError> {
    let (_, _, _, [least, wanted]) = *trial;
    let [disk, says] = fails_in_turn(rt, alloc, trial, given)?;
    holds(rt, "calls on the disk", disk >= least && disk < 60);
    holds(rt, "says", says == wanted);
    Ok(())
}

fn check_trial(rt: &impl Abort, alloc: Global, trial: &Trial) -> Result<(), AllocError> {
    let (_, [folder, input, said], _, _) = *trial;
    let given = Given {
        folder: folder_of(alloc, folder)?,
        input: bytes_of(alloc, input)?,
        said: bytes_of(alloc, said)?,
    };
    check_given(rt, alloc, trial, &given)
}

#[test]
fn ends_at_each_failing_call(rt: HostRuntime) -> Result<(), Fail> {
    for trial in TRIALS {
        check_trial(&rt, rt.alloc(), trial)?;
    }
    Ok(())
}
