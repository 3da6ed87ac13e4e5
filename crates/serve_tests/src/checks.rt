//! Runs over memory, and comparisons, each of which is proved once: an assertion of its own in each test is what makes a proof slow.

use ctrl_serve::{Bounds, Status, run_within};
use sample_runs::{How, Talk, desk_of, parts_of, source_of, words_of};
use std::alloc::{AllocError, Global};
use std::process::Abort;
use std::test::Fail;
use ziti_desk::{MemDesk, Room};

/// Room for ten thousand replies, for the folder of a realistic network, and for the log of its run.
const ROOM: Room = Room {
    file_bytes: 524_288,
    said_bytes: 1_048_576,
    noted_bytes: 4_096,
    log_bytes: 1_572_864,
};

/// How a run ends: its status, what is said, and what is noted.
pub(crate) type Ended<'b> = (Status, &'b [u8], &'b [u8]);

/// In a case bytes are the wanted ones.
pub(crate) fn are_bytes(rt: &impl Abort, what: &str, found: &[u8], wanted: &[u8]) {
    assert_eq!(rt; found, wanted, "{what}");
}

/// In a case a run ended so.
pub(crate) fn is_status(rt: &impl Abort, what: &str, found: Status, wanted: Status) {
    assert_eq!(rt; found, wanted, "{what}");
}

/// In a case this holds.
pub(crate) fn holds(rt: &impl Abort, what: &str, it: bool) {
    assert!(rt; it, "{what}");
}

/// In a case a run on a desk ended so.
pub(crate) fn has_ended(
    rt: &impl Abort,
    what: &str,
    status: Status,
    desk: &MemDesk,
    ended: Ended<'_>,
) {
    let (wanted, said, noted) = ended;
    are_bytes(rt, what, desk.said(), said);
    is_status(rt, what, status, wanted);
    are_bytes(rt, what, desk.noted(), noted);
}

/// In a case no part of a desk's folder has a byte.
pub(crate) fn has_no_folder(rt: &impl Abort, what: &str, desk: &MemDesk) {
    for part in parts_of(desk) {
        are_bytes(rt, what, part, b"");
    }
}

/// A desk with an empty folder, which fails at these calls, counted from 0.
pub(crate) fn failing_desk(alloc: Global, failing: &[u32]) -> Result<MemDesk, AllocError> {
    desk_of(alloc, ROOM, [b"", b"", b""], failing)
}

/// A desk with an empty folder that does not fail.
pub(crate) fn steady_desk(alloc: Global) -> Result<MemDesk, AllocError> {
    failing_desk(alloc, &[])
}

/// Runs words on an input that is given so, and a desk.
pub(crate) fn run_words(
    alloc: Global,
    words: &[&str],
    how: How,
    input: &[u8],
    desk: &mut MemDesk,
) -> Result<Status, AllocError> {
    let bounds = Bounds {
        input: how.most.min(2_097_152),
        slot: how.slot.clamp(64, 1_048_576),
        mark: how.mark.clamp(1, 1_024),
    };
    let line = words_of(alloc, words)?;
    let mut source = source_of(alloc, input, how.piece, &[how.take])?;
    Ok(run_within(alloc, &line, bounds, &mut source, desk))
}

/// Runs words on an input and a desk.
pub(crate) fn run_input(
    alloc: Global,
    words: &[&str],
    input: &[u8],
    desk: &mut MemDesk,
) -> Result<Status, AllocError> {
    run_words(alloc, words, How::AMPLE, input, desk)
}

// Runs the frames of a talk without a folder, and compares all replies.
fn check_talk(rt: &impl Abort, alloc: Global, what: &str, talk: &Talk) -> Result<(), AllocError> {
    let mut desk = steady_desk(alloc)?;
    let status = run_input(alloc, &["dry"], talk.input(), &mut desk)?;
    has_ended(rt, what, status, &desk, (Status::Done, talk.wanted(), b""));
    Ok(())
}

fn check_run(rt: &impl Abort, alloc: Global, run: &str) -> Result<(), AllocError> {
    let talk = Talk::of(alloc, run)?;
    check_talk(rt, alloc, run, &talk)
}

/// Runs the rows of a text. Each run begins at the start, and ends at an empty line.
pub(crate) fn check_runs(rt: &impl Abort, alloc: Global, runs: &str) -> Result<(), Fail> {
    for run in runs.split("\n\n") {
        check_run(rt, alloc, run)?;
    }
    Ok(())
}
