//! Runs on folders over memory, and comparisons, each of which is proved once: an assertion of its own in each test is what makes a proof slow.

use ctrl_serve::{Bounds, Status, run_within};
use sample_runs::{How, Talk, desk_of, parts_of, source_of};
use std::alloc::{AllocError, Global};
use std::process::Abort;
use ziti_desk::{MemDesk, Room};

/// Room for some hundred replies and notes, for slots of some thousand rows, and for the log of a run.
const ROOM: Room = Room {
    file_bytes: 262_144,
    said_bytes: 65_536,
    noted_bytes: 4_096,
    log_bytes: 524_288,
};

/// A folder without a byte.
pub(crate) const EMPTY: [&[u8]; 3] = [b"", b"", b""];

/// How a run ends: its status, what is said, and what is noted.
pub(crate) type Ended<'b> = (Status, &'b [u8], &'b [u8]);

/// A run: what it is, its words, between which there is a comma, how it is bounded, its input, and how it ends.
#[derive(Clone, Copy)]
pub(crate) struct Run<'r> {
    pub(crate) what: &'r str,
    pub(crate) words: &'r str,
    pub(crate) how: How,
    pub(crate) input: &'r [u8],
    pub(crate) ended: Ended<'r>,
}

/// In a case bytes are the wanted ones.
pub(crate) fn are_bytes(rt: &impl Abort, what: &str, found: &[u8], wanted: &[u8]) {
    assert_eq!(rt; found, wanted, "{what}");
}

/// In a case a run ended so.
pub(crate) fn is_status(rt: &impl Abort, what: &str, found: Status, wanted: Status) {
    assert_eq!(rt; found, wanted, "{what}");
}

/// In a case this holds.
pub(crate) fn holds(rt: &impl Abort, what: &str, it: bool) {
    assert!(rt; it, "{what}");
}

/// In a case so was said in all runs on a desk, and so noted.
pub(crate) fn has_told(rt: &impl Abort, what: &str, desk: &MemDesk, said: &[u8], noted: &[u8]) {
    are_bytes(rt, what, desk.said(), said);
    are_bytes(rt, what, desk.noted(), noted);
}

/// In a case the parts of a desk's folder read so.
pub(crate) fn has_parts(rt: &impl Abort, what: &str, desk: &MemDesk, parts: [&[u8]; 3]) {
    let [zero, one, mark] = parts_of(desk);
    are_bytes(rt, what, zero, parts[0]);
    are_bytes(rt, what, one, parts[1]);
    are_bytes(rt, what, mark, parts[2]);
}

/// A desk whose folder has these parts, and which fails at these calls, counted from 0.
pub(crate) fn desk_on(
    alloc: Global,
    parts: [&[u8]; 3],
    failing: &[u32],
) -> Result<MemDesk, AllocError> {
    desk_of(alloc, ROOM, parts, failing)
}

// The words of a line, between which there is a comma.
fn line_of(alloc: Global, words: &str) -> Result<Vec<String>, AllocError> {
    let mut line = Vec::new(alloc);
    for word in words.split(',') {
        line.push(String::from_str(alloc, word)?)?;
    }
    Ok(line)
}

/// Runs words on an input and a desk.
pub(crate) fn run_words(
    alloc: Global,
    words: &str,
    how: How,
    input: &[u8],
    desk: &mut MemDesk,
) -> Result<Status, AllocError> {
    let bounds = Bounds {
        input: how.most.min(2_097_152),
        slot: how.slot.clamp(64, 1_048_576),
        mark: how.mark.clamp(1, 1_024),
    };
    let line = line_of(alloc, words)?;
    let mut source = source_of(alloc, input, how.piece, &[how.take])?;
    Ok(run_within(alloc, &line, bounds, &mut source, desk))
}

// A run on a desk ends so, as does all that was said and noted there.
fn ends(
    rt: &impl Abort,
    alloc: Global,
    run: &Run<'_>,
    desk: &mut MemDesk,
) -> Result<(), AllocError> {
    let status = run_words(alloc, run.words, run.how, run.input, desk)?;
    let (wanted, said, noted) = run.ended;
    is_status(rt, run.what, status, wanted);
    has_told(rt, run.what, desk, said, noted);
    Ok(())
}

/// A run on a folder of these parts ends so. Answers the desk.
pub(crate) fn ran(
    rt: &impl Abort,
    alloc: Global,
    run: &Run<'_>,
    parts: [&[u8]; 3],
) -> Result<MemDesk, AllocError> {
    let mut desk = desk_on(alloc, parts, &[])?;
    ends(rt, alloc, run, &mut desk)?;
    Ok(desk)
}

fn leaves_on(
    rt: &impl Abort,
    alloc: Global,
    run: &Run<'_>,
    desk: &mut MemDesk,
    behind: [&[u8]; 3],
) -> Result<u64, AllocError> {
    ends(rt, alloc, run, desk)?;
    has_parts(rt, run.what, desk, behind);
    Ok(desk.moments())
}

/// A run on a folder of these parts ends so, and leaves one of those behind it. Answers how many moments it had.
pub(crate) fn leaves(
    rt: &impl Abort,
    alloc: Global,
    run: &Run<'_>,
    parts: [&[u8]; 3],
    behind: [&[u8]; 3],
) -> Result<u64, AllocError> {
    let mut desk = desk_on(alloc, parts, &[])?;
    leaves_on(rt, alloc, run, &mut desk, behind)
}

// The replay of a talk's frames, which are answered as they have to be.
fn replay_of<'r>(what: &'r str, talk: &'r Talk) -> Run<'r> {
    Run {
        what,
        words: "replay",
        how: How::AMPLE,
        input: talk.input(),
        ended: (Status::Done, talk.wanted(), b""),
    }
}

/// Replays the rows of a text on a folder of these parts, which are answered as they have to be. Answers the desk.
pub(crate) fn answers(
    rt: &impl Abort,
    alloc: Global,
    parts: [&[u8]; 3],
    text: &str,
) -> Result<MemDesk, AllocError> {
    let talk = Talk::of(alloc, text)?;
    ran(rt, alloc, &replay_of(text, &talk), parts)
}
