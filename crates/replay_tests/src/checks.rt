//! Runs on a folder over memory, and comparisons, each of which is proved once: an assertion of its own in each test is what makes a proof slow.

use ctrl_serve::{Bounds, Status, run_within};
use sample_runs::{
    ANN_ALONE, ANN_SLOT, BOTH, FIRST, How, NOTHING, OLD_ANN, Talk, desk_of, parts_of, source_of,
    words_of,
};
use std::alloc::{AllocError, Global};
use std::process::Abort;
use std::test::Fail;
use ziti_desk::{Images, MemDesk, Room};

/// Room for some hundred replies and notes, for slots of some thousand rows, and for the log of a run.
const ROOM: Room = Room {
    file_bytes: 262_144,
    said_bytes: 65_536,
    noted_bytes: 4_096,
    log_bytes: 524_288,
};

/// A folder without a byte, the one that keeps ann alone, and the same in the first format.
pub(crate) const EMPTY: [&[u8]; 3] = [b"", b"", b""];

pub(crate) const ANN_FOLDER: [&[u8]; 3] = [ANN_SLOT, b"", FIRST];

pub(crate) const OLD_FOLDER: [&[u8]; 3] = [OLD_ANN, b"", FIRST];

/// How a run ends: its status, what is said, and what is noted.
pub(crate) type Ended<'b> = (Status, &'b [u8], &'b [u8]);

/// A run: what it is, its words, how it is bounded, its input, and how it ends.
#[derive(Clone, Copy)]
pub(crate) struct Run<'r> {
    pub(crate) what: &'r str,
    pub(crate) words: &'r [&'r str],
    pub(crate) how: How,
    pub(crate) input: &'r [u8],
    pub(crate) ended: Ended<'r>,
}

/// A compaction and a replay of no frame, at which nothing is said or noted.
pub(crate) const COMPACT: Run<'static> = Run {
    what: "compact",
    words: &["compact"],
    how: How::AMPLE,
    input: b"",
    ended: (Status::Done, b"", b""),
};

pub(crate) const REST: Run<'static> = Run {
    what: "rest",
    words: &["replay"],
    how: How::AMPLE,
    input: b"",
    ended: (Status::Done, b"", b""),
};

/// The replay of a talk's frames, which are answered as they have to be.
pub(crate) fn replay_of<'r>(what: &'r str, how: How, talk: &'r Talk) -> Run<'r> {
    Run {
        what,
        words: &["replay"],
        how,
        input: talk.input(),
        ended: (Status::Done, talk.wanted(), b""),
    }
}

/// In a case bytes are the wanted ones.
pub(crate) fn are_bytes(rt: &impl Abort, what: &str, found: &[u8], wanted: &[u8]) {
    assert_eq!(rt; found, wanted, "{what}");
}

/// In a case a run ended so.
pub(crate) fn is_status(rt: &impl Abort, what: &str, found: Status, wanted: Status) {
    assert_eq!(rt; found, wanted, "{what}");
}

/// In a case this holds.
pub(crate) fn holds(rt: &impl Abort, what: &str, it: bool) {
    assert!(rt; it, "{what}");
}

/// In a case so was said in all runs on a desk, and so noted.
pub(crate) fn has_told(rt: &impl Abort, what: &str, desk: &MemDesk, said: &[u8], noted: &[u8]) {
    are_bytes(rt, what, desk.said(), said);
    are_bytes(rt, what, desk.noted(), noted);
}

/// In a case the parts of a desk's folder read so.
pub(crate) fn has_parts(rt: &impl Abort, what: &str, desk: &MemDesk, parts: [&[u8]; 3]) {
    let [zero, one, mark] = parts_of(desk);
    are_bytes(rt, what, zero, parts[0]);
    are_bytes(rt, what, one, parts[1]);
    are_bytes(rt, what, mark, parts[2]);
}

/// A desk whose folder has these parts, and which fails at these calls, counted from 0.
pub(crate) fn desk_on(
    alloc: Global,
    parts: [&[u8]; 3],
    failing: &[u32],
) -> Result<MemDesk, AllocError> {
    desk_of(alloc, ROOM, parts, failing)
}

/// Runs words on an input and a desk.
pub(crate) fn run_words(
    alloc: Global,
    words: &[&str],
    how: How,
    input: &[u8],
    desk: &mut MemDesk,
) -> Result<Status, AllocError> {
    let bounds = Bounds {
        input: how.most.min(2_097_152),
        slot: how.slot.clamp(64, 1_048_576),
        mark: how.mark.clamp(1, 1_024),
    };
    let line = words_of(alloc, words)?;
    let mut source = source_of(alloc, input, how.piece, &[how.take])?;
    Ok(run_within(alloc, &line, bounds, &mut source, desk))
}

/// A run on a desk ends so, as does all that was said and noted there.
pub(crate) fn ends(
    rt: &impl Abort,
    alloc: Global,
    run: &Run<'_>,
    desk: &mut MemDesk,
) -> Result<(), AllocError> {
    let status = run_words(alloc, run.words, run.how, run.input, desk)?;
    let (wanted, said, noted) = run.ended;
    is_status(rt, run.what, status, wanted);
    has_told(rt, run.what, desk, said, noted);
    Ok(())
}

/// A run on a folder of these parts ends so. Answers the desk.
pub(crate) fn ran(
    rt: &impl Abort,
    alloc: Global,
    run: &Run<'_>,
    parts: [&[u8]; 3],
) -> Result<MemDesk, AllocError> {
    let mut desk = desk_on(alloc, parts, &[])?;
    ends(rt, alloc, run, &mut desk)?;
    Ok(desk)
}

fn leaves_on(
    rt: &impl Abort,
    alloc: Global,
    run: &Run<'_>,
    desk: &mut MemDesk,
    behind: [&[u8]; 3],
) -> Result<(), AllocError> {
    ends(rt, alloc, run, desk)?;
    has_parts(rt, run.what, desk, behind);
    Ok(())
}

/// A run on a folder of these parts ends so, and leaves one of those behind it.
pub(crate) fn leaves(
    rt: &impl Abort,
    alloc: Global,
    run: &Run<'_>,
    parts: [&[u8]; 3],
    behind: [&[u8]; 3],
) -> Result<(), AllocError> {
    let mut desk = desk_on(alloc, parts, &[])?;
    leaves_on(rt, alloc, run, &mut desk, behind)
}

/// Replays the rows of a text on a folder of these parts, which are answered as they have to be. Answers the desk.
pub(crate) fn answers(
    rt: &impl Abort,
    alloc: Global,
    parts: [&[u8]; 3],
    text: &str,
) -> Result<MemDesk, AllocError> {
    let talk = Talk::of(alloc, text)?;
    ran(rt, alloc, &replay_of(text, How::AMPLE, &talk), parts)
}

/// Replays the rows of a text on a folder of these parts, which are answered as they have to be and leave one of those behind them.
pub(crate) fn answers_leaving(
    rt: &impl Abort,
    alloc: Global,
    how: How,
    text: &str,
    parts: [&[u8]; 3],
    behind: [&[u8]; 3],
) -> Result<(), AllocError> {
    let talk = Talk::of(alloc, text)?;
    leaves(rt, alloc, &replay_of(text, how, &talk), parts, behind)
}

// The place of what was said among some texts.
fn place_of(rt: &impl Abort, said: &[u8], texts: &[&[u8]]) -> usize {
    let mut place = 0usize;
    for text in texts {
        if said == *text {
            return place;
        }
        place = place.saturating_add(1);
    }
    are_bytes(rt, "none of the texts", said, b"");
    place
}

fn says_on(
    rt: &impl Abort,
    alloc: Global,
    words: &[&str],
    input: &[u8],
    texts: &[&[u8]],
    desk: &mut MemDesk,
) -> Result<usize, AllocError> {
    let status = run_words(alloc, words, How::AMPLE, input, desk)?;
    is_status(rt, "says", status, Status::Done);
    are_bytes(rt, "says", desk.noted(), b"");
    Ok(place_of(rt, desk.said(), texts))
}

/// Which of some texts words say on an input and a folder of these parts: its place. Nothing is noted.
pub(crate) fn says_one_of(
    rt: &impl Abort,
    alloc: Global,
    words: &[&str],
    input: &[u8],
    parts: [&[u8]; 3],
    texts: &[&[u8]],
) -> Result<usize, AllocError> {
    let mut desk = desk_on(alloc, parts, &[])?;
    says_on(rt, alloc, words, input, texts, &mut desk)
}

/// How many identities a folder of these parts keeps, from none to two, and nothing else. It is not damaged.
pub(crate) fn identities_in(
    rt: &impl Abort,
    alloc: Global,
    parts: [&[u8]; 3],
) -> Result<usize, AllocError> {
    says_one_of(
        rt,
        alloc,
        &["audit"],
        b"",
        parts,
        &[NOTHING, ANN_ALONE, BOTH],
    )
}

/// What a stop left: the folder, and how many bytes of replies were taken.
#[derive(Drop)]
pub(crate) struct Left {
    pub(crate) images: Images,
    pub(crate) taken: usize,
}

/// What a stop at a moment of a desk leaves, by a choice. What was said up to it is a front of what the whole run says.
pub(crate) fn left_at(
    rt: &impl Abort,
    alloc: Global,
    desk: &MemDesk,
    moment: u64,
    choice: u64,
) -> Result<Left, AllocError> {
    assert!(rt; moment <= desk.moments());
    let (images, taken) = desk.stopped(alloc, moment, choice)?;
    holds(rt, "a front", desk.said().starts_with(taken.as_slice()));
    Ok(Left {
        images,
        taken: taken.len(),
    })
}

// The slot that stands, by the length of the mark.
fn standing(parts: [&[u8]; 3]) -> &[u8] {
    let [zero, one, mark] = parts;
    if mark.len() % 2 == 1 {
        return zero;
    }
    one
}

fn has_rows_on(
    rt: &impl Abort,
    alloc: Global,
    slot: &[u8],
    desk: &mut MemDesk,
) -> Result<(), AllocError> {
    ends(rt, alloc, &COMPACT, desk)?;
    let found = standing(parts_of(desk));
    are_bytes(rt, "rows", found.get(..slot.len()).unwrap_or(found), slot);
    Ok(())
}

/// A folder of these parts has the rows of this slot: compacted, the slot that stands begins with it.
pub(crate) fn has_rows(
    rt: &impl Abort,
    alloc: Global,
    parts: [&[u8]; 3],
    slot: &[u8],
) -> Result<(), AllocError> {
    let mut desk = desk_on(alloc, parts, &[])?;
    has_rows_on(rt, alloc, slot, &mut desk)
}
