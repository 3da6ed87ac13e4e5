//! Runs that stop at each moment, by what the stop keeps of what is pending: what the folder then opens to, and how it goes on.

use crate::checks::{
    ANN_FOLDER, EMPTY, OLD_FOLDER, Run, answers, has_rows, holds, identities_in, left_at, ran,
};
use ctrl_serve::Status;
use sample_runs::{BOTH_ONCE, BOTH_SLOT, How, Talk, bytes_of, parts_in, parts_of};
use std::alloc::{AllocError, Global};
use std::process::Abort;
use std::test::Fail;
use ziti_desk::MemDesk;

/// A run of a word on a folder that keeps none of ann and bob, ann or both: its requests, or the parts of frames that are followed and of their replies; how many
/// of both the folder keeps before, how many the run makes, how many bytes each reply has, the least number of its moments, and the slot of both once the
/// missing ones were made.
#[derive(Clone, Copy)]
struct Trial {
    word: &'static str,
    words: &'static [&'static str],
    parts: [&'static [u8]; 3],
    rows: &'static str,
    kept: usize,
    made: usize,
    reply: usize,
    least: u64,
    both: &'static [u8],
}

/// The choices of a stop: of what is pending it keeps nothing, all, or a part.
pub(crate) const CHOICES: [u64; 3] = [0, 1, 2];

/// What makes both identities where none is there, ann, and both; and how many bytes their replies have, and those to frames that are followed.
const BOTH: &str = "1000 {\"name\":\"ann\"} -> {\"no\":1}\n1000 {\"name\":\"bob\"} -> {\"no\":2}";

const MISSING: [&str; 3] = [BOTH, "1000 {\"name\":\"bob\"} -> {\"no\":2}", ""];

const REPLY: usize = 49;

const TOOK: usize = 65;

const TRIALS: &[Trial] = &[
    // Both are made on an empty folder: each record takes two writes and two syncs, and each reply one say.
    Trial {
        word: "replay",
        words: &["replay"],
        parts: EMPTY,
        rows: BOTH,
        kept: 0,
        made: 2,
        reply: REPLY,
        least: 10,
        both: BOTH_SLOT,
    },
    // Ann's folder is compacted: the other slot is written and synced, the mark too, and the slot that stood is cut.
    Trial {
        word: "compact",
        words: &["compact"],
        parts: ANN_FOLDER,
        rows: "",
        kept: 1,
        made: 0,
        reply: REPLY,
        least: 5,
        both: BOTH_SLOT,
    },
    // Ann's folder of the first format is migrated, by the same calls.
    Trial {
        word: "replay",
        words: &["replay"],
        parts: OLD_FOLDER,
        rows: "",
        kept: 1,
        made: 0,
        reply: REPLY,
        least: 5,
        both: BOTH_ONCE,
    },
    // Behind that bob is made.
    Trial {
        word: "replay",
        words: &["replay"],
        parts: OLD_FOLDER,
        rows: "1000 {\"name\":\"bob\"} -> {\"no\":2}",
        kept: 1,
        made: 1,
        reply: REPLY,
        least: 10,
        both: BOTH_ONCE,
    },
    // Or it is compacted again.
    Trial {
        word: "compact",
        words: &["compact"],
        parts: OLD_FOLDER,
        rows: "",
        kept: 1,
        made: 0,
        reply: REPLY,
        least: 10,
        both: BOTH_ONCE,
    },
    // Both are followed into an empty folder, by the calls that make them there.
    Trial {
        word: "follow",
        words: &["follow"],
        parts: EMPTY,
        rows: "SHIP_ANN SHIP_BOB_SECOND | TOOK_1 TOOK_2_SECOND",
        kept: 0,
        made: 2,
        reply: TOOK,
        least: 10,
        both: BOTH_SLOT,
    },
    // Both take ann's place, in one record in the other slot.
    Trial {
        word: "follow",
        words: &["follow"],
        parts: ANN_FOLDER,
        rows: "SHIP_BOTH | TOOK_2",
        kept: 1,
        made: 1,
        reply: TOOK,
        least: 6,
        both: BOTH_SLOT,
    },
];

// What makes the identities that a folder does not keep, which keeps as many as before the run and as replies were taken whole, or one more that the
// run makes.
fn missing_in(rt: &impl Abort, trial: &Trial, answered: usize, kept: usize) -> &'static str {
    let known = trial.kept.saturating_add(answered);
    let most = trial.kept.saturating_add(trial.made);
    let is_next = kept == known.saturating_add(1) && kept <= most;
    holds(rt, trial.word, kept == known || is_next);
    MISSING.get(kept).unwrap_or(&"")
}

// With those that are made then, which are answered as in a whole run, a folder has the rows of both.
fn makes_both(
    rt: &impl Abort,
    alloc: Global,
    parts: [&[u8]; 3],
    rows: &str,
    both: &[u8],
) -> Result<(), AllocError> {
    let desk = answers(rt, alloc, parts, rows)?;
    has_rows(rt, alloc, parts_of(&desk), both)
}

// So it goes on from the folder that a stop leaves.
fn goes_on(
    rt: &impl Abort,
    alloc: Global,
    parts: [&[u8]; 3],
    answered: usize,
    trial: &Trial,
) -> Result<(), AllocError> {
    let kept = identities_in(rt, alloc, parts)?;
    let rows = missing_in(rt, trial, answered, kept);
    makes_both(rt, alloc, parts, rows, trial.both)
}

fn stops_at(
    rt: &impl Abort,
    alloc: Global,
    desk: &MemDesk,
    moment: u64,
    choice: u64,
    trial: &Trial,
) -> Result<(), AllocError> {
    let left = left_at(rt, alloc, desk, moment, choice)?;
    let answered = left.taken / trial.reply.max(1);
    goes_on(rt, alloc, parts_in(&left.images), answered, trial)
}

fn stops_by(
    rt: &impl Abort,
    alloc: Global,
    desk: &MemDesk,
    choice: u64,
    trial: &Trial,
) -> Result<(), AllocError> {
    for moment in 0u64..desk.moments().saturating_add(1) {
        stops_at(rt, alloc, desk, moment, choice, trial)?;
    }
    Ok(())
}

// Stops a run on a desk at each moment, by each choice.
fn stops_on(
    rt: &impl Abort,
    alloc: Global,
    trial: &Trial,
    desk: &MemDesk,
) -> Result<(), AllocError> {
    holds(rt, trial.word, desk.moments() >= trial.least);
    for choice in CHOICES {
        stops_by(rt, alloc, desk, choice, trial)?;
    }
    Ok(())
}

// Makes a run, and stops it.
fn stops<'x>(
    rt: &impl Abort,
    alloc: Global,
    trial: &Trial,
    input: &'x [u8],
    said: &'x [u8],
) -> Result<(), AllocError> {
    let run = Run {
        what: trial.word,
        words: trial.words,
        how: How::AMPLE,
        input,
        ended: (Status::Done, said, b""),
    };
    let desk = ran(rt, alloc, &run, trial.parts)?;
    stops_on(rt, alloc, trial, &desk)
}

// Where frames are followed.
fn check_followed(
    rt: &impl Abort,
    alloc: Global,
    trial: &Trial,
    shipped: &str,
    taken: &str,
) -> Result<(), AllocError> {
    let input = bytes_of(alloc, shipped)?;
    let said = bytes_of(alloc, taken)?;
    stops(rt, alloc, trial, input.as_slice(), said.as_slice())
}

fn check_trial(rt: &impl Abort, alloc: Global, trial: &Trial) -> Result<(), AllocError> {
    if let Some((shipped, taken)) = trial.rows.split_once(" | ") {
        return check_followed(rt, alloc, trial, shipped, taken);
    }
    let talk = Talk::of(alloc, trial.rows)?;
    stops(rt, alloc, trial, talk.input(), talk.wanted())
}

#[test]
fn keeps_both_whatever_is_kept_of_what_is_pending(rt: HostRuntime) -> Result<(), Fail> {
    for trial in TRIALS {
        check_trial(&rt, rt.alloc(), trial)?;
    }
    Ok(())
}
