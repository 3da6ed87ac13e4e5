//! Tables of runs as text, a case a line: what it is, the input and what is said as their parts, the status, the notes, and how the input is given.
//! `-` stands for nothing.

use crate::checks::{Ended, failing_desk, has_ended, has_no_folder, run_words};
use ctrl_serve::Status;
use sample_runs::{How, bytes_of, notes_of};
use std::alloc::{AllocError, Global};
use std::process::Abort;
use std::test::Fail;
use ziti_desk::MemDesk;

/// A case: its name, the parts of the input and of what is said, the name of the status, the notes, and how the input is given.
#[derive(Clone, Copy)]
struct Case<'t> {
    what: &'t str,
    input: &'t str,
    said: &'t str,
    status: &'t str,
    noted: &'t str,
    how: &'t str,
}

// The case of a line.
fn case_of(what: &str) -> Option<Case<'_>> {
    let (_, rest) = what.split_once(" | ")?;
    let (input, rest) = rest.split_once(" | ")?;
    let (said, rest) = rest.split_once(" | ")?;
    let (status, rest) = rest.split_once(" | ")?;
    let (noted, how) = rest.split_once(" | ")?;
    Some(Case {
        what,
        input,
        said,
        status,
        noted,
        how,
    })
}

/// The status of this name.
fn status_of(name: &str) -> Status {
    match name {
        "Done" => Status::Done,
        "BadInput" => Status::BadInput,
        "Truncated" => Status::Truncated,
        "ReadFault" => Status::ReadFault,
        "WriteFault" => Status::WriteFault,
        "InputTooLong" => Status::InputTooLong,
        _ => Status::NoMemory,
    }
}

// Runs words on an input that is given so, and a desk, which ends so. A word alone, as `dry`, leaves the folder empty.
fn runs_on(
    rt: &impl Abort,
    alloc: Global,
    what: &str,
    words: &[&str],
    input: &[u8],
    how: How,
    ended: Ended<'_>,
    desk: &mut MemDesk,
) -> Result<(), AllocError> {
    let status = run_words(alloc, words, how, input, desk)?;
    has_ended(rt, what, status, desk, ended);
    if words.len() == 1 {
        has_no_folder(rt, what, desk);
    }
    Ok(())
}

fn runs(
    rt: &impl Abort,
    alloc: Global,
    what: &str,
    words: &[&str],
    input: &[u8],
    how: How,
    ended: Ended<'_>,
) -> Result<(), AllocError> {
    let mut desk = failing_desk(alloc, &[how.call])?;
    runs_on(rt, alloc, what, words, input, how, ended, &mut desk)
}

fn says(
    rt: &impl Abort,
    alloc: Global,
    words: &[&str],
    case: Case<'_>,
    how: How,
    noted: &[u8],
) -> Result<(), AllocError> {
    let input = bytes_of(alloc, case.input)?;
    let said = bytes_of(alloc, case.said)?;
    let ended = (status_of(case.status), said.as_slice(), noted);
    runs(rt, alloc, case.what, words, input.as_slice(), how, ended)
}

fn check_case(
    rt: &impl Abort,
    alloc: Global,
    words: &[&str],
    case: Case<'_>,
    how: How,
) -> Result<(), AllocError> {
    let noted = notes_of(alloc, case.noted)?;
    says(rt, alloc, words, case, how, noted.as_slice())
}

/// Runs the cases of a table on words, in pieces of so many bytes where a case says nothing else.
pub(crate) fn check_cases(
    rt: &impl Abort,
    alloc: Global,
    words: &[&str],
    piece: usize,
    table: &str,
) -> Result<(), Fail> {
    for line in table.trim_ascii().lines() {
        let case = case_of(line).ok_or("a line is no case")?;
        let how = How {
            piece,
            ..How::AMPLE
        };
        check_case(rt, alloc, words, case, how.by(case.how))?;
    }
    Ok(())
}
