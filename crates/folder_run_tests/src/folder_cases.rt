//! Runs on folders, a case a line: the looks, the compactions, the advice on folders that keep nothing, how replays end, what is damaged,
//! what is shipped of folders of either format from a serial on, words that are no serial, and runs that follow and end early.

use crate::checks::{Run, holds, leaves};
use ctrl_serve::Status;
use sample_runs::{How, bytes_of, folder_of, notes_of, parts_in};
use std::alloc::{AllocError, Global};
use std::process::Abort;
use std::test::Fail;
use ziti_desk::Images;

/// The words, between which there is a comma, the folder before, how it is bounded, the input, the name of the status, what is said, the notes, and the folder behind the run, which `=` says
/// is as before. `-` stands for nothing. Ann takes 57 bytes of a slot, both identities 73 as one record, and all three 101.
const CASES: &str = r#"
audit | ANN_SLOT - FIRST | - | - | Done | ANN_ALONE | - | =
audit | - - - | - | - | Done | NOTHING | - | =
audit | ANY ANY - | - | - | Done | NOTHING | - | =
audit | ANN_SLOT BOTH_SLOT - | - | - | Done | NOTHING | - | =
audit | ANN_SLOT BOTH_SLOT SECOND | - | - | Done | BOTH | - | =
audit | ANY BOTH_SLOT SECOND | - | - | Done | BOTH | - | =
audit | BARE_SLOT ANN_SLOT FIRST | - | - | Done | NOTHING | - | =
audit | - ANN_SLOT FIRST | - | - | Damaged | - | damaged: file 0 at 0 | =
advise,ann,web | - - - | - | - | Done | NO_ONE | - | =
advise,ann,web | ANN_SLOT - - | - | - | Done | NO_ONE | - | =
advise,ann,web | PENDING_SLOT - FIRST | - | - | Done | NO_ONE | - | =
advise,ann,web | - ANN_SLOT FIRST | - | - | Damaged | - | damaged: file 0 at 0 | =
advise,ann,web | FOREIGN_SLOT ANN_SLOT FIRST | - | - | Damaged | - | damaged: file 0 at 0 | =
compact | ANN_SLOT - FIRST | slot=64 mark=2 | - | Done | - | - | - ANN_SLOT SECOND
compact | any+\x20+bytes ANN_SLOT SECOND | slot=64 mark=3 | - | Done | - | - | ANN_SLOT - THIRD
compact | ANN_SLOT - THIRD | slot=1024 mark=4 | - | Done | - | - | - ANN_SLOT \0\0\0\0
compact | BOTH_SLOT - FIRST | slot=73 mark=2 | - | Done | - | - | - BOTH_SLOT SECOND
compact | BARE_SLOT - FIRST | slot=64 mark=2 | - | Done | - | - | - BARE_SLOT SECOND
compact | - - - | slot=64 mark=2 | - | Done | - | - | - BARE_SLOT SECOND
compact | other+\x20+bytes - - | slot=64 mark=2 | - | Done | - | - | - BARE_SLOT SECOND
compact | ANN_SLOT - FIRST | slot=1024 mark=1 | - | FolderFull | - | mark full | =
compact | - ANN_SLOT SECOND | slot=1024 mark=2 | - | FolderFull | - | mark full | =
compact | - - - | slot=64 mark=1 | - | FolderFull | - | mark full | BARE_SLOT - FIRST
compact | HEADER+ANN_KEPT+BOB_KEPT+WEB_THIRD+\0 - FIRST | slot=64 mark=2 | - | FolderFull | - | journal full | =
compact | HEADER+ANN_KEPT+BOB_KEPT+WEB_THIRD+\0 - FIRST | slot=100 mark=2 | - | FolderFull | - | journal full | =
compact | HEADER+ANN_KEPT+BOB_KEPT+WEB_THIRD+\0 - FIRST | slot=100 mark=1 | - | FolderFull | - | journal full | =
compact | HEADER+ANN_KEPT+BOB_KEPT+WEB_THIRD+\0 - FIRST | slot=101 mark=1 | - | FolderFull | - | mark full | =
compact | HEADER+ANN_KEPT+BOB_KEPT+WEB_THIRD+\0 - FIRST | slot=101 mark=2 | - | Done | - | - | - ALL_SLOT SECOND
compact | OLD_ANN - FIRST | slot=64 mark=3 | - | Done | - | - | NEW_ANN - THIRD
compact | OLD_ANN - FIRST | slot=64 mark=2 | - | FolderFull | - | mark full | - NEW_ANN SECOND
compact | OLD_ANN - FIRST | slot=64 mark=1 | - | FolderFull | - | mark full | =
compact | OLD_BOTH - FIRST | slot=64 mark=3 | - | Done | - | - | NEW_BOTH - THIRD
compact | ZCTL ANN_SLOT FIRST | - | - | Damaged | - | damaged: file 0 at 0 | =
replay | - - - | slot=64 mark=1 most=34 | ANN | Done | MADE | - | ANN_SLOT - FIRST
replay | - - - | slot=64 mark=1 most=34 | ANN \x03 | InputTooLong | MADE | input too long | ANN_SLOT - FIRST
replay | - - - | slot=64 mark=1 most=99 | ANN CUT | Truncated | MADE | session 0: 19 bytes left | ANN_SLOT - FIRST
replay | - - - | slot=64 mark=1 most=99 | ANN UNMARKED | BadInput | MADE | session 0: BadMarker at 34 | ANN_SLOT - FIRST
replay | - - - | slot=64 mark=1 most=99 take=1 | ANN | ReadFault | MADE | read fault | ANN_SLOT - FIRST
replay | - - - | piece=20 take=0 | ANN | ReadFault | - | read fault | BARE_SLOT - FIRST
replay | - - - | piece=20 take=1 | ANN | ReadFault | - | read fault | BARE_SLOT - FIRST
replay | - - - | piece=20 take=2 | ANN | ReadFault | MADE | read fault | ANN_SLOT - FIRST
replay | ANN_SLOT - FIRST | slot=64 mark=1 | - | Done | - | - | =
replay | HEADER+ANN_KEPT+WEB_KEPT+GRANT_TWICE+\0 HEADER+ANN_KEPT+WEB_KEPT+GRANT_KEPT+\0 FIRST | - | ANN | Damaged | - | damaged: file 0 at 174 | =
replay | HEADER+ANN_KEPT+WEB_KEPT+GRANT_KEPT+\0 HEADER+ANN_KEPT+WEB_KEPT+GRANT_TWICE+\0 SECOND | - | ANN | Damaged | - | damaged: file 1 at 174 | =
replay | HEADER+ANN_KEPT+WEB_KEPT+GRANT_TWICE+\0 HEADER+ANN_KEPT+WEB_KEPT+GRANT_KEPT+\0 \x01\x02\x03 | - | ANN | Damaged | - | damaged: file 0 at 174 | =
replay | OLD_ANN - FIRST | slot=64 mark=2 | - | Done | - | - | - NEW_ANN SECOND
replay | - OLD_ANN SECOND | slot=64 mark=3 | - | Done | - | - | NEW_ANN - THIRD
replay | OLD_ANN ANY FIRST | slot=64 mark=2 | - | Done | - | - | - NEW_ANN SECOND
replay | OLD_BOTH - FIRST | slot=64 mark=2 | - | Done | - | - | - NEW_BOTH SECOND
replay | OLD_BARE - FIRST | slot=64 mark=2 | - | Done | - | - | - BARE_SLOT SECOND
replay | OLD_ANN - FIRST | slot=1024 mark=2 | BOB | Done | BOB_MADE | - | - HEADER+NEW_KEPT+BOB_FIRST+\0 SECOND
replay | OLD_ANN - FIRST | slot=64 mark=1 | BOB | FolderFull | - | mark full | =
replay | OLD_ALL - FIRST | slot=85 mark=2 | BOB | FolderFull | - | journal full | =
replay | OLD_ALL - FIRST | slot=85 mark=1 | BOB | FolderFull | - | journal full | =
replay | OLD_ALL - FIRST | slot=86 mark=1 | BOB | FolderFull | - | mark full | =
replay | OLD_ALL - FIRST | slot=86 mark=2 | - | Done | - | - | - NEW_ALL SECOND
compact | OLD_ALL - FIRST | slot=85 mark=2 | - | FolderFull | - | journal full | =
audit | OLD_ANN - FIRST | slot=64 mark=1 | - | Done | ANN_ALONE | - | =
advise,ann,web | OLD_ANN - FIRST | - | - | Done | NO_SERVICE | - | =
replay | HEADER+ANN_KEPT+BOB_UNCOUNTED+\0 - FIRST | - | ANN | Damaged | - | damaged: file 0 at 56 | =
replay | HEADER+ANN_KEPT+BOB_THIRD+\0 - FIRST | - | ANN | Damaged | - | damaged: file 0 at 56 | =
replay | LONGEST_SLOT - FIRST | - | ANN | Damaged | - | damaged: file 0 at 8 | =
replay | HEADER+ANN_KEPT+BOB_GOES+\0 - FIRST | - | ANN | Damaged | - | damaged: file 0 at 56 | =
ship,0 | ANN_SLOT - FIRST | - | left | Done | SHIP_ANN | - | =
ship,1 | ANN_SLOT - FIRST | - | left | Done | SHIP_ANN | - | =
ship,2 | ANN_SLOT - FIRST | - | left | Done | - | - | =
ship,18446744073709551615 | ANN_SLOT - FIRST | - | left | Done | - | - | =
ship,0 | HEADER+ANN_KEPT+BOB_KEPT+\0 - FIRST | - | left | Done | SHIP_ANN SHIP_BOB_SECOND | - | =
ship,1 | HEADER+ANN_KEPT+BOB_KEPT+\0 - FIRST | - | left | Done | SHIP_ANN SHIP_BOB_SECOND | - | =
ship,2 | HEADER+ANN_KEPT+BOB_KEPT+\0 - FIRST | - | left | Done | SHIP_BOB | - | =
ship,3 | HEADER+ANN_KEPT+BOB_KEPT+\0 - FIRST | - | left | Done | - | - | =
ship,4294967298 | HEADER+ANN_KEPT+BOB_KEPT+\0 - FIRST | - | left | Done | - | - | =
ship,18446744073709551615 | HEADER+ANN_KEPT+BOB_KEPT+\0 - FIRST | - | left | Done | - | - | =
ship,1 | HEADER+ANN_KEPT+BOB_KEPT+WEB_THIRD+\0 - FIRST | - | left | Done | SHIP_ANN SHIP_BOB_SECOND SHIP_WEB_THIRD | - | =
ship,3 | HEADER+ANN_KEPT+BOB_KEPT+WEB_THIRD+\0 - FIRST | - | left | Done | SHIP_WEB | - | =
ship,0 | BOTH_SLOT - FIRST | - | left | Done | SHIP_BOTH | - | =
ship,1 | - BOTH_SLOT SECOND | - | left | Done | SHIP_BOTH | - | =
ship,2 | ANN_SLOT BOTH_SLOT SECOND | - | left | Done | SHIP_BOTH | - | =
ship,3 | ANN_SLOT BOTH_SLOT SECOND | - | left | Done | - | - | =
ship,0 | OLD_ANN - FIRST | - | left | Done | SHIP_OLD_ANN | - | =
ship,1 | OLD_ANN - FIRST | - | left | Done | - | - | =
ship,18446744073709551615 | OLD_ANN - FIRST | - | left | Done | - | - | =
ship,0 | OLD_GRANTED - FIRST | - | left | Done | SHIP_OLD_GRANTED | - | =
ship,1 | OLD_GRANTED - FIRST | - | left | Done | - | - | =
ship,0 | OLD_BARE - FIRST | - | left | Done | - | - | =
ship,0 | NEW_ANN - FIRST | - | left | Done | SHIP_OLD_ANN | - | =
ship,1 | NEW_ANN - FIRST | - | left | Done | - | - | =
ship,0 | HEADER+NEW_KEPT+BOB_FIRST+\0 - FIRST | - | left | Done | SHIP_OLD_ANN SHIP_NEW_BOB_SECOND | - | =
ship,1 | HEADER+NEW_KEPT+BOB_FIRST+\0 - FIRST | - | left | Done | SHIP_NEW_BOB | - | =
ship,2 | HEADER+NEW_KEPT+BOB_FIRST+\0 - FIRST | - | left | Done | - | - | =
ship,0 | BARE_SLOT - FIRST | - | left | Done | - | - | =
ship,0 | BARE_SLOT ANN_SLOT FIRST | - | left | Done | - | - | =
ship,0 | PENDING_SLOT - FIRST | - | left | Done | - | - | =
ship,0 | - - - | - | left | Done | - | - | =
ship,18446744073709551615 | - - - | - | left | Done | - | - | =
ship,0 | ANN_SLOT BOTH_SLOT - | - | left | Done | - | - | =
ship,1 | ANY ANY - | - | left | Done | - | - | =
ship,0 | - ANN_SLOT FIRST | - | left | Damaged | - | damaged: file 0 at 0 | =
ship,0 | FOREIGN_SLOT ANN_SLOT FIRST | - | left | Damaged | - | damaged: file 0 at 0 | =
ship,0 | ANN_SLOT LONGEST_SLOT SECOND | - | left | Damaged | - | damaged: file 1 at 8 | =
ship,0 | HEADER+ANN_KEPT+BOB_KEPT - FIRST | - | left | Damaged | - | damaged: file 0 at 104 | =
ship,0 | HEADER+ANN_KEPT+BOB_UNCOUNTED+\0 - FIRST | - | left | Damaged | - | damaged: file 0 at 56 | =
ship,0 | HEADER+ANN_KEPT+BOB_THIRD+\0 - FIRST | - | left | Damaged | - | damaged: file 0 at 56 | =
ship,0 | HEADER+ANN_KEPT+WEB_KEPT+GRANT_TWICE+\0 - FIRST | - | left | Damaged | - | damaged: file 0 at 174 | =
ship, | HEADER+ANN_KEPT+BOB_KEPT+\0 - FIRST | - | left | Usage | - | USAGE | =
ship,-1 | HEADER+ANN_KEPT+BOB_KEPT+\0 - FIRST | - | left | Usage | - | USAGE | =
ship,+1 | HEADER+ANN_KEPT+BOB_KEPT+\0 - FIRST | - | left | Usage | - | USAGE | =
ship,01 | HEADER+ANN_KEPT+BOB_KEPT+\0 - FIRST | - | left | Usage | - | USAGE | =
ship,00 | HEADER+ANN_KEPT+BOB_KEPT+\0 - FIRST | - | left | Usage | - | USAGE | =
ship,x | HEADER+ANN_KEPT+BOB_KEPT+\0 - FIRST | - | left | Usage | - | USAGE | =
ship,1x | HEADER+ANN_KEPT+BOB_KEPT+\0 - FIRST | - | left | Usage | - | USAGE | =
ship, 1 | HEADER+ANN_KEPT+BOB_KEPT+\0 - FIRST | - | left | Usage | - | USAGE | =
ship,18446744073709551616 | HEADER+ANN_KEPT+BOB_KEPT+\0 - FIRST | - | left | Usage | - | USAGE | =
follow | ANN_SLOT - FIRST | - | CUT | Truncated | - | session 0: 19 bytes left | =
follow | ANN_SLOT - FIRST | - | UNMARKED | BadInput | - | session 0: BadMarker at 0 | =
follow | ANN_SLOT - FIRST | take=0 | CUT | ReadFault | - | read fault | =
follow | - ANN_SLOT FIRST | - | CUT | Damaged | - | damaged: file 0 at 0 | =
follow | OLD_ANN - FIRST | mark=1 | CUT | FolderFull | - | mark full | =
"#;

/// The fields of a case.
#[derive(Clone, Copy)]
struct Case<'t> {
    line: &'t str,
    words: &'t str,
    before: &'t str,
    how: &'t str,
    input: &'t str,
    end: End<'t>,
}

/// How it ends: the status, what is said, the notes, and the folder.
#[derive(Clone, Copy)]
struct End<'t> {
    status: &'t str,
    said: &'t str,
    noted: &'t str,
    after: &'t str,
}

fn end_of(text: &str) -> Option<End<'_>> {
    let (status, rest) = text.split_once(" | ")?;
    let (said, rest) = rest.split_once(" | ")?;
    let (noted, after) = rest.split_once(" | ")?;
    Some(End {
        status,
        said,
        noted,
        after,
    })
}

// The case of a line.
fn case_of(line: &str) -> Option<Case<'_>> {
    let (words, rest) = line.split_once(" | ")?;
    let (before, rest) = rest.split_once(" | ")?;
    let (how, rest) = rest.split_once(" | ")?;
    let (input, rest) = rest.split_once(" | ")?;
    Some(Case {
        line,
        words,
        before,
        how,
        input,
        end: end_of(rest)?,
    })
}

/// The status of this name.
fn status_of(name: &str) -> Status {
    match name {
        "Done" => Status::Done,
        "Usage" => Status::Usage,
        "BadInput" => Status::BadInput,
        "Truncated" => Status::Truncated,
        "ReadFault" => Status::ReadFault,
        "Damaged" => Status::Damaged,
        "InputTooLong" => Status::InputTooLong,
        "FolderFull" => Status::FolderFull,
        _ => Status::NoMemory,
    }
}

/// The note of words that are no line of the table.
const USAGE: &str =
    "usage: zitictl dry | replay [--sessions] | audit | compact | load N | advise I S | ship N | follow";

// Runs words as a case says. No call of a look changes a part: its one moment is that of the say.
fn runs(
    rt: &impl Abort,
    alloc: Global,
    run: &Run<'_>,
    before: [&[u8]; 3],
    after: [&[u8]; 3],
) -> Result<(), AllocError> {
    let moments = leaves(rt, alloc, run, before, after)?;
    let (status, _, _) = run.ended;
    let wanted = u64::from(status == Status::Done);
    holds(rt, run.what, run.words != "audit" || moments == wanted);
    Ok(())
}

// The run of a case.
fn run_of<'r>(case: &'r Case<'r>, input: &'r [u8], said: &'r [u8], noted: &'r [u8]) -> Run<'r> {
    Run {
        what: case.line,
        words: case.words,
        how: How::AMPLE.by(case.how),
        input,
        ended: (status_of(case.end.status), said, noted),
    }
}

// Runs a case on a folder, behind which there is another one.
fn ends(
    rt: &impl Abort,
    alloc: Global,
    case: &Case<'_>,
    noted: &[u8],
    folders: [&Images; 2],
) -> Result<(), AllocError> {
    let input = bytes_of(alloc, case.input)?;
    let said = bytes_of(alloc, case.end.said)?;
    let run = run_of(case, input.as_slice(), said.as_slice(), noted);
    let [before, after] = folders;
    runs(rt, alloc, &run, parts_in(before), parts_in(after))
}

fn notes(
    rt: &impl Abort,
    alloc: Global,
    case: &Case<'_>,
    folders: [&Images; 2],
) -> Result<(), AllocError> {
    let is_usage = case.end.noted == "USAGE";
    let noted = notes_of(alloc, if is_usage { USAGE } else { case.end.noted })?;
    ends(rt, alloc, case, noted.as_slice(), folders)
}

fn check_case(rt: &impl Abort, alloc: Global, case: &Case<'_>) -> Result<(), AllocError> {
    let stays = case.end.after == "=";
    let before = folder_of(alloc, case.before)?;
    let after = folder_of(alloc, if stays { case.before } else { case.end.after })?;
    notes(rt, alloc, case, [&before, &after])
}

#[test]
fn ends_on_each_folder_as_it_has_to(rt: HostRuntime) -> Result<(), Fail> {
    for line in CASES.trim_ascii().lines() {
        let case = case_of(line).ok_or("a line is no case")?;
        check_case(&rt, rt.alloc(), &case)?;
    }
    Ok(())
}
